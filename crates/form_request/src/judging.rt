// What becomes of a message by its head.
ghost use Rattle.std.specs.Prelude.{◌≡◌, ◌≤◌, ◌==◌, ◌||◌, ◌&&◌, All, IfOk, length, codes, nat_lt};
ghost use Rattle.httparse.specs.Spans.{IsHeaderWithin, IsRequestWithin};
ghost use Rattle.form_request.specs.Fields.{fields_at, has};
ghost use Rattle.form_request.specs.Judging.{body_limit, first_refusal, is_stream, judgement, length_value, parts_at, refusals};

use crate::fields::{Length, Want, content_length, has_field};
use crate::params::add_params;
use crate::plan::{Judged, Plan};
use crate::route::{is_same, read_route, split_once};
use crate::{Handler, Params};
use httparse::spans::{HeaderSpan, RequestSpans};
use std::alloc::Global;
use tuple_values::{Memory, Names, TryCopy};

/// The greatest number of bytes of a body.
pub const BODY_LIMIT: u64 = 8_388_608;

/// Judges the message with this head, whose parts the spans cover.
pub fn judge(
    alloc: Global,
    names: &Names,
    head: &[u8],
    spans: &[HeaderSpan],
    line: RequestSpans,
) -> Result<Judged, Memory>
    requires within { IsRequestWithin head.now spans.now line }
    requires whole { line.len ≡ length head.now }
    requires small { length head.now ≤ 16384 }
    ensures { IfOk result (λ judged.
        judged ≡ judgement names.now (parts_at head.now spans.now line) (length head.now)) }
{
    let fields = &spans[..line.headers];
    let (path, query) = split_once(line.path.of(head), b'?');
    let body = content_length(head, fields);
    let found = read_route(names, path);
    let encoded = has_field(head, fields, b"transfer-encoding", Want::Anything);
    let method = line.method.of(head);
    if let Some(status) = refusal(encoded, body, found.is_some(), method) {
        return Ok(Judged::Refuses(status));
    }
    match found {
        None => Ok(Judged::Refuses(404)),
        Some((handler, name)) => {
            let length = body_length(body);
            let mut params = Params::new(alloc);
            add_params(alloc, &mut params, query)?;
            Ok(Judged::Takes(Plan {
                handler,
                collection: name.copy(alloc)?,
                params,
                length,
                size: head.len() as u32,
                closes: closes(head, fields, line.version),
                chunks: line.version == 1,
                asks: asks(head, fields, line.version, length),
                is_form: is_same(method, b"POST") && is_stream_handler(handler),
            }))
        }
    }
}

fn closes(head: &[u8], fields: &[HeaderSpan], minor: u8) -> bool
    requires { All (IsHeaderWithin (length head.now)) fields.now }
    ensures { result ≡ ((minor == 0)
        || has (codes "connection") Want.Close (fields_at head.now fields.now)) }
{
    minor == 0 || has_field(head, fields, b"connection", Want::Close)
}

fn asks(head: &[u8], fields: &[HeaderSpan], minor: u8, body: u32) -> bool
    requires { All (IsHeaderWithin (length head.now)) fields.now }
    ensures { result ≡ ((minor == 1) && nat_lt 0 body
        && has (codes "expect") Want.Continue (fields_at head.now fields.now)) }
{
    minor == 1 && 0 < body && has_field(head, fields, b"expect", Want::Continue)
}

fn is_stream_handler(handler: Handler) -> bool
    ensures { result ≡ is_stream handler }
{
    match handler {
        Handler::Stream => true,
        Handler::Update => false,
    }
}

// The number of bytes of a body that isn't refused.
fn body_length(body: Length) -> u32
    requires { length_value body ≤ body_limit }
    ensures { result ≡ length_value body }
{
    match body {
        Length::Given(length) => length as u32,
        Length::Absent => 0,
        Length::Unclear => 0,
    }
}

// The status of the first refusal that applies.
fn refusal(encoded: bool, body: Length, routed: bool, method: &[u8]) -> Option<u16>
    ensures { result ≡ first_refusal (refusals encoded body routed method.now) }
{
    if encoded {
        return Some(501);
    }
    if let Length::Unclear = body {
        return Some(400);
    }
    if is_over(body) {
        return Some(413);
    }
    if !routed {
        return Some(404);
    }
    let posts = is_same(method, b"POST");
    if !posts && !is_same(method, b"GET") {
        return Some(405);
    }
    match body {
        Length::Absent if posts => Some(411),
        _ => None,
    }
}

fn is_over(body: Length) -> bool
    ensures { result ≡ nat_lt body_limit (length_value body) }
{
    match body {
        Length::Given(length) => BODY_LIMIT < length,
        _ => false,
    }
}
