// The head at the front of a stream.
ghost use Rattle.std.specs.Prelude.{◌≡◌, ◌<◌, ◌≤◌, [], IfSome, IfNone, IfOk, length};
ghost use Rattle.httparse.specs.Grammar.{RequestHead, ReadsRequest};
ghost use Rattle.httparse.specs.Spans.{IsRequestWithin};
ghost use Rattle.form_request.specs.Ends.{line_count};
ghost use Rattle.form_request.specs.Heads.{HasNoHead, FrontIs, HeadGives, IsFrontWithin, front_of};
ghost use Rattle.form_request.specs.Judging.{parts_at, parts_of};
ghost use Rattle.form_request.specs.Searches.{IsSearched};

use crate::judging::judge;
use crate::plan::{Judged, Plan};
use crate::search::{Search, head_end};
use httparse::Status;
use httparse::spans::{EMPTY_HEADER_SPAN, HeaderSpan, RequestSpans, parse_request};
use std::alloc::Global;
use tuple_values::{Memory, Names};

/// The greatest number of bytes of a head, with the empty lines before it.
pub const HEAD_LIMIT: usize = 16_384;

/// What stands at the front of a stream.
#[derive(Drop)]
pub enum Front {
    /// Nothing, or a part of a head.
    Unfinished,
    /// A message that is refused with this status.
    Refused(u16),
    /// A message that is read on behind its head, which ends there.
    Taken(Plan, usize),
}

/// What stands at the front, and how far the search for the end of its head has come.
pub fn read_front(
    alloc: Global,
    names: &Names,
    bytes: &[u8],
    start: Search,
) -> Result<(Search, Front), Memory>
    requires { IsSearched (front_of bytes.now) start }
    ensures searched { IfOk result (λ r. IsSearched (front_of bytes.now) r.0) }
    ensures front { IfOk result (λ r. FrontIs names.now bytes.now r.1) }
{
    let front = searched_part(bytes);
    let (at, end) = head_end(front, start);
    match end {
        None if bytes.len() < HEAD_LIMIT => Ok((at, Front::Unfinished)),
        None => Ok((at, Front::Refused(431))),
        Some(place) => {
            let found = front_at(alloc, names, &front[at.blank..place], place)?;
            Ok((at, found))
        }
    }
}

// The bytes in which a head is looked for.
fn searched_part(bytes: &[u8]) -> &[u8]
    ensures { result.now ≡ front_of bytes.now }
{
    if bytes.len() <= HEAD_LIMIT {
        return bytes;
    }
    &bytes[..HEAD_LIMIT]
}

// What a message is by its head, which ends at the place.
fn front_at(alloc: Global, names: &Names, head: &[u8], place: usize) -> Result<Front, Memory>
    requires small { length head.now ≤ 16384 }
    requires some { 0 < place }
    ensures gives { IfOk result (HeadGives names.now head.now place) }
    ensures within { IfOk result (IsFrontWithin place) }
{
    if lines(head) > 66 {
        return Ok(Front::Refused(431));
    }
    let mut spans = [EMPTY_HEADER_SPAN; 64];
    match read_head(head, &mut spans) {
        None => Ok(Front::Refused(400)),
        Some(line) => match judge(alloc, names, head, &spans, line)? {
            Judged::Refuses(status) => Ok(Front::Refused(status)),
            Judged::Takes(plan) => Ok(Front::Taken(plan, place)),
        },
    }
}

fn lines(head: &[u8]) -> usize
    ensures { result ≡ line_count head.now }
{
    head.iter().filter(|b| **b == b'\n').count()
}

// Where the parts of a head are, if the bytes are one.
fn read_head(head: &[u8], spans: &mut [HeaderSpan]) -> Option<RequestSpans>
    requires room { length spans.old ≡ 64 }
    requires lines { line_count head.now ≤ 66 }
    ensures within { IfSome result (IsRequestWithin head.now spans.new) }
    ensures whole { IfSome result (λ line. line.len ≡ length head.now) }
    ensures found { IfSome result (λ line. (h : RequestHead) × ReadsRequest head.now h []
        × (parts_at head.now spans.new line ≡ parts_of h)) }
    ensures none { IfNone result (HasNoHead head.now) }
{
    match parse_request(head, spans) {
        Ok(Status::Complete(line)) if line.len == head.len() => Some(line),
        _ => None,
    }
}
