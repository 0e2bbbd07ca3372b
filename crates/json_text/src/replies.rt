// The answers to updates.
ghost use Rattle.std.specs.Prelude.{◌≡◌, ◌++◌, IfOk, OnOk};
ghost use Rattle.json_text.specs.Replies.{header_text, update_body, error_body};

use crate::pieces::{push_count, push_text};
use std::alloc::Global;
use tuple_values::{Bytes, Memory, Text};

/// The answer to an update that was carried out in so many milliseconds (Solr Reference Guide,
/// "Indexing with Update Handlers").
pub fn update_text(alloc: Global, millis: u64) -> Result<Bytes, Memory>
    ensures { IfOk result (λ bytes. bytes ≡ update_body millis) }
{
    let mut out = Bytes::new(alloc);
    push_header(&mut out, 0, millis)?;
    out.extend(b"}")?;
    Ok(out)
}

/// The answer to an update that was refused with a status code after so many milliseconds.
pub fn error_text(alloc: Global, code: u16, msg: &Text, millis: u64) -> Result<Bytes, Memory>
    ensures { IfOk result (λ bytes. bytes ≡ error_body code msg.now millis) }
{
    let mut out = Bytes::new(alloc);
    push_header(&mut out, code, millis)?;
    out.extend(b",\"error\":{\"msg\":")?;
    push_text(alloc, &mut out, msg.as_str())?;
    out.extend(b",\"code\":")?;
    push_count(&mut out, u64::from(code))?;
    out.extend(b"}}")?;
    Ok(out)
}

fn push_header(out: &mut Bytes, status: u16, millis: u64) -> Result<(), Memory>
    ensures { OnOk result (out.new ≡ out.old ++ header_text status millis) }
{
    out.extend(b"{\"responseHeader\":{\"status\":")?;
    push_count(out, u64::from(status))?;
    out.extend(b",\"QTime\":")?;
    push_count(out, millis)?;
    out.extend(b"}")
}
