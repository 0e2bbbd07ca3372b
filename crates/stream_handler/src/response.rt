// The bytes of HTTP responses.
ghost use Rattle.std.specs.Prelude.{◌≡◌, ◌++◌, IfOk, OnOk};
ghost use Rattle.std.specs.Fmt.{decimal};
ghost use Rattle.stream_handler.specs.Chunks.{chunk};
ghost use Rattle.stream_handler.specs.Responses.{chunked_fields, chunked_head, closing, fields, reason_of, response, status_line};

use http::StatusCode;
use std::alloc::Global;
use tuple_values::{Bytes, Memory};

// The phrase of a status.
fn reason(status: u16) -> &'static str
    ensures { result.now ≡ reason_of status }
{
    if status < 100 || status >= 1000 {
        return "";
    }
    match StatusCode::from_u16(status) {
        Ok(status) => status.canonical_reason().unwrap_or(""),
        Err(_) => unreachable!(),
    }
}

fn push_number(alloc: Global, out: &mut Bytes, n: u64) -> Result<(), Memory>
    ensures { OnOk result (out.new ≡ out.old ++ decimal n) }
{
    let text = format!(in alloc; "{n}")?;
    out.extend(text.as_bytes())
}

fn push_status_line(alloc: Global, out: &mut Bytes, status: u16) -> Result<(), Memory>
    ensures { OnOk result (out.new ≡ out.old ++ status_line status) }
{
    out.extend(b"HTTP/1.1 ")?;
    push_number(alloc, out, u64::from(status))?;
    out.extend(b" ")?;
    out.extend(reason(status).as_bytes())?;
    out.extend(b"\r\n")
}

fn push_closing(out: &mut Bytes, closes: bool) -> Result<(), Memory>
    ensures { OnOk result (out.new ≡ out.old ++ closing closes) }
{
    if closes {
        return out.extend(b"Connection: close\r\n");
    }
    Ok(())
}

fn push_fields(alloc: Global, out: &mut Bytes, size: u64, closes: bool) -> Result<(), Memory>
    ensures { OnOk result (out.new ≡ out.old ++ fields size closes) }
{
    out.extend(b"Content-Type: application/json\r\nContent-Length: ")?;
    push_number(alloc, out, size)?;
    out.extend(b"\r\n")?;
    push_closing(out, closes)?;
    out.extend(b"\r\n")
}

fn push_chunked_fields(out: &mut Bytes, closes: bool) -> Result<(), Memory>
    ensures { OnOk result (out.new ≡ out.old ++ chunked_fields closes) }
{
    out.extend(b"Content-Type: application/json\r\nTransfer-Encoding: chunked\r\n")?;
    push_closing(out, closes)?;
    out.extend(b"\r\n")
}

/// Adds the head of a response whose body goes in chunks. Where the connection closes with it, it
/// says so.
pub(crate) fn push_chunked_head(alloc: Global, out: &mut Bytes, closes: bool) -> Result<(), Memory>
    ensures { OnOk result (out.new ≡ out.old ++ chunked_head closes) }
{
    push_status_line(alloc, out, 200)?;
    push_chunked_fields(out, closes)
}

/// Adds these bytes as a chunk.
pub(crate) fn push_chunk(alloc: Global, out: &mut Bytes, bytes: &[u8]) -> Result<(), Memory>
    ensures { OnOk result (out.new ≡ out.old ++ chunk bytes.now) }
{
    let size = bytes.len() as u64;
    let text = format!(in alloc; "{size:x}\r\n")?;
    out.extend(text.as_bytes())?;
    out.extend(bytes)?;
    out.extend(b"\r\n")
}

// The bytes behind a head. They are moved to make room for it, and not copied into other memory.
fn behind(head: &Bytes, body: Bytes) -> Result<Bytes, Memory>
    ensures { IfOk result (λ bytes. bytes ≡ head.now ++ body) }
{
    let mut bytes = body.into_vec();
    bytes.extend_from_slice(head.as_slice())?;
    bytes.rotate_right(head.len());
    Ok(Bytes::from_vec(bytes))
}

/// A response with this status and body. Where the connection closes with it, it says so.
pub(crate) fn response(
    alloc: Global,
    status: u16,
    closes: bool,
    body: Bytes,
) -> Result<Bytes, Memory>
    ensures { IfOk result (λ bytes. bytes ≡ response status closes body) }
{
    let mut head = Bytes::new(alloc);
    push_status_line(alloc, &mut head, status)?;
    push_fields(alloc, &mut head, body.len() as u64, closes)?;
    behind(&head, body)
}
