// Tests of replies in chunks (RFC 9112, section 7.1), in whole runs: a result set longer than one
// chunk, and one whose closing is a chunk of its own.
use crate::running::a_run;
use handler_tests::chunks::{
    BEHIND, CHUNKED, FIRST, LAST_CHUNK, SEARCH, add_ids, begun, second_chunk, update_and,
};
use handler_tests::joining::{add_all, joined, source};
use handler_tests::samples::{END, OPENING, SEARCH as CLOSING_SEARCH};
use io_edge::NoGate;
use std::alloc::Global;
use std::sync::Wait;
use std::test::Fail;
use std::thread::Threads;
use std::time::Clock as SystemClock;
use tuple_values::{Bytes, Memory};

/// The head of the reply in one piece, whose body has the 4,104 and 1,152 bytes of both chunks.
const WHOLE: &str = "HTTP/1.1 200 OK\r\nContent-Type: application/json\r\nContent-Length: 5256\r\n\
     Connection: close\r\n\r\n";

// Adds the reply in one piece.
fn add_whole(alloc: Global, bytes: &mut Bytes) -> Result<(), Memory> {
    add_all(bytes, &[WHOLE, OPENING])?;
    add_ids(alloc, bytes, FIRST, BEHIND)?;
    add_all(bytes, &[",", END])
}

// The update's response, the search's reply in chunks, and the reply in one piece.
fn replies(alloc: Global) -> Result<Bytes, Memory> {
    let chunk = second_chunk(alloc)?;
    let mut bytes = begun(alloc)?;
    bytes.extend(chunk.as_slice())?;
    add_all(&mut bytes, &[LAST_CHUNK])?;
    add_whole(alloc, &mut bytes)?;
    Ok(bytes)
}

// Whether a search of the documents is answered in two chunks, and in one piece under 1.0.
fn is_split<R: Threads + Wait + SystemClock + Sync>(rt: &R, alloc: Global) -> Result<bool, Memory> {
    let wanted = replies(alloc)?;
    let mut input = source(alloc, update_and(alloc, &[SEARCH, CLOSING_SEARCH])?, None)?;
    let ran = a_run(rt, alloc, "script c=1", &mut input, None, &NoGate)?;
    Ok(ran.status == 0 && ran.errors.bytes().is_empty() && ran.output.bytes() == wanted.as_slice())
}

#[test]
fn a_long_result_set_goes_in_two_chunks(rt: HostRuntime) -> Result<(), Fail> {
    assert!(rt; is_split(&rt, rt.alloc())?);
    Ok(())
}

/// How long a text is whose end tuple ends at 4,096 bytes: the opening has 23, the tuple 8 round
/// its text, and the end tuple 31 with its comma.
const EXACT: u64 = 4_034;

const EXACT_REQUEST: &str = "GET /solr/c/stream?expr=tuple(a%3D%22";

// Adds that text.
fn add_exact(bytes: &mut Bytes) -> Result<(), Memory> {
    for _ in 0..EXACT {
        bytes.extend(b"x")?;
    }
    Ok(())
}

// The request for a tuple with that text.
fn exact_request(alloc: Global) -> Result<Bytes, Memory> {
    let mut bytes = joined(alloc, &[EXACT_REQUEST])?;
    add_exact(&mut bytes)?;
    add_all(&mut bytes, &["%22) HTTP/1.1\r\n\r\n"])?;
    Ok(bytes)
}

// Its reply: 4,096 bytes to the end tuple go as one chunk, and the closing as another.
fn exact_reply(alloc: Global) -> Result<Bytes, Memory> {
    let mut bytes = joined(alloc, &[CHUNKED, "1000\r\n", OPENING, "{\"a\":\""])?;
    add_exact(&mut bytes)?;
    let end = "\"},{\"EOF\":true,\"RESPONSE_TIME\":0}\r\n3\r\n]}}\r\n";
    add_all(&mut bytes, &[end, LAST_CHUNK])?;
    Ok(bytes)
}

// Whether the tuple's request is answered so.
fn is_exact<R: Threads + Wait + SystemClock + Sync>(rt: &R, alloc: Global) -> Result<bool, Memory> {
    let wanted = exact_reply(alloc)?;
    let mut input = source(alloc, exact_request(alloc)?, None)?;
    let ran = a_run(rt, alloc, "script c=1", &mut input, None, &NoGate)?;
    Ok(ran.status == 0 && ran.output.bytes() == wanted.as_slice())
}

#[test]
fn the_closing_goes_alone_behind_a_full_chunk(rt: HostRuntime) -> Result<(), Fail> {
    assert!(rt; is_exact(&rt, rt.alloc())?);
    Ok(())
}
