// Tests of replies in chunks, by the one pass of a site: a result set longer than one chunk, as it
// is given, and where it breaks off.
ghost use Rattle.running_site.specs.Sites.{IsPassAt};

use crate::chunks::{CHUNKED, LAST_CHUNK, SEARCH, begun, first_chunk, second_chunk, update_and};
use crate::joining::{joined, source};
use crate::of_runs::{fed, request};
use daemon_board::Board;
use form_request::Requests;
use io_edge::{MemorySink, MemorySource, NoGate};
use pass_calls::{answer, serve_one};
use running_site::{Pass, Site};
use server_edge::NoClock;
use std::alloc::Global;
use std::sync::Wait;
use std::test::Fail;
use std::thread::Threads;
use stream_handler::{DocsReply, End, OneEnd, Reply};
use tuple_values::{Bytes, Memory, Numbers, Sequence};

// A sink whose third write fails. The update's response is the first, and the search's head with
// its first chunk the second: what is made is written as soon as it has 4,096 bytes.
fn failing_sink(alloc: Global) -> Result<MemorySink, Memory> {
    let mut calls = Numbers::new(alloc);
    calls.push(2)?;
    Ok(MemorySink::new(alloc, calls))
}

// How the next request of an input is served at the site.
fn serve<R: Threads + Wait + Sync>(
    rt: &R,
    alloc: Global,
    site: &Site,
    pass: &mut Pass,
    requests: &mut Requests,
    input: &mut MemorySource,
    sink: &mut MemorySink,
) -> OneEnd
    requires { IsPassAt site.now pass.old }
    ensures { IsPassAt site.now pass.new }
{
    let mut board = Board::empty(alloc);
    serve_one(
        rt, alloc, site, pass, &mut board, requests, input, sink, &NoClock, &NoGate,
    )
}

// Whether a request of one look wasn't answered whole, since the sink failed.
fn is_unfinished(one: &OneEnd) -> bool {
    match one {
        OneEnd::Over {
            end,
            unfinished: Some(exchange),
        } => *end == End::WriteFault && exchange.marks.len() == 1 && exchange.own.len() == 0,
        OneEnd::Over { .. } | OneEnd::Served(_) | OneEnd::Last(_) => false,
    }
}

// Whether the update is answered, and the search's reply breaks off behind its first chunk.
fn is_cut<R: Threads + Wait + Sync>(
    rt: &R,
    alloc: Global,
    site: &Site,
    pass: &mut Pass,
) -> Result<bool, Memory>
    requires { IsPassAt site.now pass.old }
    ensures { IsPassAt site.now pass.new }
{
    let wanted = begun(alloc)?;
    let mut requests = Requests::begin(alloc);
    let mut input = source(alloc, update_and(alloc, &[SEARCH])?, None)?;
    let mut sink = failing_sink(alloc)?;
    let first = serve(rt, alloc, site, pass, &mut requests, &mut input, &mut sink);
    let second = serve(rt, alloc, site, pass, &mut requests, &mut input, &mut sink);
    let are_told = matches!(first, OneEnd::Served(_)) && is_unfinished(&second);
    Ok(are_told && sink.bytes() == wanted.as_slice())
}

#[test]
fn a_reply_breaks_off_behind_a_chunk(rt: HostRuntime) -> Result<(), Fail> {
    let (site, mut pass) = fed(rt.alloc())?;
    assert!(rt; is_cut(&rt, rt.alloc(), &site, &mut pass)?);
    Ok(())
}

// The reply to the request of these bytes at the site.
fn reply_to<R: Threads + Wait + Sync>(
    rt: &R,
    alloc: Global,
    site: &Site,
    pass: &mut Pass,
    bytes: &[u8],
) -> Result<Reply, Fail>
    requires { IsPassAt site.now pass.old }
    ensures { IsPassAt site.now pass.new }
{
    let request = request(alloc, site.names(), bytes)?;
    let mut board = Board::empty(alloc);
    let answered = answer(
        rt, alloc, site, pass, &mut board, request, &NoClock, &NoGate,
    )?;
    Ok(answered.reply)
}

// The head of the reply and its chunks.
fn items(alloc: Global) -> Result<Sequence<Bytes>, Memory> {
    let mut items = Sequence::new(alloc);
    items.push(joined(alloc, &[CHUNKED])?)?;
    items.push(first_chunk(alloc)?)?;
    items.push(second_chunk(alloc)?)?;
    items.push(joined(alloc, &[LAST_CHUNK])?)?;
    Ok(items)
}

// Whether the reply gives this next.
fn is_next(alloc: Global, docs: &mut DocsReply, item: &Bytes) -> Result<bool, Memory> {
    Ok(match docs.next(alloc)? {
        Some(given) => given.as_slice() == item.as_slice(),
        None => false,
    })
}

// Whether the reply gives these, one after another, and then nothing, twice.
fn gives(alloc: Global, docs: &mut DocsReply, items: &[Bytes]) -> Result<bool, Memory> {
    for item in items {
        if !is_next(alloc, docs, item)? {
            return Ok(false);
        }
    }
    Ok(docs.next(alloc)?.is_none() && docs.next(alloc)?.is_none())
}

// Whether the search's reply gives its head and its chunks, once the update is carried out.
fn are_given<R: Threads + Wait + Sync>(
    rt: &R,
    alloc: Global,
    site: &Site,
    pass: &mut Pass,
) -> Result<bool, Fail>
    requires { IsPassAt site.now pass.old }
    ensures { IsPassAt site.now pass.new }
{
    let update = update_and(alloc, &[])?;
    let wanted = items(alloc)?;
    let _ = reply_to(rt, alloc, site, pass, update.as_slice())?;
    match reply_to(rt, alloc, site, pass, SEARCH.as_bytes())? {
        Reply::Docs(mut docs) => Ok(gives(alloc, &mut docs, wanted.as_slice())?),
        Reply::Whole(_) => Ok(false),
    }
}

#[test]
fn a_reply_gives_its_head_and_its_chunks(rt: HostRuntime) -> Result<(), Fail> {
    let (site, mut pass) = fed(rt.alloc())?;
    assert!(rt; are_given(&rt, rt.alloc(), &site, &mut pass)?);
    Ok(())
}
