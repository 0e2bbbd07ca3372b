// Tests of stream_handler: that a whole connection is served where there is memory, how long its
// requests took by a clock, and that a stream may be given to another thread.
ghost use Rattle.std.specs.Prelude.{IfOk};
ghost use Rattle.running_site.specs.Sites.{IsPassAt};

use crate::joining::{is_joined, joined};
use crate::samples::{FOUND, SEARCH, UPDATE, UPDATED};
use daemon_board::Board;
use io_edge::{MemorySink, MemorySource, NoGate};
use running_site::{Pass, Site, SiteOf};
use server_edge::{Clock, MemoryClock, NoClock};
use std::alloc::Global;
use std::sync::Wait;
use std::test::Fail;
use std::thread::Threads;
use stream_engine::Stream;
use stream_handler::{End, SessionEnd, serve_connection};
use stream_site::Turns;
use tuple_values::{Memory, NameShards, Names, Numbers, Text};

// A site with the collection `c` of two shards, and its one pass.
pub(crate) fn alone(alloc: Global) -> Result<(Site, Pass), Memory>
    ensures { IfOk result (λ made. IsPassAt made.0 made.1) }
{
    let mut names = Names::new(alloc);
    let name = Text::of(alloc, "c")?;
    names.push(NameShards { name, shards: 2 })?;
    SiteOf::start_alone(alloc, names, 1_000_000)
}

// How a connection of these pieces is served at a new site by a clock, seven bytes at a time.
fn serve<R: Threads + Wait + Sync, C: Clock>(
    rt: &R,
    alloc: Global,
    pieces: &[&str],
    sink: &mut MemorySink,
    clock: &C,
) -> Result<SessionEnd, Memory> {
    let mut source = MemorySource::new(joined(alloc, pieces)?, 7, Numbers::new(alloc));
    let mut board = Board::empty(alloc);
    let (site, mut pass) = alone(alloc)?;
    let mut visit = site.visit(rt, &mut pass);
    let served = serve_connection(
        rt,
        alloc,
        &mut visit,
        &mut board,
        &mut source,
        sink,
        clock,
        &NoGate,
    );
    visit.leave();
    visit.end(&mut pass);
    Ok(served)
}

// Whether the exchange of this number has so many looks and steps.
fn has(served: &SessionEnd, number: usize, looks: usize, steps: usize) -> bool {
    match served.exchanges.as_slice().get(number) {
        Some(exchange) => exchange.marks.len() == looks && exchange.own.len() == steps,
        None => false,
    }
}

const UPDATED_IN_7: &str = "HTTP/1.1 200 OK\r\nContent-Type: application/json\r\n\
     Content-Length: 41\r\n\r\n{\"responseHeader\":{\"status\":0,\"QTime\":7}}";

// Whether two requests were answered, and the second asked to close.
fn is_closed(served: &SessionEnd) -> bool {
    served.end == End::Closed
        && served.exchanges.len() == 2
        && has(served, 0, 2, 1)
        && has(served, 1, 2, 0)
}

fn is_served<R: Threads + Wait + Sync>(rt: &R, alloc: Global) -> Result<bool, Memory> {
    let mut sink = MemorySink::new(alloc, Numbers::new(alloc));
    let served = serve(rt, alloc, &[UPDATE, SEARCH, UPDATE], &mut sink, &NoClock)?;
    Ok(is_closed(&served) && is_joined(sink.bytes(), &[UPDATED, FOUND]))
}

#[test]
fn a_connection_is_served_until_it_closes(rt: HostRuntime) -> Result<(), Fail> {
    assert!(rt; is_served(&rt, rt.alloc())?);
    Ok(())
}

// Whether the exchange of this number took so many milliseconds.
fn took(served: &SessionEnd, number: usize, millis: u64) -> bool {
    match served.exchanges.as_slice().get(number) {
        Some(exchange) => exchange.millis == millis,
        None => false,
    }
}

// A clock that tells 5 and 12, and falls from 20 to 3.
fn falling_clock(alloc: Global) -> Result<MemoryClock, Memory> {
    let mut numbers = Numbers::new(alloc);
    for now in [5, 12, 20, 3] {
        numbers.push(now)?;
    }
    Ok(MemoryClock::new(numbers))
}

// Whether the first of two requests took 7 milliseconds by a clock, and the second none.
fn is_timed<R: Threads + Wait + Sync, C: Clock>(
    rt: &R,
    alloc: Global,
    clock: &C,
    sink: &mut MemorySink,
) -> Result<bool, Memory> {
    let served = serve(rt, alloc, &[UPDATE, SEARCH], sink, clock)?;
    Ok(
        took(&served, 0, 7)
            && took(&served, 1, 0)
            && is_joined(sink.bytes(), &[UPDATED_IN_7, FOUND]),
    )
}

fn are_timed<R: Threads + Wait + Sync>(rt: &R, alloc: Global) -> Result<bool, Memory> {
    let clock = falling_clock(alloc)?;
    is_timed(
        rt,
        alloc,
        &clock,
        &mut MemorySink::new(alloc, Numbers::new(alloc)),
    )
}

#[test]
fn a_request_takes_what_went_by_on_the_clock(rt: HostRuntime) -> Result<(), Fail> {
    assert!(rt; are_timed(&rt, rt.alloc())?);
    Ok(())
}

fn end_of<R: Threads + Wait + Sync>(rt: &R, alloc: Global, bytes: &str) -> Result<End, Memory> {
    let mut sink = MemorySink::new(alloc, Numbers::new(alloc));
    let served = serve(rt, alloc, &[bytes], &mut sink, &NoClock)?;
    Ok(served.end)
}

#[test]
fn a_connection_ends_at_what_is_refused_or_cut(rt: HostRuntime) -> Result<(), Fail> {
    let refused = end_of(&rt, rt.alloc(), "GET /solr/d/stream HTTP/1.1\r\n\r\n")?;
    assert!(rt; refused == End::Refused { status: 404 });
    assert!(rt; end_of(&rt, rt.alloc(), "GET /solr")? == End::Cut { held: 9 });
    assert!(rt; end_of(&rt, rt.alloc(), "\r\n")? == End::Ended);
    Ok(())
}

fn is_sent<T: Send>() {}

#[test]
fn a_stream_goes_to_other_threads(_rt: HostRuntime) {
    is_sent::<Stream>();
}
