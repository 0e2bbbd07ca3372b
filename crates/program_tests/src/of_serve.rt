// Tests of the command `serve`: that workers and runners are at work at once, over doors in memory.
use crate::running::{TestDoor, row_of, words_of};
use handler_tests::joining::{is_joined, joined};
use handler_tests::samples::UPDATED;
use io_edge::{Gate, MemorySink, MemorySource, NoGate, Point};
use server_edge::{Connection, MemoryDoor, NoClock};
use shard_versions::{Entry, Kind, Step, id_of};
use std::alloc::Global;
use std::collections::VecDeque;
use std::sync::Wait;
use std::sync::atomic::{AtomicBool, AtomicU64, Ordering};
use std::test::Fail;
use std::thread::{Threads, yield_now};
use std::time::Clock as SystemClock;
use stream_commands::{DoorRow, run_words};
use stream_handler::End;
use tuple_values::{Memory, Numbers, Sequence};

// Counts those that come to a delivery, and holds each until two have, for so many turns at most.
#[derive(Drop)]
struct Together {
    turns: u64,
    came: AtomicU64,
    lonely: AtomicBool,
}

fn gate_for(turns: u64) -> Together {
    Together {
        turns,
        came: AtomicU64::new(0),
        lonely: AtomicBool::new(false),
    }
}

// Waits until two have come.
fn hold(gate: &Together) {
    gate.came.fetch_add(1, Ordering::SeqCst);
    for _ in 0..gate.turns {
        if gate.came.load(Ordering::SeqCst) >= 2 {
            return;
        }
        yield_now();
    }
    gate.lonely.store(true, Ordering::SeqCst);
}

impl Gate for Together {
    fn at(&self, point: Point) {
        match point {
            Point::BeforeSend => hold(self),
            Point::WorkerStarts { .. } | Point::WorkerEnds { .. } | Point::BeforeStore => {}
        }
    }
}

// Whether two came, and none waited in vain.
fn met(gate: &Together) -> bool {
    gate.came.load(Ordering::SeqCst) == 2 && !gate.lonely.load(Ordering::SeqCst)
}

// A connection of these requests.
fn connection(alloc: Global, requests: &[&str]) -> Result<Connection, Memory> {
    let none = Numbers::new(alloc);
    Ok(Connection {
        input: MemorySource::new(joined(alloc, requests)?, 4096, none),
        output: MemorySink::new(alloc, Numbers::new(alloc)),
    })
}

// A door of one connection; this call of `next` fails.
fn door(alloc: Global, requests: &[&str], failing: Option<u64>) -> Result<TestDoor, Memory> {
    let mut waiting = VecDeque::new(alloc);
    waiting.push_back(connection(alloc, requests)?)?;
    let mut calls = Numbers::new(alloc);
    if let Some(call) = failing {
        calls.push(call)?;
    }
    MemoryDoor::new(alloc, waiting, Numbers::new(alloc), calls)
}

// The status of a server of these words, which reads and writes nothing but this line of errors.
fn serve<R: Threads + Wait + SystemClock + Sync, G: Gate>(
    rt: &R,
    alloc: Global,
    words: &str,
    row: &mut DoorRow<TestDoor>,
    errors: &str,
    gate: &G,
) -> Result<Option<u8>, Memory> {
    let words = words_of(alloc, words)?;
    let none = Numbers::new(alloc);
    let mut input = MemorySource::new(joined(alloc, &["unread"])?, 5, none);
    let mut output = MemorySink::new(alloc, Numbers::new(alloc));
    let mut told = MemorySink::new(alloc, Numbers::new(alloc));
    let status = run_words(
        rt,
        alloc,
        &words,
        &mut input,
        &mut output,
        &mut told,
        row,
        &NoClock,
        gate,
    );
    let is_quiet = output.bytes().is_empty() && is_joined(told.bytes(), &[errors]);
    Ok(if is_quiet { Some(status) } else { None })
}

// Whether the door's connection came back, with so many exchanges, and these replies.
fn came(door: Option<&TestDoor>, exchanges: usize, replies: &[&str]) -> bool {
    match door {
        Some(door) => match door.came() {
            [back] => {
                back.note.end == End::Ended
                    && back.note.exchanges.len() == exchanges
                    && is_joined(back.output.bytes(), replies)
            }
            _ => false,
        },
        None => false,
    }
}

const PUT_A: &str =
    "POST /solr/c/update?commit=true HTTP/1.1\r\nContent-Length: 12\r\n\r\n[{\"id\":\"a\"}]";

const PUT_B: &str =
    "POST /solr/c/update?commit=true HTTP/1.1\r\nContent-Length: 12\r\n\r\n[{\"id\":\"b\"}]";

const FEED_D1: &str = "GET /solr/d1/stream?expr=update(d1,topic(ck,c,id%3Dt1,q%3D%22*:*%22,fl%3Did,\
     initialCheckpoint%3D0)) HTTP/1.1\r\n\r\n";

const FEED_D2: &str = "GET /solr/d2/stream?expr=update(d2,topic(ck,c,id%3Dt2,q%3D%22*:*%22,fl%3Did,\
     initialCheckpoint%3D0)) HTTP/1.1\r\n\r\n";

// How many exchanges the connections of the first two doors had.
fn exchanges(row: &DoorRow<TestDoor>, at: usize) -> usize {
    match row.doors().get(at) {
        Some(door) => match door.came() {
            [back] => back.note.exchanges.len(),
            _ => 0,
        },
        None => 0,
    }
}

fn is_served_apart<R: Threads + Wait + SystemClock + Sync>(
    rt: &R,
    alloc: Global,
) -> Result<bool, Memory> {
    let mut doors = Sequence::new(alloc);
    doors.push(door(alloc, &[PUT_A, FEED_D1], None)?)?;
    doors.push(door(alloc, &[PUT_B, FEED_D2], None)?)?;
    let mut row = row_of(alloc, doors)?;
    let gate = gate_for(10_000_000);
    let words = "serve --port 8983 --workers 2 --runners 1 c=1 ck=1 d1=1 d2=1";
    let status = serve(rt, alloc, words, &mut row, "", &gate)?;
    let both = exchanges(&row, 0) == 2 && exchanges(&row, 1) == 2;
    Ok(status == Some(0) && met(&gate) && both && row.ended().is_some())
}

#[test]
fn serve_apart(rt: HostRuntime) -> Result<(), Fail> {
    assert!(rt; is_served_apart(&rt, rt.alloc())?);
    Ok(())
}

const PUT_1: &str =
    "POST /solr/c/update?commit=true HTTP/1.1\r\nContent-Length: 12\r\n\r\n[{\"id\":\"1\"}]";

const DAEMON: &str =
    "GET /solr/c/stream?expr=daemon(id%3Dx,update(d1,topic(ck,c,id%3Dt1,q%3D%22*:*%22,fl%3Did,\
     initialCheckpoint%3D0))) HTTP/1.1\r\n\r\n";

// Whether the entry is the delivery of id 1 by the pass with this number.
fn is_sent(entry: &Entry, by: u64) -> bool {
    match &entry.kind {
        Kind::Sent {
            src,
            version,
            document,
        } => { entry.by == by && src.as_str() == "c" && *version == 1 && id_of(document) == "1" }
        Kind::Put(_) | Kind::Del(_) | Kind::Mark => false,
    }
}

// Whether the history is that delivery and a Mark, both by the pass with this number.
fn is_delivered(history: Option<&Step>, by: u64) -> bool {
    match history {
        Some(history) => match history.as_slice() {
            [sent, mark] => {
                is_sent(sent, by) && mark.by == by && matches!(mark.kind, Kind::Mark)
            }
            _ => false,
        },
        None => false,
    }
}

// Whether the runner delivered to d1 and the worker to d2, whose shards have the third and the
// fourth cell.
fn have_both(row: &DoorRow<TestDoor>) -> bool {
    match row.ended() {
        Some(ended) => is_delivered(ended.shards.get(2), 2) && is_delivered(ended.shards.get(3), 1),
        None => false,
    }
}

fn is_daemon_run<R: Threads + Wait + SystemClock + Sync>(
    rt: &R,
    alloc: Global,
) -> Result<bool, Memory> {
    let mut doors = Sequence::new(alloc);
    doors.push(door(alloc, &[PUT_1, DAEMON, FEED_D2], None)?)?;
    let mut row = row_of(alloc, doors)?;
    let gate = gate_for(1_000_000_000);
    let words = "serve --port 8983 --workers 1 --runners 1 c=1 ck=1 d1=1 d2=1";
    let status = serve(rt, alloc, words, &mut row, "", &gate)?;
    Ok(status == Some(0) && met(&gate) && have_both(&row))
}

#[test]
fn serve_daemon(rt: HostRuntime) -> Result<(), Fail> {
    assert!(rt; is_daemon_run(&rt, rt.alloc())?);
    Ok(())
}

// Whether a door that fails once gives status 1 and its line, after its connection was served.
fn is_failure_told<R: Threads + Wait + SystemClock + Sync>(
    rt: &R,
    alloc: Global,
) -> Result<bool, Memory> {
    let mut doors = Sequence::new(alloc);
    doors.push(door(alloc, &[PUT_1], Some(0))?)?;
    let mut row = row_of(alloc, doors)?;
    let words = "serve --workers 1 c=1";
    let status = serve(rt, alloc, words, &mut row, "fault: doors\n", &NoGate)?;
    let first = came(row.doors().get(0), 1, &[UPDATED]);
    Ok(status == Some(1) && first && row.ended().is_some())
}

#[test]
fn a_door_that_fails_is_told(rt: HostRuntime) -> Result<(), Fail> {
    assert!(rt; is_failure_told(&rt, rt.alloc())?);
    Ok(())
}

// Whether these words are refused, and the row is as it was.
fn is_refused<R: Threads + Wait + SystemClock + Sync>(
    rt: &R,
    alloc: Global,
    words: &str,
) -> Result<bool, Memory> {
    let mut row = row_of(alloc, Sequence::new(alloc))?;
    let status = serve(rt, alloc, words, &mut row, "words refused\n", &NoGate)?;
    Ok(status == Some(2) && row.ended().is_none() && row.doors().len() == 16)
}

#[test]
fn a_server_without_a_collection_is_refused(rt: HostRuntime) -> Result<(), Fail> {
    assert!(rt; is_refused(&rt, rt.alloc(), "serve")?);
    assert!(rt; is_refused(&rt, rt.alloc(), "serve --workers 17 c=1")?);
    Ok(())
}
