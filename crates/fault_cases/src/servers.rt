// Runs of a server over doors in memory: the whole one, and those of which a call fails.
use crate::door_faults::{Door, OPEN, open_row, source_of};
use crate::faults::{Fault, Kind, NONE};
use crate::session::Session;
use crate::tables::{MOST_RUNS, Shown, Table};
use io_edge::{MemorySink, MemorySource, NoGate};
use server_edge::{Back, NoClock};
use std::alloc::Global;
use std::sync::Wait;
use std::thread::Threads;
use std::time::Clock as SystemClock;
use stream_commands::{DoorRow, run_words};
use stream_handler::{End, SessionEnd};
use tuple_values::{Memory, Numbers, Words};

// What a server left.
#[derive(Drop)]
struct Served {
    status: u8,
    row: DoorRow<Door>,
    output: MemorySink,
    errors: MemorySink,
}

// The ends of a client that came back, and the note on it.
type Came = Back<MemorySource, MemorySink, SessionEnd>;

fn not_served(
    alloc: Global,
    session: &Session,
    most: usize,
    fault: Fault,
) -> Result<Served, Memory> {
    Ok(Served {
        status: 0,
        row: open_row(alloc, session.talks.as_slice(), most, fault)?,
        output: MemorySink::new(alloc, Numbers::new(alloc)),
        errors: MemorySink::new(alloc, Numbers::new(alloc)),
    })
}

// Serves; the input of the process stays unread.
fn serve<R: Threads + Wait + SystemClock + Sync>(
    rt: &R,
    alloc: Global,
    words: &Words,
    served: &mut Served,
) -> Result<(), Memory> {
    let mut input = source_of(alloc, b"unread", 1, Numbers::new(alloc))?;
    served.status = run_words(
        rt,
        alloc,
        words,
        &mut input,
        &mut served.output,
        &mut served.errors,
        &mut served.row,
        &NoClock,
        &NoGate,
    );
    Ok(())
}

// What the server of the session leaves, whose clients write in pieces of at most so many bytes.
fn serve_over<R: Threads + Wait + SystemClock + Sync>(
    rt: &R,
    alloc: Global,
    session: &Session,
    most: usize,
    fault: Fault,
) -> Result<Served, Memory> {
    let mut served = not_served(alloc, session, most, fault)?;
    serve(rt, alloc, &session.words, &mut served)?;
    Ok(served)
}

// What came back of the client at this place.
fn came(served: &Served, place: usize) -> Option<&Came> {
    match served.row.doors().get(place % OPEN) {
        Some(door) => door.came().get(place / OPEN),
        None => None,
    }
}

// Whether the client came back served to this end, and was written a first part of the whole.
fn is_begun(served: &Served, whole: &Served, place: usize, end: End) -> bool {
    match (came(served, place), came(whole, place)) {
        (Some(back), Some(all)) => {
            back.note.end == end && all.output.bytes().starts_with(back.output.bytes())
        }
        _ => false,
    }
}

// Whether the client came back served to its end, and was written the whole.
fn is_whole(served: &Served, whole: &Served, place: usize) -> bool {
    match (came(served, place), came(whole, place)) {
        (Some(back), Some(all)) => {
            back.note.end == End::Ended && all.output.bytes() == back.output.bytes()
        }
        _ => false,
    }
}

// Whether a client is as it is to be at this fault: its own call failed, its door didn't listen, or
// it was served whole.
fn is_client_so(served: &Served, whole: &Served, fault: Fault, place: usize) -> bool {
    match fault.kind {
        Kind::Take if fault.place == place => is_begun(served, whole, place, End::ReadFault),
        Kind::Put if fault.place == place => is_begun(served, whole, place, End::WriteFault),
        Kind::Listen if fault.place == place % OPEN => came(served, place).is_none(),
        _ => is_whole(served, whole, place),
    }
}

// Whether so many clients are.
fn are_clients_so(served: &Served, whole: &Served, fault: Fault, count: usize) -> bool {
    for place in 0..count {
        if !is_client_so(served, whole, fault, place) {
            return false;
        }
    }
    true
}

// The status of such a fault and its line: that of a client is none of the process.
fn ending_of(kind: Kind) -> (u8, &'static [u8]) {
    match kind {
        Kind::Listen | Kind::Next => (1, b"fault: doors\n"),
        _ => (0, b""),
    }
}

// Whether a server ended so: with this status and line, nothing on output, and its site closed.
fn is_ended(served: &Served, kind: Kind) -> bool {
    let (status, line) = ending_of(kind);
    served.status == status
        && served.errors.bytes() == line
        && served.output.bytes().is_empty()
        && served.row.ended().is_some()
}

// Whether a server left what is to be left at this fault.
fn is_so(served: &Served, whole: &Served, fault: Fault, count: usize) -> bool {
    is_ended(served, fault.kind) && are_clients_so(served, whole, fault, count)
}

// How many bytes were written to a client.
fn written_to(served: &Served, place: usize) -> u64 {
    match came(served, place) {
        Some(back) => back.output.bytes().len() as u64,
        None => 0,
    }
}

// How many bytes were written to so many clients.
fn written(served: &Served, count: usize) -> u64 {
    let mut sum = 0u64;
    for place in 0..count {
        sum = sum.saturating_add(written_to(served, place));
    }
    sum
}

// Adds a server to the table, unless it left the same as the whole one; whether it didn't.
fn add_failed(
    alloc: Global,
    served: &Served,
    whole: &Served,
    fault: Fault,
    count: usize,
    table: &mut Table,
) -> Result<bool, Memory> {
    if is_so(served, whole, NONE, count) {
        return Ok(false);
    }
    let shown = Shown {
        status: served.status,
        is_so: is_so(served, whole, fault, count),
        written: written(served, count),
    };
    table.add(alloc, shown)?;
    Ok(true)
}

// One server of which this call fails, if it is made; whether it was.
fn fail_one<R: Threads + Wait + SystemClock + Sync>(
    rt: &R,
    alloc: Global,
    session: &Session,
    most: usize,
    fault: Fault,
    whole: &Served,
    table: &mut Table,
) -> Result<bool, Memory> {
    let served = serve_over(rt, alloc, session, most, fault)?;
    add_failed(alloc, &served, whole, fault, session.talks.len(), table)
}

// The servers of which one call after another fails, until none is made that fails.
fn fail_each<R: Threads + Wait + SystemClock + Sync>(
    rt: &R,
    alloc: Global,
    session: &Session,
    most: usize,
    kind: Kind,
    place: usize,
    whole: &Served,
    table: &mut Table,
) -> Result<(), Memory> {
    for call in 0..MOST_RUNS {
        let fault = Fault {
            kind,
            place,
            call,
            times: 1,
        };
        if !fail_one(rt, alloc, session, most, fault, whole, table)? {
            return Ok(());
        }
    }
    Ok(())
}

// The table of the servers of which a call of this kind fails.
fn failed<R: Threads + Wait + SystemClock + Sync>(
    rt: &R,
    alloc: Global,
    session: &Session,
    most: usize,
    kind: Kind,
    place: usize,
    whole: &Served,
) -> Result<String, Memory> {
    let mut table = Table::empty(alloc);
    fail_each(rt, alloc, session, most, kind, place, whole, &mut table)?;
    table.told(alloc)
}

// How the serving of a client ended.
fn end_of(served: &Served, place: usize) -> &'static str {
    match came(served, place) {
        Some(back) => match back.note.end {
            End::Ended => "ended",
            End::Closed => "closed",
            End::Cut { .. } => "cut",
            End::Refused { .. } => "refused",
            End::ReadFault | End::WriteFault => "failed",
            End::OutOfMemory => "starved",
        },
        None => "left",
    }
}

// Adds how the serving of each client ended, and how many bytes were written to it.
fn push_ends(
    alloc: Global,
    text: &mut String,
    served: &Served,
    count: usize,
) -> Result<(), Memory> {
    for place in 0..count {
        let (end, bytes) = (end_of(served, place), written_to(served, place));
        text.push_str(format!(in alloc; " {end} {bytes}")?.as_str())?;
    }
    Ok(())
}

// The status, and how each client was served.
fn told(alloc: Global, served: &Served, count: usize) -> Result<String, Memory> {
    let mut text = format!(in alloc; "status {}", served.status)?;
    push_ends(alloc, &mut text, served, count)?;
    Ok(text)
}

/// What the session's server leaves, where these calls fail.
pub fn run_told<R: Threads + Wait + SystemClock + Sync>(
    rt: &R,
    alloc: Global,
    session: &Session,
    most: usize,
    fault: Fault,
) -> Result<String, Memory> {
    let served = serve_over(rt, alloc, session, most, fault)?;
    told(alloc, &served, session.talks.len())
}

/// The table of the runs of the session's server of which a call of this kind fails, of the client
/// or the door at this place.
pub fn failed_told<R: Threads + Wait + SystemClock + Sync>(
    rt: &R,
    alloc: Global,
    session: &Session,
    most: usize,
    kind: Kind,
    place: usize,
) -> Result<String, Memory> {
    let whole = serve_over(rt, alloc, session, most, NONE)?;
    failed(rt, alloc, session, most, kind, place, &whole)
}
