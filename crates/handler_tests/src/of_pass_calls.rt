// Tests of pass_calls: a door whose connections are served by one pass, one after another.
use crate::joining::{is_joined, joined};
use crate::of_stream_handler::alone;
use crate::samples::{FOUND, SEARCH, UPDATE, UPDATED};
use daemon_board::Board;
use io_edge::{MemorySink, MemorySource, NoGate};
use pass_calls::{DoorEnd, serve_door};
use server_edge::{Back, Connection, MemoryDoor, NoClock};
use std::alloc::Global;
use std::collections::VecDeque;
use std::sync::Wait;
use std::test::Fail;
use std::thread::Threads;
use stream_handler::{End, SessionEnd};
use tuple_values::{Memory, Numbers};

// A connection of these pieces, which are taken seven bytes at a time.
fn connection(alloc: Global, pieces: &[&str]) -> Result<Connection, Memory> {
    let none = Numbers::new(alloc);
    Ok(Connection {
        input: MemorySource::new(joined(alloc, pieces)?, 7, none),
        output: MemorySink::new(alloc, Numbers::new(alloc)),
    })
}

// A door of an update and of a search behind it, which fails once between them.
fn door_of_two(alloc: Global) -> Result<MemoryDoor<SessionEnd>, Memory> {
    let mut waiting = VecDeque::new(alloc);
    waiting.push_back(connection(alloc, &[UPDATE])?)?;
    waiting.push_back(connection(alloc, &[SEARCH])?)?;
    let mut failing = Numbers::new(alloc);
    failing.push(1)?;
    MemoryDoor::new(alloc, waiting, Numbers::new(alloc), failing)
}

// How the door is served by the only pass of a new site.
fn serve<R: Threads + Wait + Sync>(
    rt: &R,
    alloc: Global,
    door: &mut MemoryDoor<SessionEnd>,
) -> Result<DoorEnd, Memory> {
    let (site, mut pass) = alone(alloc)?;
    let mut board = Board::empty(alloc);
    Ok(serve_door(
        rt, alloc, &site, &mut pass, &mut board, door, 8983, &NoClock, &NoGate,
    ))
}

// Whether the connection ended so, with one exchange and this reply.
fn came(back: &Back<MemorySource, MemorySink, SessionEnd>, end: End, reply: &str) -> bool {
    back.note.end == end
        && back.note.exchanges.len() == 1
        && is_joined(back.output.bytes(), &[reply])
}

// Whether the update was answered, and the search behind it found what it wrote.
fn came_rightly(door: &MemoryDoor<SessionEnd>) -> bool {
    match door.came() {
        [first, second] => { came(first, End::Ended, UPDATED) && came(second, End::Closed, FOUND) }
        _ => false,
    }
}

fn is_served<R: Threads + Wait + Sync>(rt: &R, alloc: Global) -> Result<bool, Memory> {
    let mut door = door_of_two(alloc)?;
    let end = serve(rt, alloc, &mut door)?;
    Ok(end == DoorEnd::Closed && came_rightly(&door))
}

#[test]
fn a_door_is_served_until_none_is_left(rt: HostRuntime) -> Result<(), Fail> {
    assert!(rt; is_served(&rt, rt.alloc())?);
    Ok(())
}
