// Rows of doors in memory, of which two have clients in turn.
ghost use Rattle.std.specs.Prelude.{◌<◌};

use crate::faults::{Fault, Kind, failing};
use crate::session::Talk;
use io_edge::{MemorySink, MemorySource};
use server_edge::{Connection, MemoryDoor};
use std::alloc::Global;
use std::collections::VecDeque;
use stream_commands::{DOORS, DoorRow};
use stream_handler::SessionEnd;
use tuple_values::{Bytes, Memory, Numbers, Sequence};

/// A door in memory.
pub type Door = MemoryDoor<SessionEnd>;

/// How many doors have clients.
pub const OPEN: usize = 2;

// How many bytes come at once: one at least.
fn piece(most: usize) -> usize
    ensures { 0 < result }
{
    if most == 0 { 1 } else { most }
}

/// An input of these bytes, of which at most so many come at once, with calls that fail.
pub fn source_of(
    alloc: Global,
    bytes: &[u8],
    most: usize,
    calls: Numbers,
) -> Result<MemorySource, Memory> {
    let mut copy = Bytes::new(alloc);
    copy.extend(bytes)?;
    Ok(MemorySource::new(copy, piece(most), calls))
}

// The connection of the client at this place.
fn connection(
    alloc: Global,
    talk: &Talk,
    most: usize,
    fault: Fault,
    place: usize,
) -> Result<Connection, Memory> {
    let takes = failing(alloc, fault, Kind::Take, place)?;
    let input = source_of(alloc, talk.bytes.as_slice(), most, takes)?;
    let puts = failing(alloc, fault, Kind::Put, place)?;
    Ok(Connection {
        input,
        output: MemorySink::new(alloc, puts),
    })
}

// The connections of a door, which has every second client.
fn connections(
    alloc: Global,
    talks: &[Talk],
    most: usize,
    fault: Fault,
    door: usize,
) -> Result<VecDeque<Connection>, Memory> {
    let mut waiting = VecDeque::new(alloc);
    for (place, talk) in talks.iter().enumerate() {
        if place % OPEN == door {
            waiting.push_back(connection(alloc, talk, most, fault, place)?)?;
        }
    }
    Ok(waiting)
}

// The door with this number, with its clients.
fn door(
    alloc: Global,
    talks: &[Talk],
    most: usize,
    fault: Fault,
    place: usize,
) -> Result<Door, Memory> {
    let listens = failing(alloc, fault, Kind::Listen, place)?;
    let nexts = failing(alloc, fault, Kind::Next, place)?;
    let waiting = connections(alloc, talks, most, fault, place)?;
    MemoryDoor::new(alloc, waiting, listens, nexts)
}

// Adds doors without a client until there are as many as a row has.
fn fill(alloc: Global, doors: &mut Sequence<Door>) -> Result<(), Memory> {
    for _ in doors.len()..DOORS {
        let none = VecDeque::new(alloc);
        let (listens, nexts) = (Numbers::new(alloc), Numbers::new(alloc));
        doors.push(MemoryDoor::new(alloc, none, listens, nexts)?)?;
    }
    Ok(())
}

// Adds the doors that have clients.
fn open(
    alloc: Global,
    doors: &mut Sequence<Door>,
    talks: &[Talk],
    most: usize,
    fault: Fault,
) -> Result<(), Memory> {
    for place in 0..OPEN {
        doors.push(door(alloc, talks, most, fault, place)?)?;
    }
    fill(alloc, doors)
}

/// A row whose first two doors have these clients in turn; this call of one of them fails.
pub fn open_row(
    alloc: Global,
    talks: &[Talk],
    most: usize,
    fault: Fault,
) -> Result<DoorRow<Door>, Memory> {
    let mut doors = Sequence::new(alloc);
    open(alloc, &mut doors, talks, most, fault)?;
    DoorRow::of(doors).ok_or(Memory::OutOfMemory)
}

/// A row without a client.
pub fn closed_row(alloc: Global) -> Result<DoorRow<Door>, Memory> {
    let mut doors = Sequence::new(alloc);
    fill(alloc, &mut doors)?;
    DoorRow::of(doors).ok_or(Memory::OutOfMemory)
}
