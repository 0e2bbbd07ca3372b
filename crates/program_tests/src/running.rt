// Runs in memory, and what they are compared with.
use handler_tests::joining::{is_joined, joined, numbers_of, source};
use io_edge::{Gate, MemorySink, MemorySource, NoGate};
use server_edge::{MemoryDoor, NoClock};
use std::alloc::Global;
use std::collections::VecDeque;
use std::sync::Wait;
use std::thread::Threads;
use std::time::Clock as SystemClock;
use stream_commands::{DOORS, DoorRow, run_words};
use stream_handler::SessionEnd;
use tuple_values::{Bytes, Memory, Numbers, Sequence, Text, Words};

/// What a run left.
#[derive(Drop)]
pub(crate) struct Ran {
    pub(crate) status: u8,
    pub(crate) output: MemorySink,
    pub(crate) errors: MemorySink,
}

/// Which call of input or output is to fail, counted from 0.
#[derive(Clone, Copy)]
pub(crate) enum Failing {
    Nothing,
    Input(u64),
    Output(u64),
}

// The call of input that is to fail, and that of output.
fn calls_of(failing: Failing) -> (Option<u64>, Option<u64>) {
    match failing {
        Failing::Nothing => (None, None),
        Failing::Input(call) => (Some(call), None),
        Failing::Output(call) => (None, Some(call)),
    }
}

fn add_words(alloc: Global, list: &mut Words, words: &str) -> Result<(), Memory> {
    for word in words.split_whitespace() {
        list.push(Text::of(alloc, word)?)?;
    }
    Ok(())
}

/// Words, with a space between each and the next.
pub(crate) fn words_of(alloc: Global, words: &str) -> Result<Words, Memory> {
    let mut list = Words::new(alloc);
    add_words(alloc, &mut list, words)?;
    Ok(list)
}

fn not_ran(alloc: Global, failing: Option<u64>) -> Result<Ran, Memory> {
    let calls = numbers_of(alloc, failing)?;
    Ok(Ran {
        status: 0,
        output: MemorySink::new(alloc, calls),
        errors: MemorySink::new(alloc, Numbers::new(alloc)),
    })
}

/// A door in memory.
pub(crate) type TestDoor = MemoryDoor<SessionEnd>;

/// A door without a connection.
pub(crate) fn closed_door(alloc: Global) -> Result<TestDoor, Memory> {
    let none = VecDeque::new(alloc);
    MemoryDoor::new(alloc, none, Numbers::new(alloc), Numbers::new(alloc))
}

/// A row of these doors and of others without a connection behind them.
pub(crate) fn row_of(
    alloc: Global,
    doors: Sequence<TestDoor>,
) -> Result<DoorRow<TestDoor>, Memory> {
    let mut doors = doors;
    for _ in doors.len()..DOORS {
        doors.push(closed_door(alloc)?)?;
    }
    DoorRow::of(doors).ok_or(Memory::OutOfMemory)
}

fn run<R: Threads + Wait + SystemClock + Sync, G: Gate>(
    rt: &R,
    alloc: Global,
    words: &str,
    input: &mut MemorySource,
    ran: &mut Ran,
    gate: &G,
) -> Result<(), Memory> {
    let words = words_of(alloc, words)?;
    let mut row = row_of(alloc, Sequence::new(alloc))?;
    ran.status = run_words(
        rt,
        alloc,
        &words,
        input,
        &mut ran.output,
        &mut ran.errors,
        &mut row,
        &NoClock,
        gate,
    );
    Ok(())
}

/// What the command of these words leaves; this call of output fails.
pub(crate) fn a_run<R: Threads + Wait + SystemClock + Sync, G: Gate>(
    rt: &R,
    alloc: Global,
    words: &str,
    input: &mut MemorySource,
    failing: Option<u64>,
    gate: &G,
) -> Result<Ran, Memory> {
    let mut ran = not_ran(alloc, failing)?;
    run(rt, alloc, words, input, &mut ran, gate)?;
    Ok(ran)
}

/// What a run is to leave: its status, the pieces of its output, and its errors.
#[derive(Clone, Copy)]
pub(crate) struct Wanted<'a> {
    pub(crate) status: u8,
    pub(crate) output: &'a [&'a str],
    pub(crate) errors: &'a str,
}

/// Whether a run left what is wanted.
pub(crate) fn is_so(ran: &Ran, wanted: Wanted) -> bool {
    ran.status == wanted.status
        && is_joined(ran.output.bytes(), wanted.output)
        && ran.errors.bytes() == wanted.errors.as_bytes()
}

/// Whether a command leaves what is wanted of this input.
pub(crate) fn leaves<R: Threads + Wait + SystemClock + Sync>(
    rt: &R,
    alloc: Global,
    words: &str,
    input: Bytes,
    wanted: Wanted,
) -> Result<bool, Memory> {
    let mut input = source(alloc, input, None)?;
    let ran = a_run(rt, alloc, words, &mut input, None, &NoGate)?;
    Ok(is_so(&ran, wanted))
}

/// Whether a script answers these requests so.
pub(crate) fn answers<R: Threads + Wait + SystemClock + Sync>(
    rt: &R,
    alloc: Global,
    words: &str,
    requests: &[&str],
    wanted: Wanted,
) -> Result<bool, Memory> {
    leaves(rt, alloc, words, joined(alloc, requests)?, wanted)
}

/// Whether a command ends with this line, and no output, where this call fails.
pub(crate) fn fails<R: Threads + Wait + SystemClock + Sync>(
    rt: &R,
    alloc: Global,
    words: &str,
    input: &str,
    failing: Failing,
    errors: &str,
) -> Result<bool, Memory> {
    let (reads, writes) = calls_of(failing);
    let mut input = source(alloc, joined(alloc, &[input])?, reads)?;
    let ran = a_run(rt, alloc, words, &mut input, writes, &NoGate)?;
    let wanted = Wanted {
        status: 1,
        output: &[],
        errors,
    };
    Ok(is_so(&ran, wanted))
}
