// Runs of a script: the whole one, those of which a read or a write fails, and those whose input is
// cut.
use crate::door_faults::{closed_row, source_of};
use crate::faults::{Fault, Kind, NONE, failing};
use crate::session::{Session, Talk};
use crate::tables::{MOST_RUNS, Shown, Table};
use io_edge::{MemorySink, MemorySource, NoGate};
use server_edge::NoClock;
use std::alloc::Global;
use std::sync::Wait;
use std::thread::Threads;
use std::time::Clock as SystemClock;
use stream_commands::run_words;
use tuple_values::{Memory, Numbers, Words};

// What a run left.
#[derive(Drop)]
struct Ran {
    status: u8,
    output: MemorySink,
    errors: MemorySink,
}

fn not_ran(alloc: Global, fault: Fault) -> Result<Ran, Memory> {
    let puts = failing(alloc, fault, Kind::Put, 0)?;
    Ok(Ran {
        status: 0,
        output: MemorySink::new(alloc, puts),
        errors: MemorySink::new(alloc, Numbers::new(alloc)),
    })
}

fn run<R: Threads + Wait + SystemClock + Sync>(
    rt: &R,
    alloc: Global,
    words: &Words,
    input: &mut MemorySource,
    ran: &mut Ran,
) -> Result<(), Memory> {
    let mut row = closed_row(alloc)?;
    ran.status = run_words(
        rt,
        alloc,
        words,
        input,
        &mut ran.output,
        &mut ran.errors,
        &mut row,
        &NoClock,
        &NoGate,
    );
    Ok(())
}

// What the command leaves of these bytes, of which at most so many come at once; this call fails.
fn run_over<R: Threads + Wait + SystemClock + Sync>(
    rt: &R,
    alloc: Global,
    words: &Words,
    bytes: &[u8],
    most: usize,
    fault: Fault,
) -> Result<Ran, Memory> {
    let takes = failing(alloc, fault, Kind::Take, 0)?;
    let mut input = source_of(alloc, bytes, most, takes)?;
    let mut ran = not_ran(alloc, fault)?;
    run(rt, alloc, words, &mut input, &mut ran)?;
    Ok(ran)
}

// Whether a run ended with this status and this line, and has written a first part of the whole.
fn is_ended(ran: &Ran, whole: &Ran, status: u8, line: &[u8]) -> bool {
    ran.status == status
        && ran.errors.bytes() == line
        && whole.output.bytes().starts_with(ran.output.bytes())
}

// Whether a run left the same as the whole one.
fn is_same(ran: &Ran, whole: &Ran) -> bool {
    ran.status == whole.status
        && ran.errors.bytes() == whole.errors.bytes()
        && ran.output.bytes() == whole.output.bytes()
}

fn shown(ran: &Ran, is_so: bool) -> Shown {
    Shown {
        status: ran.status,
        is_so,
        written: ran.output.bytes().len() as u64,
    }
}

// The line that tells of such a fault.
fn line_of(kind: Kind) -> &'static [u8] {
    match kind {
        Kind::Take => b"fault: input\n",
        _ => b"fault: output\n",
    }
}

// Adds a run to the table, unless it is the same as the whole one; whether it isn't.
fn add_failed(
    alloc: Global,
    ran: &Ran,
    whole: &Ran,
    kind: Kind,
    table: &mut Table,
) -> Result<bool, Memory> {
    if is_same(ran, whole) {
        return Ok(false);
    }
    table.add(alloc, shown(ran, is_ended(ran, whole, 1, line_of(kind))))?;
    Ok(true)
}

// One run of which this call fails, if it is made; whether it was.
fn fail_one<R: Threads + Wait + SystemClock + Sync>(
    rt: &R,
    alloc: Global,
    words: &Words,
    talk: &Talk,
    most: usize,
    fault: Fault,
    whole: &Ran,
    table: &mut Table,
) -> Result<bool, Memory> {
    let ran = run_over(rt, alloc, words, talk.bytes.as_slice(), most, fault)?;
    add_failed(alloc, &ran, whole, fault.kind, table)
}

// The runs of which one call fails after another, until a run makes none that fails.
fn fail_each<R: Threads + Wait + SystemClock + Sync>(
    rt: &R,
    alloc: Global,
    words: &Words,
    talk: &Talk,
    most: usize,
    kind: Kind,
    whole: &Ran,
    table: &mut Table,
) -> Result<(), Memory> {
    for call in 0..MOST_RUNS {
        let fault = Fault {
            kind,
            place: 0,
            call,
            times: 1,
        };
        if !fail_one(rt, alloc, words, talk, most, fault, whole, table)? {
            return Ok(());
        }
    }
    Ok(())
}

// Whether a run over so many first bytes ended so: with 0 between two messages, with 5 inside one.
fn is_cut_so(ran: &Ran, whole: &Ran, talk: &Talk, count: usize) -> bool {
    if talk.is_between(count as u64) {
        is_ended(ran, whole, 0, b"")
    } else {
        is_ended(ran, whole, 5, b"input cut\n")
    }
}

// So many first bytes.
fn first_of(bytes: &[u8], count: usize) -> &[u8] {
    if count < bytes.len() {
        &bytes[..count]
    } else {
        bytes
    }
}

// One run over so many first bytes.
fn cut_one<R: Threads + Wait + SystemClock + Sync>(
    rt: &R,
    alloc: Global,
    words: &Words,
    talk: &Talk,
    most: usize,
    count: usize,
    whole: &Ran,
    table: &mut Table,
) -> Result<(), Memory> {
    let first = first_of(talk.bytes.as_slice(), count);
    let ran = run_over(rt, alloc, words, first, most, NONE)?;
    table.add(alloc, shown(&ran, is_cut_so(&ran, whole, talk, count)))
}

// The runs over each number of first bytes, from none to all.
fn cut_each<R: Threads + Wait + SystemClock + Sync>(
    rt: &R,
    alloc: Global,
    words: &Words,
    talk: &Talk,
    most: usize,
    whole: &Ran,
    table: &mut Table,
) -> Result<(), Memory> {
    for count in 0..=talk.bytes.len() {
        cut_one(rt, alloc, words, talk, most, count, whole, table)?;
    }
    Ok(())
}

// Adds the words of a text, with a blank before each.
fn push_words(text: &mut String, bytes: &[u8]) -> Result<(), Memory> {
    let Ok(words) = str::from_utf8(bytes) else {
        return Ok(text.push_str(" no text")?);
    };
    for word in words.split_whitespace() {
        text.push_str(" ")?;
        text.push_str(word)?;
    }
    Ok(())
}

// The status of a run, how many bytes are written, its line, and what is written.
fn told(alloc: Global, ran: &Ran) -> Result<String, Memory> {
    let (status, written) = (ran.status, ran.output.bytes().len());
    let mut text = format!(in alloc; "status {status} written {written}")?;
    push_words(&mut text, ran.errors.bytes())?;
    push_words(&mut text, ran.output.bytes())?;
    Ok(text)
}

// The table of the runs of which a call of this kind fails.
fn failed<R: Threads + Wait + SystemClock + Sync>(
    rt: &R,
    alloc: Global,
    words: &Words,
    talk: &Talk,
    most: usize,
    kind: Kind,
    whole: &Ran,
) -> Result<String, Memory> {
    let mut table = Table::empty(alloc);
    fail_each(rt, alloc, words, talk, most, kind, whole, &mut table)?;
    table.told(alloc)
}

// The table of the runs whose input is cut.
fn cut<R: Threads + Wait + SystemClock + Sync>(
    rt: &R,
    alloc: Global,
    words: &Words,
    talk: &Talk,
    most: usize,
    whole: &Ran,
) -> Result<String, Memory> {
    let mut table = Table::empty(alloc);
    cut_each(rt, alloc, words, talk, most, whole, &mut table)?;
    table.told(alloc)
}

/// What is asked of a script.
#[derive(Clone, Copy)]
pub enum Asked {
    /// The whole run.
    Run,
    /// The runs of which each call of this kind fails.
    Fail(Kind),
    /// The runs over each number of first bytes.
    Cut,
}

// What is asked of the client's script.
fn ask<R: Threads + Wait + SystemClock + Sync>(
    rt: &R,
    alloc: Global,
    words: &Words,
    talk: &Talk,
    most: usize,
    asked: Asked,
) -> Result<String, Memory> {
    let whole = run_over(rt, alloc, words, talk.bytes.as_slice(), most, NONE)?;
    match asked {
        Asked::Run => told(alloc, &whole),
        Asked::Fail(kind) => failed(rt, alloc, words, talk, most, kind, &whole),
        Asked::Cut => cut(rt, alloc, words, talk, most, &whole),
    }
}

/// What is asked of the session's script, whose input comes in pieces of at most so many bytes.
pub fn script_told<R: Threads + Wait + SystemClock + Sync>(
    rt: &R,
    alloc: Global,
    session: &Session,
    most: usize,
    asked: Asked,
) -> Result<String, Memory> {
    match session.talks.first() {
        Some(talk) => ask(rt, alloc, &session.words, talk, most, asked),
        None => Ok(String::from_str(alloc, "no client")?),
    }
}
