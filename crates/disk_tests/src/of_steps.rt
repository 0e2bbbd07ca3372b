// Bodies of steps.
use crate::entries::store;
use exchange_rules::LogEntry;
use log_codec::{
    LogStep, LogSteps, StepRef, book_bytes, entry_bytes, holds_group, holds_no_group, read_step,
    step_bytes,
};
use shard_versions::{Entry, Step};
use std::alloc::Global;
use tuple_values::{Bytes, Memory, Text};

// A Mark by 1, a Store by 2 of no versions, and a Del by 3 of `a`.
const BODY: &[u8] = b"\0\0\0\0\0\0\0\x03\x04\0\0\0\0\0\0\0\x01\
\x06\0\0\0\0\0\0\0\x02\0\0\0\0\0\0\0\x02ck\0\0\0\0\0\0\0\x01t\0\0\0\0\0\0\0\0\
\x02\0\0\0\0\0\0\0\x03\0\0\0\0\0\0\0\x01a";

// Of these the Mark and the Del.
const SHARD_BODY: &[u8] = b"\0\0\0\0\0\0\0\x02\x04\0\0\0\0\0\0\0\x01\
\x02\0\0\0\0\0\0\0\x03\0\0\0\0\0\0\0\x01a";

// And the Store.
const BOOK_BODY: &[u8] = b"\0\0\0\0\0\0\0\x01\
\x06\0\0\0\0\0\0\0\x02\0\0\0\0\0\0\0\x02ck\0\0\0\0\0\0\0\x01t\0\0\0\0\0\0\0\0";

fn push_entries(alloc: Global, step: &mut Step) -> Result<(), Memory> {
    step.push(Entry::mark(1))?;
    step.push(Entry::del(3, Text::of(alloc, "a")?))
}

fn step(alloc: Global) -> Result<Step, Memory> {
    let mut step = Step::new(alloc);
    push_entries(alloc, &mut step)?;
    Ok(step)
}

fn writes(alloc: Global, step: StepRef, want: &[u8]) -> bool {
    if !holds_no_group(step) {
        return false;
    }
    match step_bytes(alloc, step) {
        Ok(bytes) => bytes.as_slice() == want,
        Err(_) => false,
    }
}

fn writes_step(alloc: Global) -> bool {
    match step(alloc) {
        Ok(step) => writes(alloc, StepRef::Shard(&step), SHARD_BODY),
        Err(_) => false,
    }
}

fn writes_store(alloc: Global) -> bool {
    match store(alloc) {
        Ok(entry) => writes(alloc, StepRef::Book(&entry), BOOK_BODY),
        Err(_) => false,
    }
}

fn writes_nothing(alloc: Global) -> bool {
    let step = Step::new(alloc);
    writes(alloc, StepRef::Shard(&step), b"\0\0\0\0\0\0\0\0")
}

// Adds the entry's bytes. Answers whether it has any.
fn add_entry(alloc: Global, bytes: &mut Bytes, entry: &LogEntry) -> Result<bool, Memory> {
    match entry {
        LogEntry::Shard(entry) => {
            if holds_group(entry) {
                return Ok(false);
            }
            bytes.extend(entry_bytes(alloc, entry)?.as_slice())?;
        }
        LogEntry::Book(entry) => bytes.extend(book_bytes(alloc, entry)?.as_slice())?,
    }
    Ok(true)
}

// Whether the entries have these bytes, one after another.
fn are_written(alloc: Global, step: &LogStep, want: &[u8]) -> Result<bool, Memory> {
    let mut bytes = Bytes::new(alloc);
    for entry in step.as_slice() {
        if !add_entry(alloc, &mut bytes, entry)? {
            return Ok(false);
        }
    }
    Ok(bytes.as_slice() == want)
}

// Whether a step of so many entries is read, and they have the bytes behind their number.
fn reads(alloc: Global, body: &[u8], count: usize) -> bool {
    if body.len() < 8 {
        return false;
    }
    match read_step(alloc, body) {
        Ok(Some(step)) => {
            step.len() == count && are_written(alloc, &step, &body[8..]) == Ok(true)
        }
        _ => false,
    }
}

fn refuses(alloc: Global, body: &[u8]) -> bool {
    matches!(read_step(alloc, body), Ok(None))
}

#[test]
fn a_step_is_its_entries_behind_their_number(rt: HostRuntime) {
    assert!(rt; writes_step(rt.alloc()));
    assert!(rt; writes_store(rt.alloc()));
    assert!(rt; reads(rt.alloc(), SHARD_BODY, 2));
    assert!(rt; reads(rt.alloc(), BOOK_BODY, 1));
    assert!(rt; reads(rt.alloc(), BODY, 3));
}

#[test]
fn a_step_may_have_no_entry(rt: HostRuntime) {
    assert!(rt; writes_nothing(rt.alloc()));
    assert!(rt; reads(rt.alloc(), b"\0\0\0\0\0\0\0\0", 0));
}

#[test]
fn a_body_is_its_entries_and_nothing_besides(rt: HostRuntime) {
    assert!(rt; refuses(rt.alloc(), b""));
    assert!(rt; refuses(rt.alloc(), b"\0\0\0\0\0\0\0\0\0"), "a byte more");
    assert!(rt; refuses(rt.alloc(), b"\0\0\0\0\0\0\0\x01"), "an entry less");
    assert!(rt;
        refuses(rt.alloc(), b"\0\0\0\0\0\0\0\x01\x07\0\0\0\0\0\0\0\0"),
        "another kind"
    );
    assert!(rt; refuses(rt.alloc(), &BODY[..70]), "the last byte cut off");
}

fn steps(alloc: Global) -> Result<LogSteps, Memory> {
    let mut steps = LogSteps::new(alloc);
    steps.push(LogStep::new(alloc))?;
    Ok(steps)
}

#[test]
fn steps_are_a_list(rt: HostRuntime) -> Result<(), Memory> {
    let steps = steps(rt.alloc())?;
    assert_eq!(rt; steps.len(), 1);
    Ok(())
}
