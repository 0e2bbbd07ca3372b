// Tests of appending steps.
ghost use Rattle.log_codec.specs.Steps.{entries_in, HoldsNoGroup};

use crate::entries::store;
use crate::logs::{BOOK, NEW, ONE, TORN, TWO, disk, mark};
use commit_log::{Log, StepRef};
use disk_edge::{DiskFailed, MemoryDisk};
use std::alloc::Global;
use std::test::Fail;

// Appends a step to the file; the answer, and the bytes after it.
fn appended(
    alloc: Global,
    bytes: &[u8],
    step: StepRef,
    failing: &[u64],
) -> Result<(Result<(), DiskFailed>, MemoryDisk), Fail>
    requires { HoldsNoGroup (entries_in step) }
{
    match Log::attach(alloc, disk(alloc, bytes, failing)?) {
        Ok(attached) => {
            let mut log = attached.log;
            let spelled = log.spell(alloc, step)?;
            let answer = log.append(&spelled);
            Ok((answer, log.into_disk()))
        }
        Err(refused) => Err(refused.fault)?,
    }
}

// The same of a Mark of this writer.
fn appended_mark(
    alloc: Global,
    bytes: &[u8],
    by: u64,
    failing: &[u64],
) -> Result<(Result<(), DiskFailed>, MemoryDisk), Fail> {
    let step = mark(alloc, by)?;
    appended(alloc, bytes, StepRef::Shard(&step), failing)
}

fn becomes(alloc: Global, bytes: &[u8], by: u64, want: &[u8]) -> Result<bool, Fail> {
    let (answer, disk) = appended_mark(alloc, bytes, by, &[])?;
    Ok(answer == Ok(()) && disk.bytes() == want)
}

#[test]
fn a_step_follows_those_before(rt: HostRuntime) -> Result<(), Fail> {
    let alloc = rt.alloc();
    assert!(rt; becomes(alloc, &[], 5, &ONE)?);
    assert!(rt; becomes(alloc, &NEW, 5, &ONE)?);
    assert!(rt; becomes(alloc, &ONE, 6, &TWO)?);
    assert!(rt; becomes(alloc, &TORN, 6, &TWO)?);
    Ok(())
}

#[test]
fn an_entry_of_the_book_is_a_step(rt: HostRuntime) -> Result<(), Fail> {
    let alloc = rt.alloc();
    let entry = store(alloc)?;
    let (answer, disk) = appended(alloc, &NEW, StepRef::Book(&entry), &[])?;
    assert_eq!(rt; answer, Ok(()));
    assert!(rt; disk.bytes() == BOOK.as_slice());
    Ok(())
}

// An opening makes five calls, and an append four: write, sync, write and sync.
#[test]
fn each_call_of_an_append_fails_in_turn(rt: HostRuntime) -> Result<(), Fail> {
    let alloc = rt.alloc();
    for failing in 5..9 {
        let answer = appended_mark(alloc, &ONE, 6, &[failing])?.0;
        assert_eq!(rt; answer, Err(DiskFailed), "call {failing}");
    }
    assert_eq!(rt; appended_mark(alloc, &ONE, 6, &[9])?.0, Ok(()));
    Ok(())
}
