// Tests of opening a file again after an append that failed.
use crate::logs::{ONE, TWO, disk, mark};
use commit_log::{Log, StepRef};
use disk_edge::{DiskFailed, MemoryDisk};
use std::alloc::Global;
use std::test::Fail;

// Appends a Mark to the file of one step, and opens the file again where that failed; the answer of
// the reopening, and the disk after it.
fn reopened(
    alloc: Global,
    failing: &[u64],
) -> Result<(Option<Result<bool, DiskFailed>>, MemoryDisk), Fail> {
    let step = mark(alloc, 6)?;
    match Log::attach(alloc, disk(alloc, &ONE, failing)?) {
        Ok(attached) => {
            let mut log = attached.log;
            let spelled = log.spell(alloc, StepRef::Shard(&step))?;
            let answer = match log.append(&spelled) {
                Err(DiskFailed) => Some(log.reopen()),
                Ok(()) => None,
            };
            Ok((answer, log.into_disk()))
        }
        Err(refused) => Err(refused.fault)?,
    }
}

// Whether the reopening answers so, and the file is then this one.
fn settles(alloc: Global, failing: &[u64], stands: bool, want: &[u8]) -> Result<bool, Fail> {
    let (answer, disk) = reopened(alloc, failing)?;
    Ok(answer == Some(Ok(stands)) && disk.bytes() == want)
}

// The calls 5 to 8 are those of the append: write, sync, write and sync.
#[test]
fn the_step_stands_where_its_byte_was_written(rt: HostRuntime) -> Result<(), Fail> {
    let alloc = rt.alloc();
    assert!(rt; settles(alloc, &[5], false, &ONE)?);
    assert!(rt; settles(alloc, &[6], false, &ONE)?);
    assert!(rt; settles(alloc, &[7], false, &ONE)?);
    assert!(rt; settles(alloc, &[8], true, &TWO)?);
    Ok(())
}

// Whether the reopening fails, and the file, opened anew, has this number of steps.
fn shuts(alloc: Global, failing: &[u64], steps: usize) -> Result<bool, Fail> {
    let (answer, disk) = reopened(alloc, failing)?;
    match Log::attach(alloc, disk) {
        Ok(attached) => Ok(answer == Some(Err(DiskFailed)) && attached.history.len() == steps),
        Err(_) => Ok(false),
    }
}

// Behind a write that failed, call 5, a reopening makes four calls: sync, read, cut and sync.
#[test]
fn each_call_of_a_reopening_fails_in_turn(rt: HostRuntime) -> Result<(), Fail> {
    let alloc = rt.alloc();
    for failing in 6..10 {
        assert!(rt; shuts(alloc, &[5, failing], 1)?, "call {failing}");
    }
    assert!(rt; settles(alloc, &[5, 10], false, &ONE)?);
    Ok(())
}

// Behind the last sync of an append, call 8, it makes three: sync, read and sync.
#[test]
fn each_call_of_a_reopening_with_the_step_fails_in_turn(rt: HostRuntime) -> Result<(), Fail> {
    let alloc = rt.alloc();
    for failing in 9..12 {
        assert!(rt; shuts(alloc, &[8, failing], 2)?, "call {failing}");
    }
    assert!(rt; settles(alloc, &[8, 12], true, &TWO)?);
    Ok(())
}
