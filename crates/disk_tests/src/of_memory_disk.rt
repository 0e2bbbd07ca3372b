// Tests of the disk in memory, by contents worked by hand.
use crate::disks::{cuts, disk_of, reads, writes};
use disk_edge::{Disk, DiskFailed, MemoryDisk};
use std::alloc::Global;
use tuple_values::Memory;

fn holds(disk: &MemoryDisk, want: &str) -> bool {
    disk.bytes() == want.as_bytes()
}

fn writes_and_cuts(disk: &mut MemoryDisk) -> bool {
    writes(disk, 1, "xyz")
        && holds(disk, "axyz")
        && writes(disk, 4, "!")
        && holds(disk, "axyz!")
        && writes(disk, 0, "b")
        && holds(disk, "bxyz!")
        && cuts(disk, 3)
        && holds(disk, "bxy")
        && disk.sync().is_ok()
        && disk.size() == Ok(3)
        && reads(disk, 1, "xy")
        && disk.faults() == 0
}

fn writes_and_cuts_of(alloc: Global) -> Result<bool, Memory> {
    let mut disk = disk_of(alloc, "abc", 0, 0)?;
    Ok(writes_and_cuts(&mut disk))
}

#[test]
fn a_disk_in_memory_is_written_and_cut(rt: HostRuntime) {
    assert!(rt; matches!(writes_and_cuts_of(rt.alloc()), Ok(true)));
}

fn fails_at_each_kind(disk: &mut MemoryDisk) -> bool {
    disk.size() == Err(DiskFailed)
        && !reads(disk, 0, "abc")
        && !writes(disk, 1, "xyz")
        && !cuts(disk, 2)
        && disk.sync() == Err(DiskFailed)
        && holds(disk, "abc")
        && disk.faults() == 5
}

fn answers_at_each_kind(disk: &mut MemoryDisk) -> bool {
    disk.size() == Ok(3)
        && reads(disk, 0, "abc")
        && writes(disk, 1, "xyz")
        && cuts(disk, 2)
        && disk.sync() == Ok(())
        && holds(disk, "ax")
        && disk.faults() == 5
}

fn fails_where_it_is_to(alloc: Global) -> Result<bool, Memory> {
    let mut disk = disk_of(alloc, "abc", 0, 5)?;
    Ok(fails_at_each_kind(&mut disk) && answers_at_each_kind(&mut disk))
}

#[test]
fn calls_fail_where_they_are_to_and_change_nothing_that_is_read(rt: HostRuntime) {
    assert!(rt; matches!(fails_where_it_is_to(rt.alloc()), Ok(true)));
}

// Whether a stop after so many of the calls since the last sync, and so many bytes, leaves this.
fn leaves(disk: &MemoryDisk, alloc: Global, calls: u64, bytes: u64, want: &str) -> bool {
    match disk.left_by_stop(alloc, calls, bytes) {
        Ok(left) => left.as_slice() == want.as_bytes(),
        Err(_) => false,
    }
}

fn leaves_what_was_made(disk: &mut MemoryDisk, alloc: Global) -> bool {
    writes(disk, 3, "d")
        && leaves(disk, alloc, 0, 0, "abc")
        && disk.sync().is_ok()
        && writes(disk, 4, "efg")
        && cuts(disk, 2)
        && leaves(disk, alloc, 0, 0, "abcd")
        && leaves(disk, alloc, 0, 2, "abcdef")
        && leaves(disk, alloc, 0, 9, "abcdefg")
        && leaves(disk, alloc, 1, 0, "abcdefg")
        && leaves(disk, alloc, 1, 1, "ab")
        && leaves(disk, alloc, 2, 0, "ab")
        && leaves(disk, alloc, 9, 9, "ab")
}

fn leaves_what_failed(disk: &mut MemoryDisk, alloc: Global) -> bool {
    !writes(disk, 1, "zz")
        && !cuts(disk, 1)
        && leaves(disk, alloc, 0, 0, "abc")
        && leaves(disk, alloc, 0, 1, "azc")
        && leaves(disk, alloc, 0, 2, "azz")
        && leaves(disk, alloc, 1, 0, "abc")
        && leaves(disk, alloc, 1, 1, "a")
        && leaves(disk, alloc, 2, 0, "abc")
}

fn leaves_as_the_rules_say(alloc: Global) -> Result<bool, Memory> {
    let mut made = disk_of(alloc, "abc", 0, 0)?;
    Ok(leaves_what_was_made(&mut made, alloc))
}

fn leaves_failed_as_the_rules_say(alloc: Global) -> Result<bool, Memory> {
    let mut failed = disk_of(alloc, "abc", 0, 2)?;
    Ok(leaves_what_failed(&mut failed, alloc))
}

#[test]
fn a_stop_leaves_what_is_synced_and_some_of_what_came_since(rt: HostRuntime) {
    assert!(rt; matches!(leaves_as_the_rules_say(rt.alloc()), Ok(true)));
}

#[test]
fn a_stop_may_leave_a_part_of_a_call_that_failed(rt: HostRuntime) {
    assert!(rt; matches!(leaves_failed_as_the_rules_say(rt.alloc()), Ok(true)));
}
