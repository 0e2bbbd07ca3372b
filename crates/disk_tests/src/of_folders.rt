// Tests of the folder in memory: which disks go out, which come back, and what counts.
use crate::disks::{disk_of, numbers_of, writes};
use disk_edge::{Disk, Disks, MemoryDisk, MemoryDisks};
use std::alloc::Global;
use tuple_values::{Memory, Text};

// Whether a disk of this name is held with this content.
fn holds(disks: &MemoryDisks, name: &Text, want: &str) -> bool {
    match disks.held(name) {
        Some(disk) => disk.bytes() == want.as_bytes(),
        None => false,
    }
}

// Whether the disk of a name goes out with this content, is written behind it, and comes back.
fn goes_and_comes(disks: &mut MemoryDisks, name: &Text, want: &str, piece: &str) -> bool {
    let Ok(mut disk) = disks.disk(name) else {
        return false;
    };
    let is_out = disks.held(name).is_none() && disks.disk(name).is_err();
    let is_it = disk.bytes() == want.as_bytes() && writes(&mut disk, want.len() as u64, piece);
    disks.back(name, disk);
    is_out && is_it
}

fn keeps_both(disks: &mut MemoryDisks, first: &Text, second: &Text) -> bool {
    goes_and_comes(disks, first, "abc", "d")
        && holds(disks, first, "abcd")
        && goes_and_comes(disks, second, "", "x")
        && holds(disks, second, "x")
        && goes_and_comes(disks, first, "abcd", "e")
        && holds(disks, first, "abcde")
        && disks.faults() == 3
}

fn keeps_disks_by_name(alloc: Global) -> Result<bool, Memory> {
    let first = Text::of(alloc, "c-0.log")?;
    let second = Text::of(alloc, "c-1.log")?;
    let mut disks = MemoryDisks::new(alloc, numbers_of(alloc, 0, 0)?);
    disks.hold(Text::of(alloc, "c-0.log")?, disk_of(alloc, "abc", 0, 0)?)?;
    Ok(keeps_both(&mut disks, &first, &second))
}

#[test]
fn a_disk_goes_out_once_and_comes_back_as_it_was_left(rt: HostRuntime) {
    assert!(rt; matches!(keeps_disks_by_name(rt.alloc()), Ok(true)));
}

// Whether a disk that fails at its first call counts in the folder when it comes back.
fn counts(disks: &mut MemoryDisks, name: &Text) -> bool {
    let Ok(mut disk) = disks.disk(name) else {
        return false;
    };
    let failed = disk.size().is_err() && disks.faults() == 1;
    disks.back(name, disk);
    failed && disks.faults() == 2 && holds(disks, name, "abc")
}

fn counts_faults(alloc: Global) -> Result<bool, Memory> {
    let name = Text::of(alloc, "c-0.log")?;
    let mut disks = MemoryDisks::new(alloc, numbers_of(alloc, 0, 1)?);
    disks.hold(Text::of(alloc, "c-0.log")?, disk_of(alloc, "abc", 0, 1)?)?;
    Ok(disks.disk(&name).is_err() && counts(&mut disks, &name))
}

#[test]
fn a_call_fails_where_it_is_to_and_a_disk_that_failed_outside_counts(rt: HostRuntime) {
    assert!(rt; matches!(counts_faults(rt.alloc()), Ok(true)));
}

// Whether a disk that comes back under a name that isn't out is let go.
fn lets_go(disks: &mut MemoryDisks, name: &Text, disk: MemoryDisk) -> bool {
    disks.back(name, disk);
    disks.held(name).is_none()
}

fn replaces(alloc: Global) -> Result<bool, Memory> {
    let name = Text::of(alloc, "c-0.log")?;
    let mut disks = MemoryDisks::new(alloc, numbers_of(alloc, 0, 0)?);
    let is_let_go = lets_go(&mut disks, &name, disk_of(alloc, "abc", 0, 0)?);
    disks.hold(Text::of(alloc, "c-0.log")?, disk_of(alloc, "abc", 0, 0)?)?;
    disks.hold(Text::of(alloc, "c-0.log")?, disk_of(alloc, "xy", 0, 0)?)?;
    Ok(is_let_go && holds(&disks, &name, "xy"))
}

#[test]
fn a_disk_is_held_in_place_of_another_and_one_that_was_not_out_is_let_go(rt: HostRuntime) {
    assert!(rt; matches!(replaces(rt.alloc()), Ok(true)));
}
