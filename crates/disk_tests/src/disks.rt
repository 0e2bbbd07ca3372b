// The disks that several tests are over, and calls that first see that they may be made.
use disk_edge::{Disk, MemoryDisk};
use std::alloc::Global;
use tuple_values::{Bytes, Memory, Numbers};

pub fn bytes_of(alloc: Global, text: &str) -> Result<Bytes, Memory> {
    let mut bytes = Bytes::new(alloc);
    bytes.extend(text.as_bytes())?;
    Ok(bytes)
}

/// The numbers from the first to the one before the last.
pub fn numbers_of(alloc: Global, first: u64, end: u64) -> Result<Numbers, Memory> {
    let mut numbers = Numbers::new(alloc);
    for number in first..end {
        numbers.push(number)?;
    }
    Ok(numbers)
}

/// A disk of these bytes, of which the calls from the first to the one before the last fail.
pub fn disk_of(alloc: Global, text: &str, first: u64, end: u64) -> Result<MemoryDisk, Memory> {
    let failing = numbers_of(alloc, first, end)?;
    MemoryDisk::new(alloc, bytes_of(alloc, text)?, failing)
}

/// A write to a disk in memory, where it may be made.
pub fn writes(disk: &mut MemoryDisk, from: u64, piece: &str) -> bool {
    from <= disk.bytes().len() as u64 && disk.write_at(from, piece.as_bytes()).is_ok()
}

/// A cut of a disk in memory, where it may be made.
pub fn cuts(disk: &mut MemoryDisk, size: u64) -> bool {
    size <= disk.bytes().len() as u64 && disk.cut(size).is_ok()
}

/// A read of a disk in memory, where it may be made.
pub fn reads(disk: &mut MemoryDisk, from: usize, want: &str) -> bool {
    let mut room = [0u8; 8];
    let size = disk.bytes().len();
    if want.len() > 8 || from > size || want.len() > size - from {
        return false;
    }
    let room = &mut room[..want.len()];
    disk.read(from as u64, room).is_ok() && &*room == want.as_bytes()
}
