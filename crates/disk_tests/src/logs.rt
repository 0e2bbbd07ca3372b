// Files worked by hand from the format, and the steps and disks of the tests.
ghost use Rattle.std.specs.Prelude.{IfOk, map};
ghost use Rattle.exchange_rules.specs.declared.log_entry.LogEntry.TheVariants.{Shard};
ghost use Rattle.log_codec.specs.Steps.{HoldsNoGroup};

use commit_log::{LogEntry, LogSteps};
use disk_edge::MemoryDisk;
use shard_versions::{Entry, Step};
use std::alloc::Global;
use tuple_values::{Bytes, Memory, Numbers};

/// A file of no step.
pub const NEW: [u8; 9] = *b"SSLOG001\x00";

/// A file of one step: a body of 17 bytes, which is one Mark of the writer 5.
pub const ONE: [u8; 35] = [
    83, 83, 76, 79, 71, 48, 48, 49, // SSLOG001
    1, 0, 0, 0, 0, 0, 0, 0, 17, // a step of 17 bytes
    0, 0, 0, 0, 0, 0, 0, 1, // one entry
    4, 0, 0, 0, 0, 0, 0, 0, 5, // Mark
    0,
];

/// A file of that step and of one more, a Mark of the writer 6.
pub const TWO: [u8; 61] = [
    83, 83, 76, 79, 71, 48, 48, 49, // SSLOG001
    1, 0, 0, 0, 0, 0, 0, 0, 17, 0, 0, 0, 0, 0, 0, 0, 1, 4, 0, 0, 0, 0, 0, 0, 0, 5, //
    1, 0, 0, 0, 0, 0, 0, 0, 17, 0, 0, 0, 0, 0, 0, 0, 1, 4, 0, 0, 0, 0, 0, 0, 0, 6, //
    0,
];

/// A file of one step of the book: a body of 44 bytes, which is a Store of no versions by the
/// writer 2.
pub const BOOK: [u8; 62] = *b"SSLOG001\x01\0\0\0\0\0\0\0\x2c\0\0\0\0\0\0\0\x01\
\x06\0\0\0\0\0\0\0\x02\0\0\0\0\0\0\0\x02ck\0\0\0\0\0\0\0\x01t\0\0\0\0\0\0\0\0\0";

/// The file of one step, and bytes of a second one of which no byte says that it stands.
pub const TORN: [u8; 45] = [
    83, 83, 76, 79, 71, 48, 48, 49, // SSLOG001
    1, 0, 0, 0, 0, 0, 0, 0, 17, 0, 0, 0, 0, 0, 0, 0, 1, 4, 0, 0, 0, 0, 0, 0, 0, 5, //
    0, 0, 0, 0, 0, 0, 0, 0, 17, 0, 9,
];

/// A file whose second step has a body with an entry of an unknown kind.
pub const UNKNOWN: [u8; 61] = [
    83, 83, 76, 79, 71, 48, 48, 49, // SSLOG001
    1, 0, 0, 0, 0, 0, 0, 0, 17, 0, 0, 0, 0, 0, 0, 0, 1, 4, 0, 0, 0, 0, 0, 0, 0, 5, //
    1, 0, 0, 0, 0, 0, 0, 0, 17, 0, 0, 0, 0, 0, 0, 0, 1, 9, 0, 0, 0, 0, 0, 0, 0, 6, //
    0,
];

/// A file whose one step has a byte behind its entries.
pub const LONGER: [u8; 36] = [
    83, 83, 76, 79, 71, 48, 48, 49, // SSLOG001
    1, 0, 0, 0, 0, 0, 0, 0, 18, 0, 0, 0, 0, 0, 0, 0, 1, 4, 0, 0, 0, 0, 0, 0, 0, 5, 0, //
    0,
];

/// A step of a Mark of this writer.
pub fn mark(alloc: Global, by: u64) -> Result<Step, Memory>
    ensures { IfOk result (λ step. HoldsNoGroup (map Shard step)) }
{
    let mut step = Step::new(alloc);
    step.push(Entry::mark(by))?;
    Ok(step)
}

/// The writer of the first entry of the last step.
pub fn last_writer(history: &LogSteps) -> Option<u64> {
    let step = history.get(history.len().checked_sub(1)?)?;
    match step.get(0)? {
        LogEntry::Shard(entry) => Some(entry.by),
        LogEntry::Book(_) => None,
    }
}

/// A disk of these bytes. The calls whose numbers, counted from 0, are in `failing` fail.
pub fn disk(alloc: Global, bytes: &[u8], failing: &[u64]) -> Result<MemoryDisk, Memory> {
    let bytes = Bytes::from_vec(bytes.to_vec(alloc)?);
    let failing = Numbers::from_vec(failing.to_vec(alloc)?);
    MemoryDisk::new(alloc, bytes, failing)
}
