// What was read of several shards, and the records of looks and of own entries.
use crate::Snapshot;
use tuple_values::{Sequence, Text};

/// A shard of a collection as it was read.
#[derive(Drop)]
pub struct CutPart {
    pub collection: Text,
    pub shard: u16,
    pub snapshot: Snapshot,
}

/// Shards as they were read, in the order in which they were read.
pub type Cut = Sequence<CutPart>;

/// The record of a look at a cell: how many of its entries were seen.
#[derive(Clone, Copy, PartialEq, Eq, Drop)]
pub struct CutMark {
    pub cell: u32,
    pub upto: u64,
}

/// Looks, in order.
pub type CutMarks = Sequence<CutMark>;

/// The record of an append to a cell: the place of its first entry and how many there are.
#[derive(Clone, Copy, PartialEq, Eq, Drop)]
pub struct OwnMark {
    pub cell: u32,
    pub from: u64,
    pub count: u64,
}

/// Appends, in order.
pub type OwnMarks = Sequence<OwnMark>;

/// Looks and appends of one writer.
#[derive(Drop)]
pub struct Record {
    pub marks: CutMarks,
    pub own: OwnMarks,
}
