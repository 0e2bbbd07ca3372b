// Histories, and what is known of them.
use shard_versions::Step;
use topic_book::BookEntries;
use tuple_values::Sequence;

/// The entries of each shard's cell, in the order of cells.
pub type ShardHistories = Sequence<Step>;

/// All histories: those of the shards, and the book's.
#[derive(Drop)]
pub struct Histories {
    pub shards: ShardHistories,
    pub book: BookEntries,
}

/// An actor knows the first `upto` entries of a cell. The book's cell is the one after the shards'.
#[derive(Clone, Copy, PartialEq, Eq)]
pub struct Known {
    pub actor: u64,
    pub cell: u32,
    pub upto: u64,
}

/// What is known. Of what is not in the list nothing is known.
pub type KnownList = Sequence<Known>;

/// All histories, and what each actor knows of them.
#[derive(Drop)]
pub struct World {
    pub histories: Histories,
    pub known: KnownList,
}
