// What an actor has seen of a world.
ghost use Rattle.std.specs.Prelude.{◌≡◌, take};
ghost use Rattle.once_core.specs.Cells.{history_at, shard_history, home_history};
ghost use Rattle.once_core.specs.Sights.{seen_of};
ghost use Rattle.once_core.specs.Worlds.{known_upto};

use crate::cells::{cell_of, home_shard, is_of, shards_of};
use crate::{Known, World};
use shard_versions::Entry;
use topic_book::BookEntry;
use tuple_values::NameShards;

/// What an actor has seen of a world, whose cells are the shards of these collections.
#[derive(Clone, Copy)]
pub(crate) struct Seen<'a> {
    pub(crate) names: &'a [NameShards],
    pub(crate) world: &'a World,
    pub(crate) actor: u64,
}

// How many entries of the cell the actor knows.
fn known_upto(known: &[Known], actor: u64, cell: u64) -> u64
    ensures { result ≡ known_upto actor cell known.now }
{
    for part in known {
        if is_of(part, actor, cell) {
            return part.upto;
        }
    }
    0
}

// The first so many entries, and all where there are fewer.
fn first_entries(entries: &[Entry], upto: u64) -> &[Entry]
    ensures { result.now ≡ take upto entries.now }
{
    let count = entries.len().min(upto as usize);
    &entries[..count]
}

fn first_book_entries(entries: &[BookEntry], upto: u64) -> &[BookEntry]
    ensures { result.now ≡ take upto entries.now }
{
    let count = entries.len().min(upto as usize);
    &entries[..count]
}

impl<'a> Seen<'a> {
    /// What was seen of a cell's history.
    pub(crate) fn history(&self, cell: u64) -> &'a [Entry]
        ensures { result.now ≡ history_at (seen_of self.now) cell }
    {
        let upto = known_upto(self.world.known.as_slice(), self.actor, cell);
        match self.world.histories.shards.get(cell as usize) {
            Some(history) => first_entries(history.as_slice(), upto),
            None => &[],
        }
    }

    /// What was seen of the history of a collection's shard.
    pub(crate) fn of_shard(&self, collection: &str, shard: u32) -> &'a [Entry]
        ensures { result.now ≡ shard_history self.now.names.now
            (seen_of self.now) collection.now shard }
    {
        let cell = cell_of(self.names, collection, shard);
        if cell as usize >= self.world.histories.shards.len() {
            return &[];
        }
        self.history(cell)
    }

    /// What was seen of the history of the collection's shard to which the id routes.
    pub(crate) fn home(&self, collection: &str, id: &str) -> &'a [Entry]
        ensures { result.now ≡ home_history self.now.names.now
            (seen_of self.now) collection.now id.now }
    {
        let shards = shards_of(self.names, collection);
        self.of_shard(collection, home_shard(shards, id))
    }

    /// What was seen of the book.
    pub(crate) fn book(&self) -> &'a [BookEntry]
        ensures { result.now ≡ (seen_of self.now).book }
    {
        let cell = self.world.histories.shards.len() as u64;
        let upto = known_upto(self.world.known.as_slice(), self.actor, cell);
        first_book_entries(self.world.histories.book.as_slice(), upto)
    }
}
