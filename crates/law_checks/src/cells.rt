// The cells of shards.
ghost use Rattle.std.specs.Prelude.{◌≡◌, ◌-◌, ◌^◌, min};
ghost use Rattle.tuple_values.specs.Keys.{shard_of};
ghost use Rattle.topic_book.specs.Fitness.{shards_of};
ghost use Rattle.once_core.specs.Cells.{cell_of};

use tuple_values::{NameShards, fnv1a, shard_of};

/// How many shards the collection has, and 0 where there is none of this name.
pub(crate) fn shards_of(names: &[NameShards], collection: &str) -> u16
    ensures { result ≡ shards_of names.now collection.now }
{
    for entry in names {
        if entry.name.as_str() == collection {
            return entry.shards;
        }
    }
    0
}

/// The cell of a collection's shard, and `u64::MAX` where that number is greater.
pub(crate) fn cell_of(names: &[NameShards], collection: &str, shard: u32) -> u64
    ensures { result ≡ min (cell_of names.now collection.now shard) (2 ^ 64 - 1) }
{
    let mut before: u64 = 0;
    for entry in names {
        if entry.name.as_str() == collection {
            return before.saturating_add(u64::from(shard));
        }
        before = before.saturating_add(u64::from(entry.shards));
    }
    before.saturating_add(u64::from(shard))
}

/// The shard to which the id routes. Of no shards it is the id's hash, and no cell is there.
pub(crate) fn home_shard(shards: u16, id: &str) -> u32
    ensures { result ≡ shard_of shards id.now }
{
    if shards == 0 {
        return fnv1a(id.as_bytes());
    }
    u32::from(shard_of(id, shards))
}
