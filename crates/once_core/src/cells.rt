// The cells of a world, and where they are.
ghost use Rattle.std.specs.Prelude.{◌≡◌, ◌-◌, ◌<◌, ◌^◌, min, option_map, IfSome};
ghost use Rattle.tuple_values.specs.Keys.{shard_of};
ghost use Rattle.topic_book.specs.Fitness.{shards_of};
ghost use Rattle.once_core.specs.Cells.{cell_of, history_at, place_of, place_in};
ghost use Rattle.once_core.specs.Worlds.{is_of};

use crate::{Histories, Known};
use shard_versions::Entry;
use tuple_values::{NameShards, fnv1a, shard_of};

/// Whether what is known is the actor's, and of this cell.
pub(crate) fn is_of(known: &Known, actor: u64, cell: u64) -> bool
    ensures { result ≡ is_of actor cell known.now }
{
    known.actor == actor && u64::from(known.cell) == cell
}

/// The history of a cell, and the empty one where it is none of a shard.
pub(crate) fn history_at(histories: &Histories, cell: u32) -> &[Entry]
    ensures { result.now ≡ history_at histories.now cell }
{
    match histories.shards.get(cell as usize) {
        Some(history) => history.as_slice(),
        None => &[],
    }
}

/// How many shards the collection has, and 0 where there is none of this name.
pub(crate) fn shards_of(names: &[NameShards], collection: &str) -> u16
    ensures { result ≡ shards_of names.now collection.now }
{
    for entry in names {
        if entry.name.as_str() == collection {
            return entry.shards;
        }
    }
    0
}

/// The cell of a collection's shard, and `u64::MAX` where that number is greater.
pub(crate) fn cell_of(names: &[NameShards], collection: &str, shard: u32) -> u64
    ensures { result ≡ min (cell_of names.now collection.now shard) (2 ^ 64 - 1) }
{
    let mut before: u64 = 0;
    for entry in names {
        if entry.name.as_str() == collection {
            return before.saturating_add(u64::from(shard));
        }
        before = before.saturating_add(u64::from(entry.shards));
    }
    before.saturating_add(u64::from(shard))
}

/// The shard to which the id routes. Of no shards it is the id's hash, and no cell is there.
pub(crate) fn home_shard(shards: u16, id: &str) -> u32
    ensures { result ≡ shard_of shards id.now }
{
    if shards == 0 {
        return fnv1a(id.as_bytes());
    }
    u32::from(shard_of(id, shards))
}

/// Where a cell is: a collection, and a shard of it.
#[derive(Clone, Copy)]
pub(crate) struct PlaceIn<'a> {
    pub(crate) collection: &'a NameShards,
    pub(crate) shard: u16,
}

/// Where the cell is, unless it is the book's or there is none.
pub(crate) fn place_of(names: &[NameShards], cell: u32) -> Option<PlaceIn<'_>>
    ensures value { option_map (λ p. place_in p.collection.now p.shard) result
        ≡ place_of names.now cell }
    ensures in_range { IfSome result (λ p. p.shard < p.collection.now.shards) }
{
    let mut left = cell;
    for collection in names {
        let shards = u32::from(collection.shards);
        if left < shards {
            let shard = left as u16;
            return Some(PlaceIn { collection, shard });
        }
        left -= shards;
    }
    None
}
