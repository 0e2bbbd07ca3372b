// Shards of no entry.
ghost use Rattle.std.specs.Prelude.{ℕ, ◌≤◌, ◌+◌, IfOk, OnOk};
ghost use Rattle.topic_book.specs.Cells.{cells_in};
ghost use Rattle.stream_site.specs.Logs.{AreEmpty};

use shard_versions::ShardState;
use std::alloc::Global;
use tuple_values::{Memory, NameShards};

/// A shard of no entry for each shard of the collections.
pub fn empty_shards(
    alloc: Global,
    names: &[NameShards],
    limit: u64,
) -> Result<Vec<ShardState>, Memory>
    requires { limit ≤ 268435456 }
    ensures { IfOk result (λ shards. AreEmpty limit (cells_in names.now) shards.items) }
{
    let mut shards = Vec::new(alloc);
    for entry in names {
        add_empty(alloc, &mut shards, entry.shards, limit)?;
    }
    Ok(shards)
}

fn add_empty(
    alloc: Global,
    shards: &mut Vec<ShardState>,
    count: u16,
    limit: u64,
) -> Result<(), Memory>
    requires { limit ≤ 268435456 }
    ensures { OnOk result ((before : ℕ) → AreEmpty limit before shards.old.items
        → AreEmpty limit (before + count) shards.new.items) }
{
    for _ in 0..count {
        shards.push(ShardState::empty(alloc, limit))?;
    }
    Ok(())
}
