// The world after an event.
ghost use Rattle.std.specs.Prelude.{◌≡◌, ◌++◌, [], ◌==◌, not, length, filter, replicate};
ghost use Rattle.std.specs.Prelude.{IfOk, OnOk};
ghost use Rattle.once_core.specs.Cells.{cells_in};
ghost use Rattle.once_core.specs.Worlds.{length_at, is_of, knows, known_after, next, nothing_yet};

use crate::apply::histories_after;
use crate::cells::{history_at, is_of};
use crate::{Event, Histories, Known, KnownList, ShardHistories, World};
use shard_versions::Step;
use std::alloc::Global;
use topic_book::BookEntries;
use tuple_values::{Memory, NameShards};

/// There is no entry anywhere, and nobody knows anything.
pub fn nothing_yet(alloc: Global, names: &[NameShards]) -> Result<World, Memory>
    ensures { IfOk result (λ w. w ≡ nothing_yet names.now) }
{
    let shards = empty_cells(alloc, names)?;
    let histories = Histories {
        shards,
        book: BookEntries::new(alloc),
    };
    Ok(World {
        histories,
        known: KnownList::new(alloc),
    })
}

fn empty_cells(alloc: Global, names: &[NameShards]) -> Result<ShardHistories, Memory>
    ensures { IfOk result (λ cells. cells ≡ replicate (cells_in names.now) []) }
{
    let mut cells = ShardHistories::new(alloc);
    for entry in names {
        push_empty(alloc, &mut cells, entry.shards)?;
    }
    Ok(cells)
}

fn push_empty(alloc: Global, cells: &mut ShardHistories, count: u16) -> Result<(), Memory>
    ensures { OnOk result (cells.new ≡ cells.old ++ replicate count []) }
{
    for _ in 0..count {
        cells.push(Step::new(alloc))?;
    }
    Ok(())
}

/// The world after the event, whether or not it is allowed.
pub fn next(alloc: Global, world: World, event: &Event) -> Result<World, Memory>
    ensures { IfOk result (λ w. w ≡ next world event.now) }
{
    let World { histories, known } = world;
    let histories = histories_after(alloc, histories, event)?;
    let known = known_after(&histories, event, known)?;
    Ok(World { histories, known })
}

// What is known after the event, which left these histories.
fn known_after(histories: &Histories, event: &Event, known: KnownList) -> Result<KnownList, Memory>
    ensures { IfOk result (λ new. new ≡ known_after histories.now event.now known) }
{
    match event {
        Event::Write { actor, cell, .. }
        | Event::Look { actor, cell }
        | Event::Send { actor, cell, .. } => knows(histories, *actor, *cell, known),
        Event::Bind { actor, .. } | Event::Store { actor, .. } => {
            knows_book(histories, *actor, known)
        }
        Event::Forget { actor } => {
            let mut rest = known.into_vec();
            forget_actor(&mut rest, *actor);
            Ok(KnownList::from_vec(rest))
        }
    }
}

fn knows_book(histories: &Histories, actor: u64, known: KnownList) -> Result<KnownList, Memory>
    ensures { IfOk result (λ new. new
        ≡ knows histories.now actor (length histories.now.shards) known) }
{
    let cells = histories.shards.len();
    if cells > u32::MAX as usize {
        return Err(Memory::OutOfMemory);
    }
    knows(histories, actor, cells as u32, known)
}

// What is known once the actor knows the whole cell.
fn knows(
    histories: &Histories,
    actor: u64,
    cell: u32,
    known: KnownList,
) -> Result<KnownList, Memory>
    ensures { IfOk result (λ new. new ≡ knows histories.now actor cell known) }
{
    let upto = length_at(histories, cell);
    let mut rest = known.into_vec();
    forget_cell(&mut rest, actor, cell);
    rest.insert(0, Known { actor, cell, upto })?;
    Ok(KnownList::from_vec(rest))
}

fn length_at(histories: &Histories, cell: u32) -> u64
    ensures { result ≡ length_at histories.now cell }
{
    if (cell as usize) < histories.shards.len() {
        return history_at(histories, cell).len() as u64;
    }
    histories.book.len() as u64
}

fn forget_cell(known: &mut Vec<Known>, actor: u64, cell: u32)
    ensures { known.new.items ≡ filter (λ k. not (is_of actor cell k)) known.old.items }
{
    known.retain(|k| !is_of(k, actor, u64::from(cell)));
}

fn forget_actor(known: &mut Vec<Known>, actor: u64)
    ensures { known.new.items ≡ filter (λ k. not (k.actor == actor)) known.old.items }
{
    known.retain(|k| k.actor != actor);
}
