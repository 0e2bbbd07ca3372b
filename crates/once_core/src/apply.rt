// What an event does.
ghost use Rattle.std.specs.Prelude.{◌≡◌, ◌++◌, [], IfOk, OnOk, get_or, set};
ghost use Rattle.shard_versions.specs.Deliveries.{admitted, marked};
ghost use Rattle.once_core.specs.Cells.{history_at};
ghost use Rattle.once_core.specs.Worlds.{after_event, grown, with_entry};

use crate::book::raises;
use crate::cells::history_at;
use crate::writes::delivered;
use crate::{Event, Histories, ShardHistories};
use shard_versions::{Entry, Step};
use std::alloc::Global;
use topic_book::BookEntry;
use tuple_values::{Memory, TryCopy};

// The entries follow the cell's history. Where there is no such cell nothing follows.
#[tactic(auto, unfolding(crate::specs::Worlds::grown))]
fn grow(
    alloc: Global,
    histories: Histories,
    cell: u32,
    entries: &[Entry],
) -> Result<Histories, Memory>
    ensures { IfOk result (λ hs. hs ≡ grown histories cell entries.now) }
{
    let Histories { shards, book } = histories;
    let shards = extend_cell(alloc, shards, cell as usize, entries)?;
    Ok(Histories { shards, book })
}

fn extend_cell(
    alloc: Global,
    shards: ShardHistories,
    cell: usize,
    entries: &[Entry],
) -> Result<ShardHistories, Memory>
    ensures { IfOk result (λ new. new ≡ set shards cell (get_or shards cell [] ++ entries.now)) }
{
    let mut cells = shards.into_vec();
    if cell < cells.len() {
        let history = &mut cells[cell];
        extend(alloc, history, entries)?;
    }
    Ok(ShardHistories::from_vec(cells))
}

fn extend(alloc: Global, history: &mut Step, entries: &[Entry]) -> Result<(), Memory>
    ensures { OnOk result (history.new ≡ history.old ++ entries.now) }
{
    for entry in entries {
        history.push(entry.copy(alloc)?)?;
    }
    Ok(())
}

// The entry follows in the book.
fn append_entry(histories: Histories, entry: BookEntry) -> Result<Histories, Memory>
    ensures { IfOk result (λ hs. hs ≡ with_entry histories entry) }
{
    let Histories { shards, mut book } = histories;
    book.push(entry)?;
    Ok(Histories { shards, book })
}

// What the step of deliveries leaves of the histories.
fn send(
    alloc: Global,
    histories: Histories,
    actor: u64,
    cell: u32,
    step: &Step,
) -> Result<Histories, Memory>
    ensures { IfOk result (λ hs. hs ≡ grown histories cell
        (marked actor (admitted (history_at histories cell) step.now))) }
{
    let new = delivered(alloc, actor, history_at(&histories, cell), step.as_slice())?;
    grow(alloc, histories, cell, new.as_slice())
}

/// The histories after the event.
pub(crate) fn histories_after(
    alloc: Global,
    histories: Histories,
    event: &Event,
) -> Result<Histories, Memory>
    ensures { IfOk result (λ hs. hs ≡ after_event histories event.now) }
{
    match event {
        Event::Write { cell, step, .. } => grow(alloc, histories, *cell, step.as_slice()),
        Event::Send {
            actor,
            cell,
            step,
            ..
        } => send(alloc, histories, *actor, *cell, step),
        Event::Bind {
            actor,
            key,
            binding,
        } => {
            let key = key.copy(alloc)?;
            let binding = binding.copy(alloc)?;
            append_entry(
                histories,
                BookEntry::Bind {
                    by: *actor,
                    key,
                    binding,
                },
            )
        }
        Event::Store { actor, key, upto } => {
            if !raises(histories.book.as_slice(), key, upto.as_slice()) {
                return Ok(histories);
            }
            let key = key.copy(alloc)?;
            let upto = upto.copy(alloc)?;
            append_entry(
                histories,
                BookEntry::Store {
                    by: *actor,
                    key,
                    upto,
                },
            )
        }
        Event::Look { .. } | Event::Forget { .. } => Ok(histories),
    }
}
