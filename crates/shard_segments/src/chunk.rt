// Slots that don't change any more.
ghost use Rattle.std.specs.Prelude.{◌≡◌, ◌<◌, ◌≤◌, ◌+◌, ◌-◌, IfOk, length, slice_index_or, vec_len, vec_capacity};

use crate::Slot;
use std::alloc::Global;
use std::marker::Model;
use std::sync::Arc;
use tuple_values::Memory;

/// Slots that all who hold them share. A contract sees the list of them.
#[derive(Drop)]
pub(crate) struct Chunk {
    slots: Arc<Vec<Slot>>,
}

impl Model for Chunk {
    ghost use Rattle.std.specs.Prelude.{List};
    ghost use Rattle.std.specs.Arc.{arc_value};
    ghost use Rattle.shard_segments.specs.declared.slot.Slot.{Slot};

    ghost Value = { List Slot };

    ghost use Rattle.shard_segments.specs.contracts.slot.Slot as slot;
    ghost use Rattle.std.specs.Coded.{codes};

    ghost coded = { Prim.hlevel (codes, slot.the_row.coded) };

    ghost view = { λ c. (arc_value c.slots).items };
}

impl Chunk {
    /// The chunk of a slice's slots.
    pub(crate) fn of(alloc: Global, slots: &[Slot]) -> Result<Chunk, Memory>
        ensures { IfOk result (λ chunk. chunk ≡ slots.now) }
    {
        let slots = Arc::new(alloc, shared(alloc, slots, 0)?)?;
        Ok(Chunk { slots })
    }

    /// The same chunk once more. No slot is copied.
    pub(crate) fn share(&self) -> Result<Chunk, Memory>
        ensures { IfOk result (λ chunk. chunk ≡ self.now) }
    {
        let slots = Arc::try_clone(&self.slots)?;
        Ok(Chunk { slots })
    }

    /// The slot at a place, counted from 0.
    pub(crate) fn get(&self, place: usize) -> &Slot
        requires { place < length self.now }
        ensures { (d : _) → result.now ≡ slice_index_or self.now place d }
    {
        let slots: &Vec<Slot> = &self.slots;
        &slots[place]
    }
}

/// The same slots once more, with room for so many behind them.
pub(crate) fn shared(alloc: Global, slots: &[Slot], more: usize) -> Result<Vec<Slot>, Memory>
    ensures items { IfOk result (λ all. all.items ≡ slots.now) }
    ensures room { IfOk result (λ all. vec_len all + more ≤ vec_capacity all) }
{
    let mut all = Vec::new(alloc);
    all.reserve_exact(slots.len())?;
    for slot in slots {
        all.push(slot.share()?)?;
    }
    all.reserve(more)?;
    Ok(all)
}
