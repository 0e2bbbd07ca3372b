// The slots of a shard's writes.
ghost use Rattle.std.specs.Prelude.{◌≡◌, ℕ, ◌+◌, ◌-◌, ◌*◌, ◌/◌, ◌%◌, ◌^◌, ◌<◌, ◌≤◌, ◌++◌, ◌∷◌, [], IfOk, OnErr, OnOk, length, max, take, slice_index_or, vec_len, vec_capacity};
ghost use Rattle.std.specs.List.{slice_range};
ghost use Rattle.shard_segments.specs.Lists.{joined, AreWhole};

use crate::Slot;
use crate::chunk::{Chunk, shared};
use std::alloc::Global;
use std::marker::Model;
use tuple_values::Memory;

/// How many slots a chunk has.
const CHUNK: usize = 1024;

/// Above all numbers of slots, with those for which there is room.
const LIMIT: u64 = 0x8000_0000_0000_0000;

/// Slots in their order: those of whole chunks, which don't change any more and are shared, and
/// behind them the open ones. A contract sees the list of them and for how many more there is room.
pub struct Chunks {
    whole: Vec<Chunk>,
    open: Vec<Slot>,
    count: u64,
    room: u64,
}

impl Drop for Chunks {
    fn drop(self) {
        let Chunks {
            whole,
            open,
            count: _,
            room: _,
        } = self;
        drop(whole);
        drop(open);
    }
}

impl Model for Chunks {
    ghost use Rattle.shard_segments.specs.Held.{Held};

    ghost Value = { Held };

    ghost use Rattle.shard_segments.specs.contracts.slot.Slot as slot;
    ghost use Rattle.std.specs.Coded.{codes};
    ghost use Rattle.shard_segments.specs.Held.{held_code};

    ghost coded = { held_code (Prim.hlevel (codes, slot.the_row.coded)) };

    ghost use Rattle.shard_segments.specs.Chunks.{held_in, AreChunks};

    ghost view = { held_in };

    ghost invariant = { AreChunks };
}

impl Chunks {
    /// No slot.
    pub fn empty(alloc: Global) -> Chunks
        ensures { result.slots ≡ [] }
    {
        Chunks {
            whole: Vec::new(alloc),
            open: Vec::new(alloc),
            count: 0,
            room: 0,
        }
    }

    /// How many slots there are. With those for which there is room there are fewer than 2^63.
    pub fn len(&self) -> u64
        ensures count { result ≡ length self.now.slots }
        ensures room { result + self.now.room < 2 ^ 63 }
    {
        self.count
    }

    /// The slot at a place, counted from 0.
    pub fn get(&self, k: u64) -> &Slot
        requires { k < length self.now.slots }
        ensures { (d : _) → result.now ≡ slice_index_or self.now.slots k d }
    {
        let place = k as usize;
        let at = place / CHUNK;
        if at < self.whole.len() {
            self.whole[at].get(place % CHUNK)
        } else {
            &self.open[place - self.whole.len() * CHUNK]
        }
    }

    /// Makes room for so many more slots. It closes chunks of those that are open.
    pub fn reserve(&mut self, more: u64) -> Result<(), Memory>
        ensures slots { self.new.slots ≡ self.old.slots }
        ensures room { OnOk result (self.new.room ≡ max more self.old.room) }
        ensures err { OnErr result (self.new ≡ self.old) }
    {
        let room = more.max(self.room);
        if room >= LIMIT - self.count {
            return Err(Memory::OutOfMemory);
        }
        close(&mut self.whole, &mut self.open, room as usize)?;
        self.room = room;
        Ok(())
    }

    /// Adds a slot behind the others. Takes no memory.
    pub fn push(&mut self, slot: Slot)
        requires { 0 < self.old.room }
        ensures slots { self.new.slots ≡ self.old.slots ++ slot ∷ [] }
        ensures room { self.new.room + 1 ≡ self.old.room }
    {
        self.open.push_reserved(slot);
        self.count += 1;
        self.room -= 1;
    }

    /// The first so many slots once more. Whole chunks are shared, and no document is copied.
    pub fn share(&self, alloc: Global, upto: u64) -> Result<Chunks, Memory>
        requires { upto ≤ length self.now.slots }
        ensures { IfOk result (λ chunks. chunks.slots ≡ take upto self.now.slots) }
    {
        let count = (upto as usize / CHUNK).min(self.whole.len());
        let whole = first_chunks(alloc, &self.whole, count)?;
        let open = self.slots_between(alloc, (count * CHUNK) as u64, upto)?;
        Ok(Chunks {
            whole,
            open,
            count: upto,
            room: 0,
        })
    }

    // The slots from a place up to another once more.
    fn slots_between(&self, alloc: Global, from: u64, upto: u64) -> Result<Vec<Slot>, Memory>
        requires order { from ≤ upto }
        requires in_range { upto ≤ length self.now.slots }
        ensures { IfOk result (λ slots. slots.items ≡ slice_range self.now.slots from upto) }
    {
        let mut slots = Vec::new(alloc);
        slots.reserve_exact((upto - from) as usize)?;
        for k in from..upto {
            slots.push(self.get(k).share()?)?;
        }
        Ok(slots)
    }
}

// The first so many chunks once more.
fn first_chunks(alloc: Global, whole: &[Chunk], count: usize) -> Result<Vec<Chunk>, Memory>
    requires { count ≤ length whole.now }
    ensures { IfOk result (λ first. first.items ≡ take count whole.now) }
{
    let mut first = Vec::new(alloc);
    first.reserve_exact(count)?;
    for k in 0..count {
        first.push(whole[k].share()?)?;
    }
    Ok(first)
}

// Closes chunks of the open slots where they are enough, and makes room for so many more.
fn close(whole: &mut Vec<Chunk>, loose: &mut Vec<Slot>, room: usize) -> Result<(), Memory>
    requires { AreWhole whole.old.items }
    ensures slots { joined whole.new.items ++ loose.new.items
        ≡ joined whole.old.items ++ loose.old.items }
    ensures whole { AreWhole whole.new.items }
    ensures few { OnOk result (vec_len loose.new < 1024) }
    ensures ok { OnOk result (vec_len loose.new + room ≤ vec_capacity loose.new) }
    ensures kept { (n : ℕ) → n ≤ room → vec_len loose.old + n ≤ vec_capacity loose.old
        → vec_len loose.new + n ≤ vec_capacity loose.new }
{
    if loose.len() < CHUNK {
        loose.reserve(room)?;
        return Ok(());
    }
    let alloc = *loose.allocator();
    let end = loose.len() / CHUNK * CHUNK;
    let mut more = closed(alloc, &loose[..end])?;
    let rest = shared(alloc, &loose[end..], room)?;
    whole.append(&mut more)?;
    *loose = rest;
    Ok(())
}

// The chunks of slots, of which there are a multiple of a chunk's.
fn closed(alloc: Global, slots: &[Slot]) -> Result<Vec<Chunk>, Memory>
    requires { length slots.now % 1024 ≡ 0 }
    ensures joined { IfOk result (λ chunks.
        joined chunks.items ≡ slots.now) }
    ensures whole { IfOk result (λ chunks. AreWhole chunks.items) }
{
    let mut chunks = Vec::new(alloc);
    for k in 0..slots.len() / CHUNK {
        chunks.push(Chunk::of(alloc, &slots[k * CHUNK..(k + 1) * CHUNK])?)?;
    }
    Ok(chunks)
}
