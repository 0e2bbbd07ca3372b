// A test of each slot.
ghost use Rattle.std.specs.Prelude.{◌≡◌, ◌<◌, Bool, IfOk, length, slice_index_or};
ghost use Rattle.shard_segments.specs.Scans.{places_where};
ghost use Rattle.shard_segments.specs.declared.slot.Slot.{Slot};

use crate::{Chunks, Slot};
use rayon::prelude::*;
use std::alloc::Global;
use std::marker::Sync;
use std::thread::Threads;
use tuple_values::{Memory, Places};

/// How few slots are worth a thread of their own.
const PIECE: usize = 65_536;

/// A test of a slot, which takes no memory.
pub trait DocTest: Sync {
    // What the test of a slot means.
    ghost meets: { Self → Slot → Bool };

    /// Whether the slot meets the test.
    fn holds(&self, slot: &Slot) -> bool
        ensures { result ≡ meets self.now slot.now };
}

/// Just the places, counted from 0, of the slots that meet the test, ascending. Many slots are tested
/// in several threads, each a piece of them.
pub fn scan<R: Threads + Sync, T: DocTest>(
    rt: &R,
    alloc: Global,
    chunks: &Chunks,
    test: &T,
) -> Result<Places, Memory>
    ensures { IfOk result (λ places. places ≡ places_where (T.meets test.now) 0 chunks.now.slots) }
{
    let places = (0..chunks.len())
        .into_par_iter()
        .with_min_len(PIECE)
        .filter(
            |k: &u64| -> bool
                requires { k.now < length chunks.now.slots }
                ensures { (d : Slot) → result ≡ T.meets test.entry.now (slice_index_or chunks.entry.now.slots k.now d) }
            { test.holds(chunks.get(*k)) },
        )
        .collect::<Vec<u64>>(rt, alloc)?;
    Ok(Places::from_vec(places))
}
