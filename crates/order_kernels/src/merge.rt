// Several inputs in one order.
ghost use Rattle.std.specs.Prelude.{◌≡◌, ◌<◌, ◌+◌, ◌++◌, [], List, length, take, true, false};
ghost use Rattle.std.specs.Prelude.{IfSome, IfNone, MatchOption, Some, None, vec_len, IfOk};
ghost use Rattle.std.specs.Prelude.{slice_index_or, slice_set, option_to_list};
ghost use Rattle.std.specs.Bool.{OnTrue, OnFalse};
ghost use Rattle.std.specs.Option.{ForSome};
ghost use Rattle.std.specs.List.{AllByRecursion};
ghost use Rattle.kernel_laws.specs.Rests.{Rests};
ghost use Rattle.sort_spec.specs.Sorting.{ins_sort, IsAscending};
ghost use Rattle.sort_spec.specs.Terms.{less};
ghost use Rattle.expr_types.specs.Orders.{merge_list};
ghost use Rattle.order_kernels.specs.MergeState as merging;
ghost use Rattle.order_kernels.specs.Slots.{held, flags, joined, AreFlows, IsKnown, AreKnown};
ghost use Rattle.order_kernels.specs.Slots.{IsFresh, IsForemost};

use crate::merge_state::{MergeKernel, Slot};
use kernel_laws::{Ask, Kernel};
use sort_spec::SortSpec;
use std::alloc::Global;
use tuple_values::{Memory, TryCopy, Tuple};

impl MergeKernel {
    /// Merges so many inputs that are in the order of these terms. Of tuples that tie the earlier
    /// input's comes first. A tuple takes as many comparisons as there are inputs.
    #[tactic(auto, using(crate::proofs::SlotLemmas::fresh_steps))]
    pub fn make(alloc: Global, inputs: u32, on: &SortSpec) -> Result<MergeKernel, Memory>
        ensures ready { IfOk result (λ k. (rests : Rests) → length rests ≡ inputs
            → AllByRecursion (IsAscending (less on.now)) rests → merging.ready k rests) }
        ensures out { IfOk result (λ k. (rests : Rests) → length rests ≡ inputs
            → merging.out k rests ≡ merge_list on.now rests) }
        ensures width { IfOk result (λ k. length (merging.ended k) ≡ inputs) }
        ensures lives { IfOk result (λ k. merging.failed k ≡ false) }
    {
        let on = on.copy(alloc)?;
        let slots = fresh(alloc, inputs)?;
        Ok(MergeKernel { on, slots })
    }
}

impl Kernel for MergeKernel {
    ghost ended = { merging.ended };

    ghost waits = { merging.waits };

    ghost ready = { merging.ready };

    ghost out = { merging.out };

    ghost over = { merging.over };

    ghost failed = { merging.failed };

    ghost lean = { true };

    fn inputs(&self) -> u32 {
        self.slots.len() as u32
    }

    fn ask(&mut self) -> Result<Ask, Memory> {
        if let Some(i) = first_open(self.slots.as_slice()) {
            return Ok(Ask::Need(i as u32));
        }
        match take_least(&self.on, self.slots.as_mut_slice()) {
            Some(tuple) => Ok(Ask::Emit(tuple)),
            None => Ok(Ask::End),
        }
    }

    #[tactic(auto, using(crate::proofs::SlotLemmas::feed_steps))]
    fn feed(&mut self, input: u32, tuple: Option<Tuple>) -> Result<(), Memory> {
        match tuple {
            Some(tuple) => hold(&mut self.slots, input as usize, tuple),
            None => end(&mut self.slots, input as usize),
        }
        Ok(())
    }
}

// Slots of inputs of which nothing is known.
#[tactic(auto, using(crate::proofs::SlotLemmas::fresh_push))]
fn fresh(alloc: Global, count: u32) -> Result<Vec<Slot>, Memory>
    ensures fresh { IfOk result (λ slots. AllByRecursion IsFresh slots.items) }
    ensures len { IfOk result (λ slots. vec_len slots ≡ count) }
{
    let mut slots = Vec::new(alloc);
    for _i in 0..count {
        slots.push(Slot {
            held: None,
            ended: false,
        })?;
    }
    Ok(slots)
}

// The first input of which the next tuple isn't known.
fn first_open(slots: &[Slot]) -> Option<usize>
    ensures { MatchOption result (AreKnown (held slots.now) (flags slots.now))
        (λ i. i < length slots.now × (slice_index_or (held slots.now) i None ≡ None)
        × (slice_index_or (flags slots.now) i true ≡ false)) }
{
    for i in 0..slots.len() {
        if is_open(&slots[i]) {
            return Some(i);
        }
    }
    None
}

// Whether nothing is held of an input that hasn't ended.
fn is_open(slot: &Slot) -> bool
    ensures open { OnTrue result ((slot.now.held ≡ None) × (slot.now.ended ≡ false)) }
    ensures known { OnFalse result (IsKnown slot.now.held slot.now.ended) }
{
    match slot.held {
        None => !slot.ended,
        Some(_) => false,
    }
}

// The place of the first of the least tuples; none exactly where no tuple is held.
fn least(on: &SortSpec, slots: &[Slot]) -> Option<usize>
    ensures foremost { IsForemost (less on.now) (held slots.now) result }
    ensures within { IfSome result (λ place. place < length slots.now) }
{
    let mut best = None;
    for i in 0..slots.len() {
        best = nearer(on, slots, best, i);
    }
    best
}

// The place of the first of the least tuples up to a place, by that of those before it.
fn nearer(on: &SortSpec, slots: &[Slot], best: Option<usize>, i: usize) -> Option<usize>
    requires within { i < length slots.now }
    requires best_within { ForSome best (λ place. place < i) }
    requires best { IsForemost (less on.now) (held (take i slots.now)) best }
    ensures foremost { IsForemost (less on.now) (held (take (i + 1) slots.now)) result }
    ensures within { IfSome result (λ place. place < i + 1) }
{
    let Some(tuple) = &slots[i].held else {
        return best;
    };
    let Some(place) = best else {
        return Some(i);
    };
    let Some(first) = &slots[place].held else {
        return Some(i);
    };
    if is_less(on, tuple, first) {
        return Some(i);
    }
    best
}

// Whether the first tuple comes before the second.
#[tactic(auto, unfolding(sort_spec::specs::Terms::less))]
fn is_less(on: &SortSpec, a: &Tuple, b: &Tuple) -> bool
    ensures { result ≡ less on.now a.now b.now }
{
    on.compare(a, b).is_lt()
}

// Takes the first of the least tuples, where each is known.
fn take_least(on: &SortSpec, slots: &mut [Slot]) -> Option<Tuple>
    requires { AreKnown (held slots.old) (flags slots.old) }
    ensures out { (rests : Rests) → AreFlows (less on.now) (held slots.old) (flags slots.old) rests
        → ins_sort (less on.now) (joined (held slots.old) rests)
        ≡ option_to_list result ++ ins_sort (less on.now) (joined (held slots.new) rests) }
    ensures flows { (rests : Rests)
        → AreFlows (less on.now) (held slots.old) (flags slots.old) rests
        → AreFlows (less on.now) (held slots.new) (flags slots.new) rests }
    ensures end { IfNone result ((rests : Rests)
        → AreFlows (less on.now) (held slots.old) (flags slots.old) rests
        → ins_sort (less on.now) (joined (held slots.new) rests) ≡ []) }
    ensures flags { flags slots.new ≡ flags slots.old }
    ensures over { IfNone result (AllByRecursion (λ h. h ≡ None) (held slots.new)
        × AllByRecursion (λ e. e ≡ true) (flags slots.new)) }
    ensures some { IfSome result (λ _. AllByRecursion (λ h. h ≡ None) (held slots.old) → ⊥) }
{
    let place = match least(on, slots) {
        None => return None,
        Some(place) => place,
    };
    let slot = &mut slots[place];
    slot.held.take()
}

// Holds the next tuple of an input.
#[tactic(auto, using(crate::proofs::SlotLemmas::held_set, crate::proofs::SlotLemmas::flags_same))]
fn hold(slots: &mut Vec<Slot>, place: usize, tuple: Tuple)
    requires { place < vec_len slots.old }
    ensures held { held slots.new.items ≡ slice_set (held slots.old.items) place (Some tuple) }
    ensures flags { flags slots.new.items ≡ flags slots.old.items }
{
    let slot = &mut slots[place];
    slot.held = Some(tuple);
}

// Keeps that an input has ended.
#[tactic(auto, using(crate::proofs::SlotLemmas::flags_set, crate::proofs::SlotLemmas::held_same))]
fn end(slots: &mut Vec<Slot>, place: usize)
    requires { place < vec_len slots.old }
    ensures held { held slots.new.items ≡ held slots.old.items }
    ensures flags { flags slots.new.items ≡ slice_set (flags slots.old.items) place true }
{
    let slot = &mut slots[place];
    slot.ended = true;
}
