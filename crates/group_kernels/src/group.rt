// One tuple for each run of equal keys.
ghost use Rattle.std.specs.Prelude.{◌≡◌, List, [], ◌∷◌, true, false, length, map, IfOk};
ghost use Rattle.std.specs.Prelude.{option_to_list};
ghost use Rattle.tuple_values.specs.Document.{Doc};
ghost use Rattle.expr_types.specs.Groups.{same_key, groups};
ghost use Rattle.expr_types.specs.Orders.{IsSortedOver};
ghost use Rattle.group_kernels.specs.GroupState as group_state;
ghost use Rattle.group_kernels.specs.Runs.{spans};
ghost use Rattle.group_kernels.specs.Work.{worked};

use crate::key::is_next;
use crate::work::{Work, worked};
use kernel_laws::{Ask, Kernel, OneInput};
use std::alloc::Global;
use std::mem;
use tuple_values::{FieldList, Memory, Tuple};

/// Makes one tuple of all tuples of a key, on an input on which they follow one another. It keeps
/// the tuples of one key at a time.
pub(crate) struct GroupKernel {
    alloc: Global,
    names: FieldList,
    work: Work,
    run: Vec<Tuple>,
    held: Option<Tuple>,
    input: OneInput,
}

impl Drop for GroupKernel {
    fn drop(self) {
        let GroupKernel {
            alloc: _,
            names,
            work,
            run,
            held,
            input,
        } = self;
        drop(names);
        drop(work);
        drop(run);
        drop(held);
        drop(input);
    }
}

impl GroupKernel {
    /// Works on each run of equal values in these fields.
    #[tactic(auto, using(crate::proofs::SpanLemmas::make_steps))]
    pub fn make(alloc: Global, names: FieldList, work: Work) -> GroupKernel
        ensures ready { (docs : List Doc) → group_state.ready result (docs ∷ []) }
        ensures out { (docs : List Doc) → IsSortedOver names docs
            → group_state.out result (docs ∷ [])
            ≡ map (worked names work) (groups (same_key names) docs) }
        ensures width { length (group_state.ended result) ≡ 1 }
        ensures lives { group_state.failed result ≡ false }
    {
        GroupKernel {
            alloc,
            names,
            work,
            run: Vec::new(alloc),
            held: None,
            input: OneInput::open(),
        }
    }
}

impl Kernel for GroupKernel {
    ghost ended = { group_state.ended };

    ghost waits = { group_state.waits };

    ghost ready = { group_state.ready };

    ghost out = { group_state.out };

    ghost over = { group_state.over };

    ghost failed = { group_state.failed };

    ghost lean = { true };

    fn inputs(&self) -> u32 {
        1
    }

    fn ask(&mut self) -> Result<Ask, Memory> {
        let next = self.held.take();
        self.input.answer(next)
    }

    #[tactic(auto, using(crate::proofs::SpanLemmas::feed_steps))]
    fn feed(&mut self, _input: u32, tuple: Option<Tuple>) -> Result<(), Memory> {
        self.input.lives()?;
        let Some(tuple) = tuple else {
            let run = mem::replace(&mut self.run, Vec::new(self.alloc));
            let last = last_of(self.alloc, &self.names, &self.work, run);
            self.held = self.input.keep(last)?;
            self.input.end();
            return Ok(());
        };
        if is_next(&self.names, &self.run, &tuple) {
            return self.input.push(&mut self.run, tuple);
        }
        let next = self.input.keep(one(self.alloc, tuple))?;
        let run = mem::replace(&mut self.run, next);
        let made = worked(self.alloc, &self.names, &self.work, run);
        self.held = Some(self.input.keep(made)?);
        Ok(())
    }
}

// A run of one tuple.
fn one(alloc: Global, tuple: Tuple) -> Result<Vec<Tuple>, Memory>
    ensures { IfOk result (λ run. run.items ≡ tuple ∷ []) }
{
    let mut run = Vec::new(alloc);
    run.push(tuple)?;
    Ok(run)
}

// What is made of the last run, where there is one.
fn last_of(
    alloc: Global,
    names: &FieldList,
    work: &Work,
    run: Vec<Tuple>,
) -> Result<Option<Tuple>, Memory>
    ensures { IfOk result (λ last. option_to_list last
        ≡ map (worked names.now work.now) (spans (same_key names.now) run.items [])) }
{
    if run.is_empty() {
        return Ok(None);
    }
    Ok(Some(worked(alloc, names, work, run)?))
}
