// The tuples that meet a condition.
ghost use Rattle.std.specs.Prelude.{◌≡◌, List, [], ◌∷◌, true, false, length, IfOk};
ghost use Rattle.tuple_values.specs.Document.{Doc};
ghost use Rattle.expr_types.specs.ConditionViews.{condition_tree};
ghost use Rattle.expr_types.specs.Conditions.{having_list};
ghost use Rattle.row_kernels.specs.HavingState as having;

use crate::testing::holds;
use expr_types::Condition;
use kernel_laws::{Ask, Kernel, OneInput};
use std::alloc::Global;
use tuple_values::{Memory, Tuple};

/// Passes on the tuples of its input that meet a condition.
pub struct HavingKernel {
    alloc: Global,
    condition: Condition,
    held: Option<Tuple>,
    input: OneInput,
}

impl Drop for HavingKernel {
    fn drop(self) {
        let HavingKernel {
            alloc: _,
            condition,
            held,
            input,
        } = self;
        drop(condition);
        drop(held);
        drop(input);
    }
}

impl HavingKernel {
    /// Passes on the tuples that meet this condition.
    pub fn make(alloc: Global, condition: &Condition) -> Result<HavingKernel, Memory>
        ensures ready { IfOk result (λ k. (docs : List Doc) → having.ready k (docs ∷ [])) }
        ensures out { IfOk result (λ k. (docs : List Doc)
            → having.out k (docs ∷ []) ≡ having_list (condition_tree condition.now) docs) }
        ensures width { IfOk result (λ k. length (having.ended k) ≡ 1) }
        ensures lives { IfOk result (λ k. having.failed k ≡ false) }
    {
        let condition = condition.copy(alloc)?;
        Ok(HavingKernel {
            alloc,
            condition,
            held: None,
            input: OneInput::open(),
        })
    }
}

impl Kernel for HavingKernel {
    ghost ended = { having.ended };

    ghost waits = { having.waits };

    ghost ready = { having.ready };

    ghost out = { having.out };

    ghost over = { having.over };

    ghost failed = { having.failed };

    ghost lean = { true };

    fn inputs(&self) -> u32 {
        1
    }

    fn ask(&mut self) -> Result<Ask, Memory> {
        let next = self.held.take();
        self.input.answer(next)
    }

    #[tactic(auto, using(kernel_laws::proofs::RestLemmas::rest_steps))]
    fn feed(&mut self, _input: u32, tuple: Option<Tuple>) -> Result<(), Memory> {
        self.input.lives()?;
        let Some(tuple) = tuple else {
            self.input.end();
            return Ok(());
        };
        let meets = holds(self.alloc, &self.condition, &tuple);
        if self.input.keep(meets)? {
            self.held = Some(tuple);
        }
        Ok(())
    }
}
