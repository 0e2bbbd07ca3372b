// The first tuple of each key.
ghost use Rattle.std.specs.Prelude.{◌≡◌, List, [], ◌∷◌, true, false, length, IfOk};
ghost use Rattle.tuple_values.specs.Document.{Doc};
ghost use Rattle.expr_types.specs.Groups.{unique_list};
ghost use Rattle.expr_types.specs.Orders.{IsSortedOver};
ghost use Rattle.group_kernels.specs.UniqueState as unique;

use crate::key::same_key;
use kernel_laws::{Ask, Kernel};
use std::alloc::Global;
use tuple_values::{FieldList, Memory, TryCopy, Tuple};

/// Gives the first tuple of each key of an input on which tuples of one key follow one another.
pub struct UniqueKernel {
    over: FieldList,
    // The first of the run that goes on. It is given when the run has ended, so no copy is made.
    first: Option<Tuple>,
    held: Option<Tuple>,
    ended: bool,
}

impl Drop for UniqueKernel {
    fn drop(self) {
        let UniqueKernel {
            over,
            first,
            held,
            ended: _,
        } = self;
        drop(over);
        drop(first);
        drop(held);
    }
}

impl UniqueKernel {
    /// Gives the first tuple of each run of equal values in these fields.
    #[tactic(auto, using(crate::proofs::SpanLemmas::make_steps))]
    pub fn make(alloc: Global, over: &FieldList) -> Result<UniqueKernel, Memory>
        ensures ready { IfOk result (λ k. (docs : List Doc) → unique.ready k (docs ∷ [])) }
        ensures out { IfOk result (λ k. (docs : List Doc) → IsSortedOver over.now docs
            → unique.out k (docs ∷ []) ≡ unique_list over.now docs) }
        ensures width { IfOk result (λ k. length (unique.ended k) ≡ 1) }
        ensures lives { IfOk result (λ k. unique.failed k ≡ false) }
    {
        let over = over.copy(alloc)?;
        Ok(UniqueKernel {
            over,
            first: None,
            held: None,
            ended: false,
        })
    }
}

impl Kernel for UniqueKernel {
    ghost ended = { unique.ended };

    ghost waits = { unique.waits };

    ghost ready = { unique.ready };

    ghost out = { unique.out };

    ghost over = { unique.over };

    ghost failed = { unique.failed };

    ghost lean = { true };

    fn inputs(&self) -> u32 {
        1
    }

    fn ask(&mut self) -> Result<Ask, Memory> {
        if let Some(tuple) = self.held.take() {
            return Ok(Ask::Emit(tuple));
        }
        if !self.ended {
            return Ok(Ask::Need(0));
        }
        match self.first.take() {
            Some(tuple) => Ok(Ask::Emit(tuple)),
            None => Ok(Ask::End),
        }
    }

    #[tactic(auto, using(kernel_laws::proofs::RestLemmas::rest_steps))]
    fn feed(&mut self, _input: u32, tuple: Option<Tuple>) -> Result<(), Memory> {
        let Some(tuple) = tuple else {
            self.ended = true;
            return Ok(());
        };
        let Some(first) = self.first.take() else {
            self.first = Some(tuple);
            return Ok(());
        };
        if same_key(&self.over, &first, &tuple) {
            self.first = Some(first);
            return Ok(());
        }
        self.held = Some(first);
        self.first = Some(tuple);
        Ok(())
    }
}
