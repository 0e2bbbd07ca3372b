// All tuples of an input in order.
ghost use Rattle.std.specs.Prelude.{◌≡◌, List, [], ◌∷◌, true, false, length, IfOk};
ghost use Rattle.tuple_values.specs.Document.{Doc};
ghost use Rattle.expr_types.specs.Orders.{sort_list};
ghost use Rattle.order_kernels.specs.SortState as sort;

use crate::sorted::sorted_back;
use kernel_laws::{Ask, Kernel, OneInput};
use sort_spec::SortSpec;
use std::alloc::Global;
use std::mem;
use tuple_values::{Memory, TryCopy, Tuple};

/// Takes all tuples of its input, and gives them in order.
pub struct SortKernel {
    alloc: Global,
    by: SortSpec,
    // From the end of the input on what is still to be given, the last in front.
    taken: Vec<Tuple>,
    input: OneInput,
}

impl Drop for SortKernel {
    fn drop(self) {
        let SortKernel {
            alloc: _,
            by,
            taken,
            input,
        } = self;
        drop(by);
        drop(taken);
        drop(input);
    }
}

impl SortKernel {
    /// Sorts by these terms; tuples that tie stay in their order.
    pub fn make(alloc: Global, by: &SortSpec) -> Result<SortKernel, Memory>
        ensures ready { IfOk result (λ k. (docs : List Doc) → sort.ready k (docs ∷ [])) }
        ensures out { IfOk result (λ k. (docs : List Doc)
            → sort.out k (docs ∷ []) ≡ sort_list by.now docs) }
        ensures width { IfOk result (λ k. length (sort.ended k) ≡ 1) }
        ensures lives { IfOk result (λ k. sort.failed k ≡ false) }
    {
        let by = by.copy(alloc)?;
        Ok(SortKernel {
            alloc,
            by,
            taken: Vec::new(alloc),
            input: OneInput::open(),
        })
    }
}

impl Kernel for SortKernel {
    ghost ended = { sort.ended };

    ghost waits = { sort.waits };

    ghost ready = { sort.ready };

    ghost out = { sort.out };

    ghost over = { sort.over };

    ghost failed = { sort.failed };

    ghost lean = { true };

    fn inputs(&self) -> u32 {
        1
    }

    fn ask(&mut self) -> Result<Ask, Memory> {
        if !self.input.has_ended() {
            return self.input.answer(None);
        }
        let next = self.taken.pop();
        self.input.answer(next)
    }

    #[tactic(auto, using(kernel_laws::proofs::RestLemmas::rest_steps))]
    fn feed(&mut self, _input: u32, tuple: Option<Tuple>) -> Result<(), Memory> {
        self.input.lives()?;
        let Some(tuple) = tuple else {
            let taken = mem::replace(&mut self.taken, Vec::new(self.alloc));
            let sorted = sorted_back(taken, &self.by);
            self.taken = self.input.keep(sorted)?;
            self.input.end();
            return Ok(());
        };
        self.input.push(&mut self.taken, tuple)
    }
}
