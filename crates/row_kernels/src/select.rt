// Tuples made of the fields of others.
ghost use Rattle.std.specs.Prelude.{◌≡◌, List, [], ◌∷◌, true, false, length, IfOk};
ghost use Rattle.tuple_values.specs.Document.{Doc};
ghost use Rattle.expr_types.specs.Rows.{select_list};
ghost use Rattle.row_kernels.specs.SelectState as select;

use crate::selecting::{names_of, selected};
use expr_types::Items;
use kernel_laws::{Ask, Kernel, OneInput};
use std::alloc::Global;
use tuple_values::{Memory, TryCopy, Tuple};

/// Makes one tuple of each tuple of its input.
pub struct SelectKernel {
    alloc: Global,
    items: Items,
    // The names that the items put, shared by all that is made.
    names: Tuple,
    held: Option<Tuple>,
    input: OneInput,
}

impl Drop for SelectKernel {
    fn drop(self) {
        let SelectKernel {
            alloc: _,
            items,
            names,
            held,
            input,
        } = self;
        drop(items);
        drop(names);
        drop(held);
        drop(input);
    }
}

impl SelectKernel {
    /// Makes tuples by these items: first the fields are chosen, then the other items change the
    /// tuple in their order.
    pub fn make(alloc: Global, items: &Items) -> Result<SelectKernel, Memory>
        ensures ready { IfOk result (λ k. (docs : List Doc) → select.ready k (docs ∷ [])) }
        ensures out { IfOk result (λ k. (docs : List Doc)
            → select.out k (docs ∷ []) ≡ select_list items.now docs) }
        ensures width { IfOk result (λ k. length (select.ended k) ≡ 1) }
        ensures lives { IfOk result (λ k. select.failed k ≡ false) }
    {
        let items = items.copy(alloc)?;
        let names = names_of(alloc, items.as_slice())?;
        Ok(SelectKernel {
            alloc,
            items,
            names,
            held: None,
            input: OneInput::open(),
        })
    }
}

impl Kernel for SelectKernel {
    ghost ended = { select.ended };

    ghost waits = { select.waits };

    ghost ready = { select.ready };

    ghost out = { select.out };

    ghost over = { select.over };

    ghost failed = { select.failed };

    ghost lean = { true };

    fn inputs(&self) -> u32 {
        1
    }

    fn ask(&mut self) -> Result<Ask, Memory> {
        let next = self.held.take();
        self.input.answer(next)
    }

    #[tactic(auto, using(kernel_laws::proofs::RestLemmas::rest_steps))]
    fn feed(&mut self, _input: u32, tuple: Option<Tuple>) -> Result<(), Memory> {
        self.input.lives()?;
        let Some(tuple) = tuple else {
            self.input.end();
            return Ok(());
        };
        let made = selected(self.alloc, self.items.as_slice(), &self.names, tuple);
        self.held = Some(self.input.keep(made)?);
        Ok(())
    }
}
