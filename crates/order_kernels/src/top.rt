// The first tuples of an input by a sort.
ghost use Rattle.std.specs.Prelude.{◌≡◌, List, [], ◌∷◌, ◌++◌, reverse, true, false, length, IfOk};
ghost use Rattle.std.specs.Prelude.{◌+◌, ◌*◌, ◌≤◌, vec_len};
ghost use Rattle.tuple_values.specs.Document.{Doc};
ghost use Rattle.expr_types.specs.Orders.{top_list};
ghost use Rattle.order_kernels.specs.TopState as top;

use crate::sorted::first_sorted;
use crate::top_state::TopKernel;
use kernel_laws::{Ask, Kernel, OneInput};
use sort_spec::SortSpec;
use std::alloc::Global;
use std::mem;
use tuple_values::{Memory, TryCopy, Tuple};

impl TopKernel {
    /// Gives the first `n` by these terms; tuples that tie stay in their order.
    pub fn make(alloc: Global, n: u64, sort: &SortSpec) -> Result<TopKernel, Memory>
        ensures ready { IfOk result (λ k. (docs : List Doc) → top.ready k (docs ∷ [])) }
        ensures out { IfOk result (λ k. (docs : List Doc)
            → top.out k (docs ∷ []) ≡ top_list n sort.now docs) }
        ensures width { IfOk result (λ k. length (top.ended k) ≡ 1) }
        ensures lives { IfOk result (λ k. top.failed k ≡ false) }
    {
        let sort = sort.copy(alloc)?;
        Ok(TopKernel {
            alloc,
            n,
            sort,
            taken: Vec::new(alloc),
            input: OneInput::open(),
        })
    }
}

// The tuples and one more. Where there are more than twice `n`, only the first `n` are kept.
fn with_one(taken: Vec<Tuple>, tuple: Tuple, n: u64, sort: &SortSpec) -> Result<Vec<Tuple>, Memory>
    ensures first { IfOk result (λ kept. (rest : List Doc)
        → top_list n sort.now (kept.items ++ rest)
        ≡ top_list n sort.now (taken.items ++ tuple ∷ rest)) }
    ensures few { IfOk result (λ kept. vec_len kept ≤ 2 * n + 1) }
{
    let mut all = taken;
    all.push(tuple)?;
    if all.len() as u64 / 2 <= n {
        return Ok(all);
    }
    let first = first_sorted(all, n, sort)?;
    Ok(first)
}

// The first `n`, the last in front.
fn first_back(taken: Vec<Tuple>, n: u64, sort: &SortSpec) -> Result<Vec<Tuple>, Memory>
    ensures first { IfOk result (λ first. reverse first.items ≡ top_list n sort.now taken.items) }
    ensures few { IfOk result (λ first. vec_len first ≤ n) }
{
    let mut first = first_sorted(taken, n, sort)?;
    first.reverse();
    Ok(first)
}

impl Kernel for TopKernel {
    ghost ended = { top.ended };

    ghost waits = { top.waits };

    ghost ready = { top.ready };

    ghost out = { top.out };

    ghost over = { top.over };

    ghost failed = { top.failed };

    ghost lean = { true };

    fn inputs(&self) -> u32 {
        1
    }

    fn ask(&mut self) -> Result<Ask, Memory> {
        if !self.input.has_ended() {
            return self.input.answer(None);
        }
        let next = self.taken.pop();
        self.input.answer(next)
    }

    #[tactic(auto, using(kernel_laws::proofs::RestLemmas::rest_steps))]
    fn feed(&mut self, _input: u32, tuple: Option<Tuple>) -> Result<(), Memory> {
        self.input.lives()?;
        let taken = mem::replace(&mut self.taken, Vec::new(self.alloc));
        let Some(tuple) = tuple else {
            let first = first_back(taken, self.n, &self.sort);
            self.taken = self.input.keep(first)?;
            self.input.end();
            return Ok(());
        };
        let kept = with_one(taken, tuple, self.n, &self.sort);
        self.taken = self.input.keep(kept)?;
        Ok(())
    }
}
