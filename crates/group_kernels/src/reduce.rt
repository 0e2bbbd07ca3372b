// Groups of equal keys, reduced.
ghost use Rattle.std.specs.Prelude.{◌≡◌, List, [], ◌∷◌, true, false, length, IfOk};
ghost use Rattle.tuple_values.specs.Document.{Doc};
ghost use Rattle.expr_types.specs.Groups.{reduce_list};
ghost use Rattle.expr_types.specs.Orders.{IsSortedOver};
ghost use Rattle.group_kernels.specs.ReduceState as reduce;

use crate::group::GroupKernel;
use crate::work::Work;
use expr_types::GroupOp;
use kernel_laws::{Ask, Kernel};
use std::alloc::Global;
use tuple_values::{FieldList, Memory, TryCopy, Tuple};

/// Gives for each key the first tuple of its group, with the first so many as the field `group`.
pub struct ReduceKernel {
    groups: GroupKernel,
}

impl Drop for ReduceKernel {
    fn drop(self) {
        let ReduceKernel { groups } = self;
        drop(groups);
    }
}

impl ReduceKernel {
    /// Reduces each run of equal values in these fields.
    pub fn make(alloc: Global, by: &FieldList, group: &GroupOp) -> Result<ReduceKernel, Memory>
        ensures ready { IfOk result (λ k. (docs : List Doc) → reduce.ready k (docs ∷ [])) }
        ensures out { IfOk result (λ k. (docs : List Doc) → IsSortedOver by.now docs
            → reduce.out k (docs ∷ []) ≡ reduce_list by.now group.now docs) }
        ensures width { IfOk result (λ k. length (reduce.ended k) ≡ 1) }
        ensures lives { IfOk result (λ k. reduce.failed k ≡ false) }
    {
        let by = by.copy(alloc)?;
        let op = group.copy(alloc)?;
        let groups = GroupKernel::make(alloc, by, Work::Reduce(op));
        Ok(ReduceKernel { groups })
    }
}

impl Kernel for ReduceKernel {
    ghost ended = { reduce.ended };

    ghost waits = { reduce.waits };

    ghost ready = { reduce.ready };

    ghost out = { reduce.out };

    ghost over = { reduce.over };

    ghost failed = { reduce.failed };

    ghost lean = { true };

    fn inputs(&self) -> u32 {
        self.groups.inputs()
    }

    fn ask(&mut self) -> Result<Ask, Memory> {
        self.groups.ask()
    }

    fn feed(&mut self, input: u32, tuple: Option<Tuple>) -> Result<(), Memory> {
        self.groups.feed(input, tuple)
    }
}
