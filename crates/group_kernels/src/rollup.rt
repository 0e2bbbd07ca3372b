// Groups of equal keys, in numbers.
ghost use Rattle.std.specs.Prelude.{◌≡◌, List, [], ◌∷◌, true, false, length, IfOk};
ghost use Rattle.tuple_values.specs.Document.{Doc};
ghost use Rattle.expr_types.specs.Groups.{rollup_list};
ghost use Rattle.expr_types.specs.Orders.{IsSortedOver};
ghost use Rattle.group_kernels.specs.RollupState as rollup;

use crate::group::GroupKernel;
use crate::named::all_named;
use crate::work::Work;
use expr_types::Metrics;
use kernel_laws::{Ask, Kernel};
use std::alloc::Global;
use tuple_values::{FieldList, Memory, TryCopy, Tuple};

/// Gives for each key its fields and the metrics of its tuples.
pub struct RollupKernel {
    groups: GroupKernel,
}

impl Drop for RollupKernel {
    fn drop(self) {
        let RollupKernel { groups } = self;
        drop(groups);
    }
}

impl RollupKernel {
    /// Rolls up each run of equal values in these fields.
    pub fn make(alloc: Global, over: &FieldList, metrics: &Metrics) -> Result<RollupKernel, Memory>
        ensures ready { IfOk result (λ k. (docs : List Doc) → rollup.ready k (docs ∷ [])) }
        ensures out { IfOk result (λ k. (docs : List Doc) → IsSortedOver over.now docs
            → rollup.out k (docs ∷ []) ≡ rollup_list over.now metrics.now docs) }
        ensures width { IfOk result (λ k. length (rollup.ended k) ≡ 1) }
        ensures lives { IfOk result (λ k. rollup.failed k ≡ false) }
    {
        let over = over.copy(alloc)?;
        let metrics = all_named(alloc, metrics.as_slice())?;
        let groups = GroupKernel::make(alloc, over, Work::Rollup(metrics));
        Ok(RollupKernel { groups })
    }
}

impl Kernel for RollupKernel {
    ghost ended = { rollup.ended };

    ghost waits = { rollup.waits };

    ghost ready = { rollup.ready };

    ghost out = { rollup.out };

    ghost over = { rollup.over };

    ghost failed = { rollup.failed };

    ghost lean = { true };

    fn inputs(&self) -> u32 {
        self.groups.inputs()
    }

    fn ask(&mut self) -> Result<Ask, Memory> {
        self.groups.ask()
    }

    fn feed(&mut self, input: u32, tuple: Option<Tuple>) -> Result<(), Memory> {
        self.groups.feed(input, tuple)
    }
}
