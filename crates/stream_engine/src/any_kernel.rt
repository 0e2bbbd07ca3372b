// Any kernel.
ghost use Rattle.std.specs.Prelude.{false};
ghost use Rattle.stream_engine.specs.Kernels.{any_ended, any_waits, any_ready, any_out};
ghost use Rattle.stream_engine.specs.Kernels.{any_over, any_failed};

use group_kernels::{ReduceKernel, RollupKernel, UniqueKernel};
use hash_join::HashJoinKernel;
use kernel_laws::{Ask, Kernel};
use merge_join::{ExistKernel, JoinKernel};
use order_kernels::{MergeKernel, SortKernel, TopKernel};
use row_kernels::{HavingKernel, SelectKernel};
use tuple_values::{Memory, Tuple};

/// Any of the kernels. It keeps their law.
#[derive(Drop)]
pub(crate) enum AnyKernel {
    Select(SelectKernel),
    Having(HavingKernel),
    Sort(SortKernel),
    Top(TopKernel),
    Merge(MergeKernel),
    Unique(UniqueKernel),
    Reduce(ReduceKernel),
    Rollup(RollupKernel),
    Join(JoinKernel),
    Exist(ExistKernel),
    Hash(HashJoinKernel),
}

#[tactic(auto, unfolding(crate::specs::Kernels::any_ended, crate::specs::Kernels::any_waits, crate::specs::Kernels::any_ready, crate::specs::Kernels::any_out, crate::specs::Kernels::any_over, crate::specs::Kernels::any_failed))]
impl Kernel for AnyKernel {
    ghost ended = { any_ended };

    ghost waits = { any_waits };

    ghost ready = { any_ready };

    ghost out = { any_out };

    ghost over = { any_over };

    ghost failed = { any_failed };

    ghost lean = { false };

    fn inputs(&self) -> u32 {
        match self {
            AnyKernel::Select(kernel) => kernel.inputs(),
            AnyKernel::Having(kernel) => kernel.inputs(),
            AnyKernel::Sort(kernel) => kernel.inputs(),
            AnyKernel::Top(kernel) => kernel.inputs(),
            AnyKernel::Merge(kernel) => kernel.inputs(),
            AnyKernel::Unique(kernel) => kernel.inputs(),
            AnyKernel::Reduce(kernel) => kernel.inputs(),
            AnyKernel::Rollup(kernel) => kernel.inputs(),
            AnyKernel::Join(kernel) => kernel.inputs(),
            AnyKernel::Exist(kernel) => kernel.inputs(),
            AnyKernel::Hash(kernel) => kernel.inputs(),
        }
    }

    fn ask(&mut self) -> Result<Ask, Memory> {
        match self {
            AnyKernel::Select(kernel) => kernel.ask(),
            AnyKernel::Having(kernel) => kernel.ask(),
            AnyKernel::Sort(kernel) => kernel.ask(),
            AnyKernel::Top(kernel) => kernel.ask(),
            AnyKernel::Merge(kernel) => kernel.ask(),
            AnyKernel::Unique(kernel) => kernel.ask(),
            AnyKernel::Reduce(kernel) => kernel.ask(),
            AnyKernel::Rollup(kernel) => kernel.ask(),
            AnyKernel::Join(kernel) => kernel.ask(),
            AnyKernel::Exist(kernel) => kernel.ask(),
            AnyKernel::Hash(kernel) => kernel.ask(),
        }
    }

    fn feed(&mut self, input: u32, tuple: Option<Tuple>) -> Result<(), Memory> {
        match self {
            AnyKernel::Select(kernel) => kernel.feed(input, tuple),
            AnyKernel::Having(kernel) => kernel.feed(input, tuple),
            AnyKernel::Sort(kernel) => kernel.feed(input, tuple),
            AnyKernel::Top(kernel) => kernel.feed(input, tuple),
            AnyKernel::Merge(kernel) => kernel.feed(input, tuple),
            AnyKernel::Unique(kernel) => kernel.feed(input, tuple),
            AnyKernel::Reduce(kernel) => kernel.feed(input, tuple),
            AnyKernel::Rollup(kernel) => kernel.feed(input, tuple),
            AnyKernel::Join(kernel) => kernel.feed(input, tuple),
            AnyKernel::Exist(kernel) => kernel.feed(input, tuple),
            AnyKernel::Hash(kernel) => kernel.feed(input, tuple),
        }
    }
}
