// Streams of kernels over their inputs.
ghost use Rattle.std.specs.Prelude.{◌≡◌, List, [], ◌∷◌, length, IfOk, false, if◌then◌else◌};
ghost use Rattle.std.specs.List.{AllByRecursion};
ghost use Rattle.tuple_values.specs.Document.{Doc};
ghost use Rattle.sort_spec.specs.Sorting.{IsAscending};
ghost use Rattle.sort_spec.specs.Terms.{less};
ghost use Rattle.expr_types.specs.ConditionViews.{condition_tree};
ghost use Rattle.expr_types.specs.Conditions.{having_list};
ghost use Rattle.expr_check.specs.Orders.{directions_of};
ghost use Rattle.expr_types.specs.ExprTree.{first_or, second_or};
ghost use Rattle.expr_types.specs.Joins.{join_list, outer_join_list, exist_list, AreJoinable};
ghost use Rattle.expr_types.specs.Groups.{unique_list, reduce_list, rollup_list};
ghost use Rattle.expr_types.specs.Orders.{sort_list, top_list, merge_list, IsSortedOver};
ghost use Rattle.expr_types.specs.Rows.{select_list};
ghost use Rattle.stream_engine.specs.Flows.{rests_of};
ghost use Rattle.stream_engine.specs.Kernels.{any_out, any_ready, any_ended};

use crate::Stream;
use crate::any_kernel::AnyKernel;
use expr_check::{Order, join_order};
use expr_types::{Condition, GroupOp, Items, Metrics};
use group_kernels::{ReduceKernel, RollupKernel, UniqueKernel};
use hash_join::HashJoinKernel;
use merge_join::{ExistKernel, JoinKernel};
use order_kernels::{MergeKernel, SortKernel, TopKernel};
use row_kernels::{HavingKernel, SelectKernel};
use sort_spec::{OnSpec, SortSpec};
use std::alloc::Global;
use tuple_values::{FieldList, Memory};

// A stream of what a kernel makes of its one input.
fn over_one(alloc: Global, kernel: AnyKernel, input: Stream) -> Result<Stream, Memory>
    requires ready { (docs : List Doc) → any_ready kernel (docs ∷ []) }
    requires width { length (any_ended kernel) ≡ 1 }
    ensures list { IfOk result (λ stream. stream.0 ≡ any_out kernel (input.0 ∷ [])) }
    ensures lives { IfOk result (λ stream. stream.2 ≡ false) }
{
    let inputs = Vec::from_array(alloc, [input])?;
    Ok(Stream::over(kernel, inputs))
}

/// The stream of a select.
#[tactic(auto, unfolding(crate::specs::Kernels::any_ended, crate::specs::Kernels::any_ready, crate::specs::Kernels::any_out))]
pub(crate) fn select(alloc: Global, input: Stream, items: &Items) -> Result<Stream, Memory>
    ensures list { IfOk result (λ stream. stream.0 ≡ select_list items.now input.0) }
    ensures lives { IfOk result (λ stream. stream.2 ≡ false) }
{
    let kernel = SelectKernel::make(alloc, items)?;
    over_one(alloc, AnyKernel::Select(kernel), input)
}

/// The stream of a having.
#[tactic(auto, unfolding(crate::specs::Kernels::any_ended, crate::specs::Kernels::any_ready, crate::specs::Kernels::any_out))]
pub(crate) fn having(alloc: Global, input: Stream, condition: &Condition) -> Result<Stream, Memory>
    ensures list { IfOk result (λ stream. stream.0
        ≡ having_list (condition_tree condition.now) input.0) }
    ensures lives { IfOk result (λ stream. stream.2 ≡ false) }
{
    let kernel = HavingKernel::make(alloc, condition)?;
    over_one(alloc, AnyKernel::Having(kernel), input)
}

/// The stream of a sort.
#[tactic(auto, unfolding(crate::specs::Kernels::any_ended, crate::specs::Kernels::any_ready, crate::specs::Kernels::any_out))]
pub(crate) fn sort(alloc: Global, input: Stream, by: &SortSpec) -> Result<Stream, Memory>
    ensures list { IfOk result (λ stream. stream.0 ≡ sort_list by.now input.0) }
    ensures lives { IfOk result (λ stream. stream.2 ≡ false) }
{
    let kernel = SortKernel::make(alloc, by)?;
    over_one(alloc, AnyKernel::Sort(kernel), input)
}

/// The stream of a top.
#[tactic(auto, unfolding(crate::specs::Kernels::any_ended, crate::specs::Kernels::any_ready, crate::specs::Kernels::any_out))]
pub(crate) fn top(alloc: Global, input: Stream, n: u64, sort: &SortSpec) -> Result<Stream, Memory>
    ensures list { IfOk result (λ stream. stream.0 ≡ top_list n sort.now input.0) }
    ensures lives { IfOk result (λ stream. stream.2 ≡ false) }
{
    let kernel = TopKernel::make(alloc, n, sort)?;
    over_one(alloc, AnyKernel::Top(kernel), input)
}

/// The stream of a unique.
#[tactic(auto, unfolding(crate::specs::Kernels::any_ended, crate::specs::Kernels::any_ready, crate::specs::Kernels::any_out))]
pub(crate) fn unique(alloc: Global, input: Stream, over: &FieldList) -> Result<Stream, Memory>
    requires { IsSortedOver over.now input.0 }
    ensures list { IfOk result (λ stream. stream.0 ≡ unique_list over.now input.0) }
    ensures lives { IfOk result (λ stream. stream.2 ≡ false) }
{
    let kernel = UniqueKernel::make(alloc, over)?;
    over_one(alloc, AnyKernel::Unique(kernel), input)
}

/// The stream of a reduce.
#[tactic(auto, unfolding(crate::specs::Kernels::any_ended, crate::specs::Kernels::any_ready, crate::specs::Kernels::any_out))]
pub(crate) fn reduce(
    alloc: Global,
    input: Stream,
    by: &FieldList,
    group: &GroupOp,
) -> Result<Stream, Memory>
    requires { IsSortedOver by.now input.0 }
    ensures list { IfOk result (λ stream. stream.0 ≡ reduce_list by.now group.now input.0) }
    ensures lives { IfOk result (λ stream. stream.2 ≡ false) }
{
    let kernel = ReduceKernel::make(alloc, by, group)?;
    over_one(alloc, AnyKernel::Reduce(kernel), input)
}

/// The stream of a rollup.
#[tactic(auto, unfolding(crate::specs::Kernels::any_ended, crate::specs::Kernels::any_ready, crate::specs::Kernels::any_out))]
pub(crate) fn rollup(
    alloc: Global,
    input: Stream,
    over: &FieldList,
    metrics: &Metrics,
) -> Result<Stream, Memory>
    requires { IsSortedOver over.now input.0 }
    ensures list { IfOk result (λ stream. stream.0 ≡ rollup_list over.now metrics.now input.0) }
    ensures lives { IfOk result (λ stream. stream.2 ≡ false) }
{
    let kernel = RollupKernel::make(alloc, over, metrics)?;
    over_one(alloc, AnyKernel::Rollup(kernel), input)
}

/// The stream of a merge. Of 2^32 inputs or more it answers a want of memory.
#[tactic(auto, unfolding(crate::specs::Kernels::any_ended, crate::specs::Kernels::any_ready, crate::specs::Kernels::any_out))]
pub(crate) fn merge(alloc: Global, inputs: Vec<Stream>, on: &SortSpec) -> Result<Stream, Memory>
    requires { AllByRecursion (IsAscending (less on.now)) (rests_of inputs.items) }
    ensures list { IfOk result (λ stream. stream.0 ≡ merge_list on.now (rests_of inputs.items)) }
    ensures lives { IfOk result (λ stream. stream.2 ≡ false) }
{
    let Ok(count) = u32::try_from(inputs.len()) else {
        return Err(Memory::OutOfMemory);
    };
    let kernel = MergeKernel::make(alloc, count, on)?;
    Ok(Stream::over(AnyKernel::Merge(kernel), inputs))
}

/// The stream of an inner join, or of an outer one, over a left and a right input of these orders.
#[tactic(auto, unfolding(crate::specs::Kernels::any_ended, crate::specs::Kernels::any_ready, crate::specs::Kernels::any_out))]
pub(crate) fn join(
    alloc: Global,
    outer: bool,
    inputs: Vec<Stream>,
    on: &OnSpec,
    orders: &[Order],
) -> Result<Stream, Memory>
    requires two { length inputs.items ≡ 2 }
    requires sorted { AreJoinable on.now (directions_of orders.now) (rests_of inputs.items) }
    ensures list { IfOk result (λ stream.
        let lefts = first_or [] (rests_of inputs.items) in
        let rights = second_or [] (rests_of inputs.items) in stream.0
        ≡ (if outer then outer_join_list on.now lefts rights
        else join_list on.now lefts rights)) }
    ensures lives { IfOk result (λ stream. stream.2 ≡ false) }
{
    let order = join_order(alloc, on, orders)?;
    let kernel = JoinKernel::make(alloc, outer, on, &order)?;
    Ok(Stream::over(AnyKernel::Join(kernel), inputs))
}

/// The stream of an intersect where `keep` is set, else of a complement.
#[tactic(auto, unfolding(crate::specs::Kernels::any_ended, crate::specs::Kernels::any_ready, crate::specs::Kernels::any_out))]
pub(crate) fn exist(
    alloc: Global,
    keep: bool,
    inputs: Vec<Stream>,
    on: &OnSpec,
    orders: &[Order],
) -> Result<Stream, Memory>
    requires two { length inputs.items ≡ 2 }
    requires sorted { AreJoinable on.now (directions_of orders.now) (rests_of inputs.items) }
    ensures list { IfOk result (λ stream. stream.0 ≡ exist_list keep on.now
        (first_or [] (rests_of inputs.items)) (second_or [] (rests_of inputs.items))) }
    ensures lives { IfOk result (λ stream. stream.2 ≡ false) }
{
    let order = join_order(alloc, on, orders)?;
    let kernel = ExistKernel::make(alloc, keep, on, &order)?;
    Ok(Stream::over(AnyKernel::Exist(kernel), inputs))
}

/// The stream of a hash join, or of an outer one, over an input and the one that is hashed.
#[tactic(auto, unfolding(crate::specs::Kernels::any_ended, crate::specs::Kernels::any_ready, crate::specs::Kernels::any_out))]
pub(crate) fn hash_join(
    alloc: Global,
    outer: bool,
    inputs: Vec<Stream>,
    on: &OnSpec,
) -> Result<Stream, Memory>
    requires { length inputs.items ≡ 2 }
    ensures list { IfOk result (λ stream.
        let lefts = first_or [] (rests_of inputs.items) in
        let rights = second_or [] (rests_of inputs.items) in stream.0
        ≡ (if outer then outer_join_list on.now lefts rights
        else join_list on.now lefts rights)) }
    ensures lives { IfOk result (λ stream. stream.2 ≡ false) }
{
    let kernel = HashJoinKernel::make(alloc, outer, on)?;
    Ok(Stream::over(AnyKernel::Hash(kernel), inputs))
}
