// Copies of expressions.
ghost use Rattle.std.specs.Prelude.{◌≡◌, [], ◌∷◌, IfOk, length, map};
ghost use Rattle.expr_types.specs.ConditionViews.{condition_tree};
ghost use Rattle.expr_types.specs.ExprTree.{node, operator_in, inputs_in, inputs_of};
ghost use Rattle.expr_types.specs.ExprTree.{select, having, sort, top, unique, merge};
ghost use Rattle.expr_types.specs.ExprTree.{reduce, rollup, inner_join, left_outer_join, intersect};
ghost use Rattle.expr_types.specs.ExprTree.{complement, hash_join, outer_hash_join, in_parallel};
ghost use Rattle.expr_types.specs.ExprTree.{update, commit, daemon};
ghost use Rattle.expr_types.specs.ExprTree.{expr_tree};

use crate::source_copies::{search, topic, tuple};
use crate::{Condition, Expr, Exprs, GroupOp, Items, Metrics};
use sort_spec::{OnSpec, SortSpec};
use std::alloc::Global;
use tuple_values::{FieldList, Memory, Text, TryCopy, Tuple};

impl Expr {
    /// An expression that says the same.
    pub fn copy(&self, alloc: Global) -> Result<Expr, Memory>
        ensures { IfOk result (λ copy. expr_tree copy ≡ expr_tree self.now) }
    {
        let mut inputs = Vec::new(alloc);
        for k in 0..self.input_count() {
            inputs.push(self.input(k).copy(alloc)?)?;
        }
        over(alloc, self, inputs)
    }
}

// The same function over these inputs.
fn over(alloc: Global, expr: &Expr, inputs: Exprs) -> Result<Expr, Memory>
    requires { length inputs.items ≡ length (inputs_in (expr_tree expr.now)) }
    ensures { IfOk result (λ copy. expr_tree copy
        ≡ node (operator_in (expr_tree expr.now)) (inputs_of (map expr_tree inputs.items))) }
{
    match expr {
        Expr::Search { .. } => search(alloc, expr),
        Expr::Tuple { fields } => tuple(alloc, fields),
        Expr::Topic { .. } => topic(alloc, expr),
        Expr::Select { items, .. } => select(alloc, inputs, items),
        Expr::Having { condition, .. } => having(alloc, inputs, condition),
        Expr::Sort { by, .. } => sort(alloc, inputs, by),
        Expr::Top { n, sort, .. } => top(alloc, inputs, *n, sort),
        Expr::Unique { over, .. } => unique(alloc, inputs, over),
        Expr::Merge { on, .. } => merge(alloc, inputs, on),
        Expr::Reduce { by, group, .. } => reduce(alloc, inputs, by, group),
        Expr::Rollup { over, metrics, .. } => rollup(alloc, inputs, over, metrics),
        Expr::InnerJoin { on, .. } => inner_join(alloc, inputs, on),
        Expr::LeftOuterJoin { on, .. } => left_outer_join(alloc, inputs, on),
        Expr::Intersect { on, .. } => intersect(alloc, inputs, on),
        Expr::Complement { on, .. } => complement(alloc, inputs, on),
        Expr::HashJoin { on, .. } => hash_join(alloc, inputs, on),
        Expr::OuterHashJoin { on, .. } => outer_hash_join(alloc, inputs, on),
        Expr::Parallel {
            collection,
            workers,
            sort,
            ..
        } => parallel(alloc, inputs, collection, *workers, sort),
        Expr::Update {
            dest,
            batch_size,
            ..
        } => update(alloc, inputs, dest, *batch_size),
        Expr::Commit {
            dest,
            batch_size,
            ..
        } => commit(alloc, inputs, dest, *batch_size),
        Expr::Daemon {
            id,
            interval,
            terminate,
            ..
        } => daemon(alloc, inputs, id, *interval, *terminate),
    }
}

// The one input.
fn only(alloc: Global, inputs: Exprs) -> Result<Box<Expr>, Memory>
    requires { length inputs.items ≡ 1 }
    ensures { IfOk result (λ e. map expr_tree inputs.items ≡ expr_tree e.value ∷ []) }
{
    let mut inputs = inputs;
    Ok(Box::new(alloc, inputs.remove(0))?)
}

// The two inputs of a join.
#[derive(Drop)]
struct Pair {
    left: Box<Expr>,
    right: Box<Expr>,
}

fn both(alloc: Global, inputs: Exprs) -> Result<Pair, Memory>
    requires { length inputs.items ≡ 2 }
    ensures { IfOk result (λ p. map expr_tree inputs.items
        ≡ expr_tree p.left.value ∷ expr_tree p.right.value ∷ []) }
{
    let mut inputs = inputs;
    let left = Box::new(alloc, inputs.remove(0))?;
    let right = Box::new(alloc, inputs.remove(0))?;
    Ok(Pair { left, right })
}

fn select(alloc: Global, inputs: Exprs, items: &Items) -> Result<Expr, Memory>
    requires { length inputs.items ≡ 1 }
    ensures { IfOk result (λ copy. expr_tree copy
        ≡ node (select items.now) (inputs_of (map expr_tree inputs.items))) }
{
    let input = only(alloc, inputs)?;
    let items = items.copy(alloc)?;
    Ok(Expr::Select { input, items })
}

fn having(alloc: Global, inputs: Exprs, condition: &Condition) -> Result<Expr, Memory>
    requires { length inputs.items ≡ 1 }
    ensures { IfOk result (λ copy. expr_tree copy
        ≡ node (having (condition_tree condition.now)) (inputs_of (map expr_tree inputs.items))) }
{
    let input = only(alloc, inputs)?;
    let condition = condition.copy(alloc)?;
    Ok(Expr::Having { input, condition })
}

fn sort(alloc: Global, inputs: Exprs, by: &SortSpec) -> Result<Expr, Memory>
    requires { length inputs.items ≡ 1 }
    ensures { IfOk result (λ copy. expr_tree copy
        ≡ node (sort by.now) (inputs_of (map expr_tree inputs.items))) }
{
    let input = only(alloc, inputs)?;
    let by = by.copy(alloc)?;
    Ok(Expr::Sort { input, by })
}

fn top(alloc: Global, inputs: Exprs, n: u64, by: &SortSpec) -> Result<Expr, Memory>
    requires { length inputs.items ≡ 1 }
    ensures { IfOk result (λ copy. expr_tree copy
        ≡ node (top n by.now) (inputs_of (map expr_tree inputs.items))) }
{
    let input = only(alloc, inputs)?;
    let sort = by.copy(alloc)?;
    Ok(Expr::Top { input, n, sort })
}

fn unique(alloc: Global, inputs: Exprs, over: &FieldList) -> Result<Expr, Memory>
    requires { length inputs.items ≡ 1 }
    ensures { IfOk result (λ copy. expr_tree copy
        ≡ node (unique over.now) (inputs_of (map expr_tree inputs.items))) }
{
    let input = only(alloc, inputs)?;
    let over = over.copy(alloc)?;
    Ok(Expr::Unique { input, over })
}

fn merge(alloc: Global, inputs: Exprs, on: &SortSpec) -> Result<Expr, Memory>
    ensures { IfOk result (λ copy. expr_tree copy
        ≡ node (merge on.now) (inputs_of (map expr_tree inputs.items))) }
{
    let on = on.copy(alloc)?;
    Ok(Expr::Merge { inputs, on })
}

fn reduce(alloc: Global, inputs: Exprs, by: &FieldList, group: &GroupOp) -> Result<Expr, Memory>
    requires { length inputs.items ≡ 1 }
    ensures { IfOk result (λ copy. expr_tree copy
        ≡ node (reduce by.now group.now) (inputs_of (map expr_tree inputs.items))) }
{
    let input = only(alloc, inputs)?;
    let by = by.copy(alloc)?;
    let group = group.copy(alloc)?;
    Ok(Expr::Reduce { input, by, group })
}

fn rollup(alloc: Global, inputs: Exprs, over: &FieldList, metrics: &Metrics) -> Result<Expr, Memory>
    requires { length inputs.items ≡ 1 }
    ensures { IfOk result (λ copy. expr_tree copy
        ≡ node (rollup over.now metrics.now) (inputs_of (map expr_tree inputs.items))) }
{
    let input = only(alloc, inputs)?;
    let over = over.copy(alloc)?;
    let metrics = metrics.copy(alloc)?;
    Ok(Expr::Rollup {
        input,
        over,
        metrics,
    })
}

fn inner_join(alloc: Global, inputs: Exprs, on: &OnSpec) -> Result<Expr, Memory>
    requires { length inputs.items ≡ 2 }
    ensures { IfOk result (λ copy. expr_tree copy
        ≡ node (inner_join on.now) (inputs_of (map expr_tree inputs.items))) }
{
    let Pair { left, right } = both(alloc, inputs)?;
    let on = on.copy(alloc)?;
    Ok(Expr::InnerJoin { left, right, on })
}

fn left_outer_join(alloc: Global, inputs: Exprs, on: &OnSpec) -> Result<Expr, Memory>
    requires { length inputs.items ≡ 2 }
    ensures { IfOk result (λ copy. expr_tree copy
        ≡ node (left_outer_join on.now) (inputs_of (map expr_tree inputs.items))) }
{
    let Pair { left, right } = both(alloc, inputs)?;
    let on = on.copy(alloc)?;
    Ok(Expr::LeftOuterJoin { left, right, on })
}

fn intersect(alloc: Global, inputs: Exprs, on: &OnSpec) -> Result<Expr, Memory>
    requires { length inputs.items ≡ 2 }
    ensures { IfOk result (λ copy. expr_tree copy
        ≡ node (intersect on.now) (inputs_of (map expr_tree inputs.items))) }
{
    let Pair { left, right } = both(alloc, inputs)?;
    let on = on.copy(alloc)?;
    Ok(Expr::Intersect { left, right, on })
}

fn complement(alloc: Global, inputs: Exprs, on: &OnSpec) -> Result<Expr, Memory>
    requires { length inputs.items ≡ 2 }
    ensures { IfOk result (λ copy. expr_tree copy
        ≡ node (complement on.now) (inputs_of (map expr_tree inputs.items))) }
{
    let Pair { left, right } = both(alloc, inputs)?;
    let on = on.copy(alloc)?;
    Ok(Expr::Complement { left, right, on })
}

fn hash_join(alloc: Global, inputs: Exprs, on: &OnSpec) -> Result<Expr, Memory>
    requires { length inputs.items ≡ 2 }
    ensures { IfOk result (λ copy. expr_tree copy
        ≡ node (hash_join on.now) (inputs_of (map expr_tree inputs.items))) }
{
    let Pair {
        left: input,
        right: hashed,
    } = both(alloc, inputs)?;
    let on = on.copy(alloc)?;
    Ok(Expr::HashJoin { input, hashed, on })
}

fn outer_hash_join(alloc: Global, inputs: Exprs, on: &OnSpec) -> Result<Expr, Memory>
    requires { length inputs.items ≡ 2 }
    ensures { IfOk result (λ copy. expr_tree copy
        ≡ node (outer_hash_join on.now) (inputs_of (map expr_tree inputs.items))) }
{
    let Pair {
        left: input,
        right: hashed,
    } = both(alloc, inputs)?;
    let on = on.copy(alloc)?;
    Ok(Expr::OuterHashJoin { input, hashed, on })
}

fn parallel(
    alloc: Global,
    inputs: Exprs,
    collection: &Text,
    workers: u16,
    by: &SortSpec,
) -> Result<Expr, Memory>
    requires { length inputs.items ≡ 1 }
    ensures { IfOk result (λ copy. expr_tree copy
        ≡ node (in_parallel collection.now workers by.now) (inputs_of (map expr_tree inputs.items))) }
{
    let input = only(alloc, inputs)?;
    let collection = collection.copy(alloc)?;
    let sort = by.copy(alloc)?;
    Ok(Expr::Parallel {
        input,
        collection,
        workers,
        sort,
    })
}

fn update(alloc: Global, inputs: Exprs, dest: &Text, batch_size: u64) -> Result<Expr, Memory>
    requires { length inputs.items ≡ 1 }
    ensures { IfOk result (λ copy. expr_tree copy
        ≡ node (update dest.now batch_size) (inputs_of (map expr_tree inputs.items))) }
{
    let input = only(alloc, inputs)?;
    let dest = dest.copy(alloc)?;
    Ok(Expr::Update {
        input,
        dest,
        batch_size,
    })
}

fn commit(
    alloc: Global,
    inputs: Exprs,
    dest: &Text,
    batch_size: Option<u64>,
) -> Result<Expr, Memory>
    requires { length inputs.items ≡ 1 }
    ensures { IfOk result (λ copy. expr_tree copy
        ≡ node (commit dest.now batch_size) (inputs_of (map expr_tree inputs.items))) }
{
    let input = only(alloc, inputs)?;
    let dest = dest.copy(alloc)?;
    Ok(Expr::Commit {
        input,
        dest,
        batch_size,
    })
}

fn daemon(
    alloc: Global,
    inputs: Exprs,
    id: &Text,
    interval: u64,
    terminate: bool,
) -> Result<Expr, Memory>
    requires { length inputs.items ≡ 1 }
    ensures { IfOk result (λ copy. expr_tree copy
        ≡ node (daemon id.now interval terminate) (inputs_of (map expr_tree inputs.items))) }
{
    let input = only(alloc, inputs)?;
    let id = id.copy(alloc)?;
    Ok(Expr::Daemon {
        input,
        id,
        interval,
        terminate,
    })
}
