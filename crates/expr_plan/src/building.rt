// The expression of a function with its parameters and inputs.
ghost use Rattle.std.specs.Prelude.{◌≡◌, [], ◌∷◌, IfOk, OnOk, length, map, option_map, codes, true};
ghost use Rattle.expr_plan.specs.Arguments.{walked};
ghost use Rattle.expr_types.specs.ConditionViews.{condition_tree};
ghost use Rattle.expr_types.specs.ExprTree.{node, inputs_of, tuple};
ghost use Rattle.expr_types.specs.ExprTree.{expr_tree};
ghost use Rattle.expr_plan.specs.Functions.{takes_all};
ghost use Rattle.expr_plan.specs.Given.{param_at, pairs_in};
ghost use Rattle.expr_plan.specs.Operators.{operator_of, search_of, topic_of, condition_or_all, with_field, with_fields};

use crate::param::{Given, Param, Params};
use crate::row::Function;
use crate::{Condition, Expr, Exprs};
use sort_spec::OnSpec;
use std::alloc::Global;
use tuple_values::{Memory, Tuple};

// A search with these parameters.
fn search(alloc: Global, mut params: Params) -> Expr
    ensures { expr_tree result ≡ node (search_of params.items.items) (inputs_of []) }
{
    let collection = params.take_text(alloc, "collection");
    let q = params.take_query(alloc, "q");
    let fl = params.take_names(alloc, "fl");
    let sort = params.take_sort(alloc, "sort");
    let rows = params.take_number("rows");
    let partition_keys = params.take_names_maybe("partitionKeys");
    Expr::Search {
        collection,
        q,
        fl,
        sort,
        rows,
        partition_keys,
    }
}

fn put_field(tuple: &mut Tuple, given: Given) -> Result<(), Memory>
    ensures { OnOk result (tuple.new ≡ with_field tuple.old given.name given.param) }
{
    let Given { name, param } = given;
    match param {
        Param::Literal(value) => {
            tuple.put(name, value)?;
        }
        rest => drop(rest),
    }
    Ok(())
}

// A tuple of these parameters.
#[tactic(auto, using(crate::proofs::GivenLemmas::field_steps))]
fn tuple(alloc: Global, params: Params) -> Result<Expr, Memory>
    ensures { IfOk result (λ e. expr_tree e
        ≡ node (tuple (with_fields [] params.items.items)) (inputs_of [])) }
{
    let mut fields = Tuple::empty(alloc);
    for given in params.into_vec() {
        put_field(&mut fields, given)?;
    }
    Ok(Expr::Tuple { fields })
}

// The one input.
fn only(alloc: Global, inputs: Exprs) -> Result<Box<Expr>, Memory>
    requires { length inputs.items ≡ 1 }
    ensures { IfOk result (λ e. map expr_tree inputs.items ≡ expr_tree e.value ∷ []) }
{
    let mut inputs = inputs;
    Ok(Box::new(alloc, inputs.remove(0))?)
}

// The condition that was given.
fn condition_or_all(alloc: Global, condition: Option<Condition>) -> Condition
    ensures { condition_tree result ≡ condition_or_all (option_map condition_tree condition) }
{
    match condition {
        Some(condition) => condition,
        None => Condition::All(Vec::new(alloc)),
    }
}

fn select(alloc: Global, params: Params, inputs: Exprs) -> Result<Expr, Memory>
    requires { length inputs.items ≡ 1 }
    ensures { IfOk result (λ e. expr_tree e
        ≡ node (operator_of Function.Select (walked params)) (inputs_of (map expr_tree inputs.items))) }
{
    let input = only(alloc, inputs)?;
    let items = params.into_items(alloc)?;
    Ok(Expr::Select { input, items })
}

fn having(alloc: Global, mut params: Params, inputs: Exprs) -> Result<Expr, Memory>
    requires { length inputs.items ≡ 1 }
    ensures { IfOk result (λ e. expr_tree e
        ≡ node (operator_of Function.Having (walked params)) (inputs_of (map expr_tree inputs.items))) }
{
    let input = only(alloc, inputs)?;
    let condition = condition_or_all(alloc, params.take_condition());
    Ok(Expr::Having { input, condition })
}

fn sort(alloc: Global, mut params: Params, inputs: Exprs) -> Result<Expr, Memory>
    requires { length inputs.items ≡ 1 }
    ensures { IfOk result (λ e. expr_tree e
        ≡ node (operator_of Function.Sort (walked params)) (inputs_of (map expr_tree inputs.items))) }
{
    let input = only(alloc, inputs)?;
    let by = params.take_sort(alloc, "by");
    Ok(Expr::Sort { input, by })
}

fn top(alloc: Global, mut params: Params, inputs: Exprs) -> Result<Expr, Memory>
    requires { length inputs.items ≡ 1 }
    ensures { IfOk result (λ e. expr_tree e
        ≡ node (operator_of Function.Top (walked params)) (inputs_of (map expr_tree inputs.items))) }
{
    let input = only(alloc, inputs)?;
    let n = params.take_count_or("n", 0);
    let sort = params.take_sort(alloc, "sort");
    Ok(Expr::Top { input, n, sort })
}

fn unique(alloc: Global, mut params: Params, inputs: Exprs) -> Result<Expr, Memory>
    requires { length inputs.items ≡ 1 }
    ensures { IfOk result (λ e. expr_tree e
        ≡ node (operator_of Function.Unique (walked params)) (inputs_of (map expr_tree inputs.items))) }
{
    let input = only(alloc, inputs)?;
    let over = params.take_names(alloc, "over");
    Ok(Expr::Unique { input, over })
}

fn merge(alloc: Global, mut params: Params, inputs: Exprs) -> Expr
    ensures { expr_tree result
        ≡ node (operator_of Function.Merge (walked params)) (inputs_of (map expr_tree inputs.items)) }
{
    let on = params.take_sort(alloc, "on");
    Expr::Merge { inputs, on }
}

fn reduce(alloc: Global, mut params: Params, inputs: Exprs) -> Result<Expr, Memory>
    requires { length inputs.items ≡ 1 }
    ensures { IfOk result (λ e. expr_tree e
        ≡ node (operator_of Function.Reduce (walked params)) (inputs_of (map expr_tree inputs.items))) }
{
    let input = only(alloc, inputs)?;
    let by = params.take_names(alloc, "by");
    let group = params.take_group(alloc, "group");
    Ok(Expr::Reduce { input, by, group })
}

fn rollup(alloc: Global, mut params: Params, inputs: Exprs) -> Result<Expr, Memory>
    requires { length inputs.items ≡ 1 }
    ensures { IfOk result (λ e. expr_tree e
        ≡ node (operator_of Function.Rollup (walked params)) (inputs_of (map expr_tree inputs.items))) }
{
    let input = only(alloc, inputs)?;
    let over = params.take_names(alloc, "over");
    let metrics = params.into_metrics(alloc)?;
    Ok(Expr::Rollup {
        input,
        over,
        metrics,
    })
}

// The two inputs, the first before the second.
fn two(alloc: Global, inputs: Exprs) -> Result<(Box<Expr>, Box<Expr>), Memory>
    requires { length inputs.items ≡ 2 }
    ensures { IfOk result (λ both.
        map expr_tree inputs.items ≡ expr_tree both.0.value ∷ expr_tree both.1.value ∷ []) }
{
    let mut inputs = inputs;
    let second = Box::new(alloc, inputs.remove(1))?;
    let first = Box::new(alloc, inputs.remove(0))?;
    Ok((first, second))
}

// The two inputs of a join, the first before the second, and its pairs.
fn paired(
    alloc: Global,
    mut params: Params,
    inputs: Exprs,
) -> Result<(Box<Expr>, Box<Expr>, OnSpec), Memory>
    requires { length inputs.items ≡ 2 }
    ensures inputs { IfOk result (λ parts.
        map expr_tree inputs.items ≡ expr_tree parts.0.value ∷ expr_tree parts.1.value ∷ []) }
    ensures on { IfOk result (λ parts.
        parts.2 ≡ pairs_in (param_at (codes "on") params.items.items)) }
{
    let (first, second) = two(alloc, inputs)?;
    Ok((first, second, params.take_pairs(alloc, "on")))
}

fn inner_join(alloc: Global, params: Params, inputs: Exprs) -> Result<Expr, Memory>
    requires { length inputs.items ≡ 2 }
    ensures { IfOk result (λ e. expr_tree e
        ≡ node (operator_of Function.InnerJoin (walked params)) (inputs_of (map expr_tree inputs.items))) }
{
    let (left, right, on) = paired(alloc, params, inputs)?;
    Ok(Expr::InnerJoin { left, right, on })
}

fn left_outer_join(alloc: Global, params: Params, inputs: Exprs) -> Result<Expr, Memory>
    requires { length inputs.items ≡ 2 }
    ensures { IfOk result (λ e. expr_tree e
        ≡ node (operator_of Function.LeftOuterJoin (walked params)) (inputs_of (map expr_tree inputs.items))) }
{
    let (left, right, on) = paired(alloc, params, inputs)?;
    Ok(Expr::LeftOuterJoin { left, right, on })
}

fn intersect(alloc: Global, params: Params, inputs: Exprs) -> Result<Expr, Memory>
    requires { length inputs.items ≡ 2 }
    ensures { IfOk result (λ e. expr_tree e
        ≡ node (operator_of Function.Intersect (walked params)) (inputs_of (map expr_tree inputs.items))) }
{
    let (left, right, on) = paired(alloc, params, inputs)?;
    Ok(Expr::Intersect { left, right, on })
}

fn complement(alloc: Global, params: Params, inputs: Exprs) -> Result<Expr, Memory>
    requires { length inputs.items ≡ 2 }
    ensures { IfOk result (λ e. expr_tree e
        ≡ node (operator_of Function.Complement (walked params)) (inputs_of (map expr_tree inputs.items))) }
{
    let (left, right, on) = paired(alloc, params, inputs)?;
    Ok(Expr::Complement { left, right, on })
}

fn hash_join(alloc: Global, params: Params, inputs: Exprs) -> Result<Expr, Memory>
    requires { length inputs.items ≡ 2 }
    ensures { IfOk result (λ e. expr_tree e
        ≡ node (operator_of Function.HashJoin (walked params)) (inputs_of (map expr_tree inputs.items))) }
{
    let (input, hashed, on) = paired(alloc, params, inputs)?;
    Ok(Expr::HashJoin { input, hashed, on })
}

fn outer_hash_join(alloc: Global, params: Params, inputs: Exprs) -> Result<Expr, Memory>
    requires { length inputs.items ≡ 2 }
    ensures { IfOk result (λ e. expr_tree e
        ≡ node (operator_of Function.OuterHashJoin (walked params)) (inputs_of (map expr_tree inputs.items))) }
{
    let (input, hashed, on) = paired(alloc, params, inputs)?;
    Ok(Expr::OuterHashJoin { input, hashed, on })
}

fn parallel(alloc: Global, mut params: Params, inputs: Exprs) -> Result<Expr, Memory>
    requires { length inputs.items ≡ 1 }
    ensures { IfOk result (λ e. expr_tree e
        ≡ node (operator_of Function.Parallel (walked params)) (inputs_of (map expr_tree inputs.items))) }
{
    let input = only(alloc, inputs)?;
    let collection = params.take_text(alloc, "workerCollection");
    let workers = params.take_small("workers");
    let sort = params.take_sort(alloc, "sort");
    Ok(Expr::Parallel {
        input,
        collection,
        workers,
        sort,
    })
}

// A topic with these parameters.
fn topic(alloc: Global, mut params: Params) -> Expr
    ensures { expr_tree result ≡ node (topic_of params.items.items) (inputs_of []) }
{
    let checkpoints = params.take_text(alloc, "checkpointCollection");
    let collection = params.take_text(alloc, "collection");
    let id = params.take_text(alloc, "id");
    let (q, q_text) = params.take_kept_query(alloc, "q");
    let fl = params.take_names(alloc, "fl");
    let init = params.take_number("initialCheckpoint");
    Expr::Topic {
        checkpoints,
        collection,
        id,
        q,
        q_text,
        fl,
        init,
    }
}

fn update(alloc: Global, mut params: Params, inputs: Exprs) -> Result<Expr, Memory>
    requires { length inputs.items ≡ 1 }
    ensures { IfOk result (λ e. expr_tree e
        ≡ node (operator_of Function.Update (walked params)) (inputs_of (map expr_tree inputs.items))) }
{
    let input = only(alloc, inputs)?;
    let dest = params.take_text(alloc, "destination");
    let batch_size = params.take_count_or("batchSize", 250);
    Ok(Expr::Update {
        input,
        dest,
        batch_size,
    })
}

fn commit(alloc: Global, mut params: Params, inputs: Exprs) -> Result<Expr, Memory>
    requires { length inputs.items ≡ 1 }
    ensures { IfOk result (λ e. expr_tree e
        ≡ node (operator_of Function.Commit (walked params)) (inputs_of (map expr_tree inputs.items))) }
{
    let input = only(alloc, inputs)?;
    let dest = params.take_text(alloc, "destination");
    let batch_size = params.take_number("batchSize");
    Ok(Expr::Commit {
        input,
        dest,
        batch_size,
    })
}

fn daemon(alloc: Global, mut params: Params, inputs: Exprs) -> Result<Expr, Memory>
    requires { length inputs.items ≡ 1 }
    ensures { IfOk result (λ e. expr_tree e
        ≡ node (operator_of Function.Daemon (walked params)) (inputs_of (map expr_tree inputs.items))) }
{
    let input = only(alloc, inputs)?;
    let id = params.take_text(alloc, "id");
    let interval = params.take_count_or("runInterval", 1000);
    let terminate = params.take_flag("terminate");
    Ok(Expr::Daemon {
        input,
        id,
        interval,
        terminate,
    })
}

/// The expression of a function with these parameters and inputs.
pub(crate) fn expression(
    alloc: Global,
    function: Function,
    params: Params,
    inputs: Exprs,
) -> Result<Expr, Memory>
    requires { takes_all function (length inputs.items) ≡ true }
    ensures { IfOk result (λ e. expr_tree e
        ≡ node (operator_of function (walked params)) (inputs_of (map expr_tree inputs.items))) }
{
    match function {
        Function::Search => Ok(search(alloc, params)),
        Function::Tuple => tuple(alloc, params),
        Function::Select => select(alloc, params, inputs),
        Function::Having => having(alloc, params, inputs),
        Function::Sort => sort(alloc, params, inputs),
        Function::Top => top(alloc, params, inputs),
        Function::Unique => unique(alloc, params, inputs),
        Function::Merge => Ok(merge(alloc, params, inputs)),
        Function::Reduce => reduce(alloc, params, inputs),
        Function::Rollup => rollup(alloc, params, inputs),
        Function::InnerJoin => inner_join(alloc, params, inputs),
        Function::LeftOuterJoin => left_outer_join(alloc, params, inputs),
        Function::Intersect => intersect(alloc, params, inputs),
        Function::Complement => complement(alloc, params, inputs),
        Function::HashJoin => hash_join(alloc, params, inputs),
        Function::OuterHashJoin => outer_hash_join(alloc, params, inputs),
        Function::Parallel => parallel(alloc, params, inputs),
        Function::Topic => Ok(topic(alloc, params)),
        Function::Update => update(alloc, params, inputs),
        Function::Commit => commit(alloc, params, inputs),
        Function::Daemon => daemon(alloc, params, inputs),
    }
}
