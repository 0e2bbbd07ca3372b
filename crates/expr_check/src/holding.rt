// What an expression without a fault holds of its inputs, checked.
ghost use Rattle.std.specs.Prelude.{◌≡◌, ◌++◌, ◌∷◌, [], IfOk, None, false, flat_map, map};
ghost use Rattle.expr_types.specs.ExprTree.{ExprTree, expr_tree, inputs_in, operator_in};
ghost use Rattle.expr_check.specs.Held.{IsHeld, AreHeld, NoneRuns, AreFound, IsFound, held_parts};
ghost use Rattle.expr_check.specs.Rules.{runs_input, split_by};
ghost use Rattle.expr_check.specs.Views.{tree_of, part_tree};

use crate::checked::{Checked, ParallelPart, Within};
use crate::places::first_of;
use crate::walked::WalkedInputs;
use crate::{CheckFault, Order};
use expr_types::Expr;
use sort_spec::SortSpec;
use std::alloc::Global;
use tuple_values::{FieldList, Memory, TryCopy};

// What is held of the first input.
fn first_within(alloc: Global, withins: Vec<Within>) -> Within
    ensures { (t : ExprTree) → AreHeld withins.items (t ∷ []) → IsHeld result t }
{
    match withins.into_iter().next() {
        Some(within) => within,
        None => Within::Parallels(Vec::new(alloc)),
    }
}

// The only input of a function, checked, of which these things were found.
fn checked_input(
    alloc: Global,
    input: &Expr,
    inputs: &WalkedInputs,
    withins: Vec<Within>,
) -> Result<Checked, Memory>
    requires { IsFound inputs.now withins.items (expr_tree input.now) }
    ensures { IfOk result (λ checked. tree_of checked ≡ expr_tree input.now) }
{
    let any = Order::Any;
    let none = FieldList::new(alloc);
    let order = first_of(inputs.orders.as_slice(), &any).copy(alloc)?;
    let fields = first_of(inputs.fields.as_slice(), &none).copy(alloc)?;
    let reads = inputs.reads.copy(alloc)?;
    let within = first_within(alloc, withins);
    let expr = input.copy(alloc)?;
    Ok(Checked::new(expr, order, fields, reads, within))
}

// Parts, and then those that are held. Both lists are moved.
fn with_parts(mut all: Vec<ParallelPart>, within: Within) -> Result<Vec<ParallelPart>, Memory>
    ensures { IfOk result (λ parts. map part_tree parts.items
        ≡ map part_tree all.items ++ held_parts within) }
{
    match within {
        Within::Input(_) => Ok(all),
        Within::Parallels(parts) => {
            if all.len() == 0 {
                return Ok(parts);
            }
            for part in parts {
                all.push(part)?;
            }
            Ok(all)
        }
    }
}

// The parts of several inputs, from the left to the right.
fn all_parts(alloc: Global, withins: Vec<Within>) -> Result<Vec<ParallelPart>, Memory>
    ensures { IfOk result (λ parts. map part_tree parts.items
        ≡ flat_map held_parts withins.items) }
{
    let mut all = Vec::new(alloc);
    for within in withins {
        all = with_parts(all, within)?;
    }
    Ok(all)
}

// The only part of a parallel.
fn only_part(
    alloc: Global,
    checked: Checked,
    workers: u16,
    sort: SortSpec,
) -> Result<Vec<ParallelPart>, Memory>
    ensures { IfOk result (λ parts. map part_tree parts.items ≡ record {
      input = tree_of checked;
      split = record { workers = workers; sort = sort };
    } ∷ []) }
{
    let mut parts = Vec::new(alloc);
    parts.push(ParallelPart {
        checked,
        workers,
        sort,
    })?;
    Ok(parts)
}

// What an expression that neither runs its input nor splits its work holds of its inputs.
fn hold_inner(alloc: Global, expr: &Expr, withins: Vec<Within>) -> Result<Within, Memory>
    requires held { AreHeld withins.items (inputs_in (expr_tree expr.now)) }
    requires alone { runs_input (operator_in (expr_tree expr.now)) ≡ false
        → NoneRuns (inputs_in (expr_tree expr.now)) }
    requires runs { runs_input (operator_in (expr_tree expr.now)) ≡ false }
    requires splits { split_by (operator_in (expr_tree expr.now)) ≡ None }
    ensures { IfOk result (λ within. IsHeld within (expr_tree expr.now)) }
{
    let _ = expr;
    let parts = all_parts(alloc, withins)?;
    Ok(Within::Parallels(parts))
}

// What an expression holds of its inputs, where neither it nor they have a fault.
fn hold(
    alloc: Global,
    expr: &Expr,
    inputs: &WalkedInputs,
    withins: Vec<Within>,
) -> Result<Within, Memory>
    requires { AreFound inputs.now withins.items (expr_tree expr.now) }
    ensures { IfOk result (λ within. IsHeld within (expr_tree expr.now)) }
{
    match expr {
        Expr::Parallel {
            input,
            workers,
            sort,
            ..
        } => {
            let sort = sort.copy(alloc)?;
            let checked = checked_input(alloc, input, inputs, withins)?;
            Ok(Within::Parallels(only_part(alloc, checked, *workers, sort)?))
        }
        Expr::Update { input, .. } | Expr::Commit { input, .. } | Expr::Daemon { input, .. } => {
            let checked = Box::new(alloc, checked_input(alloc, input, inputs, withins)?)?;
            Ok(Within::Input(checked))
        }
        Expr::Search { .. }
        | Expr::Tuple { .. }
        | Expr::Select { .. }
        | Expr::Having { .. }
        | Expr::Sort { .. }
        | Expr::Top { .. }
        | Expr::Unique { .. }
        | Expr::Merge { .. }
        | Expr::Reduce { .. }
        | Expr::Rollup { .. }
        | Expr::InnerJoin { .. }
        | Expr::LeftOuterJoin { .. }
        | Expr::Intersect { .. }
        | Expr::Complement { .. }
        | Expr::HashJoin { .. }
        | Expr::OuterHashJoin { .. }
        | Expr::Topic { .. } => hold_inner(alloc, expr, withins),
    }
}

/// What an expression holds of its inputs, and nothing where it or they have a fault.
pub(crate) fn hold_faultless(
    alloc: Global,
    expr: &Expr,
    own: &Option<CheckFault>,
    inputs: &WalkedInputs,
    withins: Vec<Within>,
) -> Result<Within, Memory>
    requires { own.now ≡ None → inputs.now.fault ≡ None
        → AreFound inputs.now withins.items (expr_tree expr.now) }
    ensures { IfOk result (λ within. own.now ≡ None → inputs.now.fault ≡ None
        → IsHeld within (expr_tree expr.now)) }
{
    match own {
        Some(_) => Ok(Within::Parallels(Vec::new(alloc))),
        None => match &inputs.fault {
            Some(_) => Ok(Within::Parallels(Vec::new(alloc))),
            None => hold(alloc, expr, inputs, withins),
        },
    }
}
