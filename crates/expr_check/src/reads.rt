// The collections that an expression names, and those that it reads.
ghost use Rattle.std.specs.Prelude.{◌≡◌, IfOk, OnOk, [], ◌∷◌, fold, option_map};
ghost use Rattle.tuple_values.specs.Collections.{is_known};
ghost use Rattle.sort_spec.specs.Texts.{once};
ghost use Rattle.expr_types.specs.ExprTree.{expr_tree, operator_in};
ghost use Rattle.expr_check.specs.Faults.{first_unknown};
ghost use Rattle.expr_check.specs.Reads.{with_name, are_known, unknown};
ghost use Rattle.expr_check.specs.Rules.{named_by, read_by, followed_by};
ghost use Rattle.expr_check.specs.Walk.{named_in};

use expr_types::Expr;
use std::alloc::Global;
use tuple_values::{FieldList, Memory, Names, Text, TryCopy};

// Whether there is a collection of this name.
fn is_known(name: &str, names: &Names) -> bool
    ensures { result ≡ is_known name.now names.now }
{
    names.find(name.as_bytes()).is_some()
}

// The name, where there is no collection of it.
fn unknown<'a>(name: &'a Text, names: &Names) -> Option<&'a Text>
    ensures { option_map (λ n. n.now) result ≡ unknown name.now names.now }
{
    if is_known(name.as_str(), names) {
        None
    } else {
        Some(name)
    }
}

/// The first collection that the function names and that isn't there.
pub(crate) fn first_unknown<'a>(expr: &'a Expr, names: &Names) -> Option<&'a Text>
    ensures { option_map (λ n. n.now) result ≡ first_unknown (λ name. is_known name names.now)
        (named_by (operator_in (expr_tree expr.now))) }
{
    match expr {
        Expr::Search { collection, .. } | Expr::Parallel { collection, .. } => {
            unknown(collection, names)
        }
        Expr::Topic {
            checkpoints,
            collection,
            ..
        } => {
            if is_known(checkpoints.as_str(), names) {
                unknown(collection, names)
            } else {
                Some(checkpoints)
            }
        }
        Expr::Update { dest, .. } | Expr::Commit { dest, .. } => unknown(dest, names),
        Expr::Tuple { .. }
        | Expr::Select { .. }
        | Expr::Having { .. }
        | Expr::Sort { .. }
        | Expr::Top { .. }
        | Expr::Unique { .. }
        | Expr::Merge { .. }
        | Expr::Reduce { .. }
        | Expr::Rollup { .. }
        | Expr::InnerJoin { .. }
        | Expr::LeftOuterJoin { .. }
        | Expr::Intersect { .. }
        | Expr::Complement { .. }
        | Expr::HashJoin { .. }
        | Expr::OuterHashJoin { .. }
        | Expr::Daemon { .. } => None,
    }
}

/// The collection that the function follows as a topic.
pub(crate) fn followed(expr: &Expr) -> Option<&Text>
    ensures { option_map (λ n. n.now) result ≡ followed_by (operator_in (expr_tree expr.now)) }
{
    match expr {
        Expr::Topic { collection, .. } => Some(collection),
        Expr::Search { .. }
        | Expr::Tuple { .. }
        | Expr::Select { .. }
        | Expr::Having { .. }
        | Expr::Sort { .. }
        | Expr::Top { .. }
        | Expr::Unique { .. }
        | Expr::Merge { .. }
        | Expr::Reduce { .. }
        | Expr::Rollup { .. }
        | Expr::InnerJoin { .. }
        | Expr::LeftOuterJoin { .. }
        | Expr::Intersect { .. }
        | Expr::Complement { .. }
        | Expr::HashJoin { .. }
        | Expr::OuterHashJoin { .. }
        | Expr::Parallel { .. }
        | Expr::Update { .. }
        | Expr::Commit { .. }
        | Expr::Daemon { .. } => None,
    }
}

// Whether each collection that the function names is there.
fn names_known(expr: &Expr, names: &Names) -> bool
    ensures { result ≡ are_known (named_by (operator_in (expr_tree expr.now))) names.now }
{
    first_unknown(expr, names).is_none()
}

/// Whether each collection that the expression names is there. Takes no memory.
pub(crate) fn stands_on(expr: &Expr, names: &Names) -> bool
    ensures { result ≡ are_known (named_in (expr_tree expr.now)) names.now }
{
    if !names_known(expr, names) {
        return false;
    }
    for k in 0..expr.input_count() {
        if !stands_on(expr.input(k), names) {
            return false;
        }
    }
    true
}

// A list of this name alone.
fn only(alloc: Global, name: &Text) -> Result<FieldList, Memory>
    ensures { IfOk result (λ list. list ≡ name.now ∷ []) }
{
    let mut list = FieldList::new(alloc);
    list.push(name.copy(alloc)?)?;
    Ok(list)
}

/// The collections that the function reads, each once.
pub(crate) fn read_by(alloc: Global, expr: &Expr) -> Result<FieldList, Memory>
    ensures { IfOk result (λ list. list ≡ once (read_by (operator_in (expr_tree expr.now)))) }
{
    match expr {
        Expr::Search { collection, .. } | Expr::Topic { collection, .. } => only(alloc, collection),
        Expr::Tuple { .. }
        | Expr::Select { .. }
        | Expr::Having { .. }
        | Expr::Sort { .. }
        | Expr::Top { .. }
        | Expr::Unique { .. }
        | Expr::Merge { .. }
        | Expr::Reduce { .. }
        | Expr::Rollup { .. }
        | Expr::InnerJoin { .. }
        | Expr::LeftOuterJoin { .. }
        | Expr::Intersect { .. }
        | Expr::Complement { .. }
        | Expr::HashJoin { .. }
        | Expr::OuterHashJoin { .. }
        | Expr::Parallel { .. }
        | Expr::Update { .. }
        | Expr::Commit { .. }
        | Expr::Daemon { .. } => Ok(FieldList::new(alloc)),
    }
}

/// Adds the names of another list that count once, each where it isn't there.
#[tactic(auto, using(crate::proofs::ReadLemmas::fold_steps))]
pub(crate) fn add_names(list: &mut FieldList, more: FieldList) -> Result<(), Memory>
    requires { more ≡ once more }
    ensures { OnOk result (list.new ≡ fold with_name list.old more) }
{
    if list.len() == 0 {
        *list = more;
        return Ok(());
    }
    for name in more.into_vec() {
        if !list.contains(name.as_str()) {
            list.push(name)?;
        }
    }
    Ok(())
}
