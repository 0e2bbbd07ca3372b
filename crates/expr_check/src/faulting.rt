// The fault of a function where it stands, over its inputs.
ghost use Rattle.std.specs.Prelude.{◌≡◌, IfOk, option_map};
ghost use Rattle.tuple_values.specs.Collections.{is_known};
ghost use Rattle.expr_types.specs.ExprTree.{expr_tree, inputs_in, inputs_of, operator_in};
ghost use Rattle.expr_check.specs.Faults.{place_fault, itself_fault, unknown_fault};
ghost use Rattle.expr_check.specs.Rules.{itself_at};
ghost use Rattle.expr_check.specs.Walk.{fault_at, own_at, followed_in};
ghost use Rattle.expr_check.specs.Walked.{AreWalked};

use crate::keys::parted_at;
use crate::reads::{first_unknown, followed};
use crate::roots::Place;
use crate::rules::need_at;
use crate::standing::stands;
use crate::walked::WalkedInputs;
use crate::{CheckFault, Roots};
use expr_types::Expr;
use std::alloc::Global;
use tuple_values::{Memory, Names, Text, TryCopy};

// The fault of a function that may not stand at its place.
fn place_fault(alloc: Global, function: &str, stands: bool) -> Result<Option<CheckFault>, Memory>
    ensures { IfOk result (λ fault. fault ≡ place_fault function.now stands) }
{
    if stands {
        return Ok(None);
    }
    let function = Text::of(alloc, function)?;
    Ok(Some(CheckFault::BadPlace { function }))
}

// The fault of a collection that isn't there.
fn unknown_fault(alloc: Global, name: Option<&Text>) -> Result<Option<CheckFault>, Memory>
    ensures { IfOk result (λ fault. fault
        ≡ unknown_fault (option_map (λ n. n.now) name.entry)) }
{
    match name {
        None => Ok(None),
        Some(name) => {
            let name = name.copy(alloc)?;
            Ok(Some(CheckFault::UnknownCollection { name }))
        }
    }
}

// The fault of an update of this collection, whose input may follow a collection as a topic.
fn itself_fault(
    alloc: Global,
    dest: &Text,
    followed: Option<&Text>,
) -> Result<Option<CheckFault>, Memory>
    ensures { IfOk result (λ fault. fault
        ≡ itself_fault dest.now (option_map (λ n. n.now) followed.entry)) }
{
    match followed {
        None => Ok(None),
        Some(collection) => {
            if collection.as_str() == dest.as_str() {
                let collection = dest.copy(alloc)?;
                Ok(Some(CheckFault::UpdateOfItself { collection }))
            } else {
                Ok(None)
            }
        }
    }
}

// The fault of a function whose input may follow a collection as a topic.
fn itself_at(alloc: Global, expr: &Expr) -> Result<Option<CheckFault>, Memory>
    ensures { IfOk result (λ fault. fault ≡ itself_at (operator_in (expr_tree expr.now))
        (followed_in (inputs_of (inputs_in (expr_tree expr.now))))) }
{
    match expr {
        Expr::Update { input, dest, .. } => itself_fault(alloc, dest, followed(input)),
        Expr::Search { .. }
        | Expr::Tuple { .. }
        | Expr::Select { .. }
        | Expr::Having { .. }
        | Expr::Sort { .. }
        | Expr::Top { .. }
        | Expr::Unique { .. }
        | Expr::Merge { .. }
        | Expr::Reduce { .. }
        | Expr::Rollup { .. }
        | Expr::InnerJoin { .. }
        | Expr::LeftOuterJoin { .. }
        | Expr::Intersect { .. }
        | Expr::Complement { .. }
        | Expr::HashJoin { .. }
        | Expr::OuterHashJoin { .. }
        | Expr::Parallel { .. }
        | Expr::Topic { .. }
        | Expr::Commit { .. }
        | Expr::Daemon { .. } => Ok(None),
    }
}

// The fault of a function over its inputs, wherever it stands.
fn own_at(alloc: Global, expr: &Expr, inputs: &WalkedInputs) -> Result<Option<CheckFault>, Memory>
    requires { AreWalked inputs.now (expr_tree expr.now) }
    ensures { IfOk result (λ fault. fault ≡ own_at (operator_in (expr_tree expr.now))
        (inputs_of (inputs_in (expr_tree expr.now)))) }
{
    let fault = itself_at(alloc, expr)?;
    if fault.is_some() {
        return Ok(fault);
    }
    let fault = need_at(alloc, expr, inputs.orders.as_slice())?;
    if fault.is_some() {
        return Ok(fault);
    }
    parted_at(alloc, expr, &inputs.keyless, inputs.keys.as_slice())
}

/// The fault of a function at its place, over its inputs.
pub(crate) fn fault_at(
    alloc: Global,
    expr: &Expr,
    inputs: &WalkedInputs,
    place: Place,
    names: &Names,
    roots: Roots,
) -> Result<Option<CheckFault>, Memory>
    requires { AreWalked inputs.now (expr_tree expr.now) }
    ensures { IfOk result (λ fault. fault ≡ fault_at roots place (λ name. is_known name names.now)
        (operator_in (expr_tree expr.now)) (inputs_of (inputs_in (expr_tree expr.now)))) }
{
    let fault = place_fault(alloc, expr.function(), stands(expr, place, roots))?;
    if fault.is_some() {
        return Ok(fault);
    }
    let fault = unknown_fault(alloc, first_unknown(expr, names))?;
    if fault.is_some() {
        return Ok(fault);
    }
    own_at(alloc, expr, inputs)
}
