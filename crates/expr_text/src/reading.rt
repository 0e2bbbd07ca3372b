// Expressions that are read, planned and checked.
ghost use Rattle.std.specs.Prelude.{◌≤◌};
ghost use Rattle.expr_reader.specs.Tree.{calls, call_limit};
ghost use Rattle.expr_reader.specs.Views.{call_tree};
ghost use Rattle.expr_types.specs.ExprTree.{expr_tree};
ghost use Rattle.expr_types.specs.Planned.{IsPlanned};
ghost use Rattle.expr_plan.specs.Walk.{planned};
ghost use Rattle.expr_check.specs.Walk.{fault_of};
ghost use Rattle.expr_text.specs.Reading.{expression_of, check_told, checked, IsTold};

use crate::TextFault;
use expr_check::{CheckFault, Checked, Roots, check};
use expr_plan::{PlanFault, plan};
use expr_reader::{Call, ExprFault, read_expr};
use expr_types::Expr;
use std::alloc::Global;
use tuple_values::Names;

/// The expression, unless it has a fault.
fn checked(alloc: Global, names: &Names, expr: Expr, roots: Roots) -> Result<Checked, TextFault>
    requires { IsPlanned (expr_tree expr) }
    ensures { IsTold (checked roots names.now (expr_tree expr)) result }
{
    match check(alloc, expr, names, roots) {
        Ok(checked) => Ok(checked),
        Err(CheckFault::OutOfMemory) => Err(TextFault::OutOfMemory),
        Err(fault) => Err(TextFault::Told(fault.text(alloc)?)),
    }
}

/// The expression that a call stands for, unless it has a fault.
fn plan_checked(
    alloc: Global,
    names: &Names,
    call: &Call,
    roots: Roots,
) -> Result<Checked, TextFault>
    requires { calls (call_tree call.now) ≤ call_limit }
    ensures { IsTold (check_told roots names.now (planned (call_tree call.now)))
        result }
{
    match plan(alloc, call) {
        Ok(expr) => checked(alloc, names, expr, roots),
        Err(PlanFault::OutOfMemory) => Err(TextFault::OutOfMemory),
        Err(fault) => Err(TextFault::Told(fault.text(alloc)?)),
    }
}

/// The expression that bytes say, over these collections, with these functions, or what a reply says of its first fault:
/// that of the bytes, else that of its plan, else that of its check (Solr Reference Guide,
/// "Streaming Expressions"; the order is own).
pub fn read_checked(
    alloc: Global,
    names: &Names,
    bytes: &[u8],
    roots: Roots,
) -> Result<Checked, TextFault>
    ensures { IsTold (expression_of roots names.now bytes.now) result }
{
    match read_expr(alloc, bytes) {
        Ok(call) => plan_checked(alloc, names, &call, roots),
        Err(ExprFault::OutOfMemory) => Err(TextFault::OutOfMemory),
        Err(fault) => Err(TextFault::Told(fault.text(alloc)?)),
    }
}
