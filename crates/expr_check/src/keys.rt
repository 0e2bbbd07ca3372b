// The keys that a function gives, and whether a parallel has those of its input.
ghost use Rattle.std.specs.Prelude.{◌≡◌, IfOk};
ghost use Rattle.std.specs.List.{list_all};
ghost use Rattle.std.specs.Option.{option_or};
ghost use Rattle.expr_types.specs.ExprTree.{expr_tree, operator_in};
ghost use Rattle.expr_types.specs.Names.{function_name};
ghost use Rattle.expr_check.specs.Faults.{parted_fault};
ghost use Rattle.expr_check.specs.Partitions.{has_term, holds_keys};
ghost use Rattle.expr_check.specs.Rules.{keys_given, parted_at};
ghost use Rattle.expr_check.specs.Walk.{unkeyed};
ghost use Rattle.expr_check.specs.declared.fault.CheckFault.TheVariants.{NotPartitioned};

use crate::CheckFault;
use crate::pairing::{filtered_keys, paired_keys};
use crate::partitions::{chosen_keys, first_keys, kept_keys, merged_keys, search_keys};
use crate::places::{first_of, second_of};
use expr_types::Expr;
use sort_spec::SortSpec;
use std::alloc::Global;
use tuple_values::{FieldList, Memory, Text};

/// The keys that the function gives, of those of its inputs, which have these fields.
pub(crate) fn keys_given(
    alloc: Global,
    expr: &Expr,
    fields: &[FieldList],
    keys: Vec<Option<FieldList>>,
) -> Result<Option<FieldList>, Memory>
    ensures { IfOk result (λ given. given
        ≡ keys_given (operator_in (expr_tree expr.now)) fields.now keys.items) }
{
    match expr {
        Expr::Search {
            partition_keys,
            fl,
            rows,
            ..
        } => search_keys(alloc, partition_keys, fl, *rows),
        Expr::Select { items, .. } => chosen_keys(alloc, items, first_keys(keys)),
        Expr::Having { .. } | Expr::Sort { .. } => Ok(first_keys(keys)),
        Expr::Unique { over: names, .. }
        | Expr::Reduce { by: names, .. }
        | Expr::Rollup { over: names, .. } => Ok(kept_keys(names, first_keys(keys))),
        Expr::Merge { .. } => Ok(merged_keys(keys)),
        Expr::InnerJoin { on, .. }
        | Expr::LeftOuterJoin { on, .. }
        | Expr::HashJoin { on, .. }
        | Expr::OuterHashJoin { on, .. } => {
            let none = FieldList::new(alloc);
            Ok(paired_keys(on, second_of(fields, &none), keys))
        }
        Expr::Intersect { on, .. } | Expr::Complement { on, .. } => {
            Ok(filtered_keys(alloc, on, keys))
        }
        // The first tuples of each partition aren't the first of all.
        Expr::Top { .. } => Ok(None),
        Expr::Tuple { .. }
        | Expr::Parallel { .. }
        | Expr::Topic { .. }
        | Expr::Update { .. }
        | Expr::Commit { .. }
        | Expr::Daemon { .. } => Ok(None),
    }
}

/// The name of the first function without keys: that of the inputs, or else the function's own.
pub(crate) fn keyless_at(
    alloc: Global,
    expr: &Expr,
    inputs: Option<Text>,
    keys: &Option<FieldList>,
) -> Result<Option<Text>, Memory>
    ensures { IfOk result (λ function. function ≡ option_or inputs
        (unkeyed (function_name (operator_in (expr_tree expr.now))) keys.now)) }
{
    match inputs {
        Some(function) => Ok(Some(function)),
        None => match keys {
            Some(_) => Ok(None),
            None => Ok(Some(Text::of(alloc, expr.function())?)),
        },
    }
}

// Whether a sort has a term of this field.
fn has_term(by: &SortSpec, field: &str) -> bool
    ensures { result ≡ has_term by.now field.now }
{
    for term in by.as_slice() {
        if term.field.as_str() == field {
            return true;
        }
    }
    false
}

// Whether a sort has a term of each key.
fn has_terms(by: &SortSpec, keys: &FieldList) -> bool
    ensures { result ≡ list_all (has_term by.now) keys.now }
{
    for key in keys.as_slice() {
        if !has_term(by, key.as_str()) {
            return false;
        }
    }
    true
}

// Whether a sort has a term of each key, where there are keys.
fn holds_keys(by: &SortSpec, keys: &Option<FieldList>) -> bool
    ensures { result ≡ holds_keys by.now keys.now }
{
    match keys {
        None => false,
        Some(keys) => has_terms(by, keys),
    }
}

fn not_partitioned(alloc: Global, function: &str) -> Result<Option<CheckFault>, Memory>
    ensures { IfOk result (λ fault. fault
        ≡ Some (NotPartitioned function.now)) }
{
    let function = Text::of(alloc, function)?;
    Ok(Some(CheckFault::NotPartitioned { function }))
}

// The fault of a parallel by this sort, over an input with these keys, of which this is the first
// function without keys.
fn parted_fault(
    alloc: Global,
    sort: &SortSpec,
    keyless: &Option<Text>,
    keys: &Option<FieldList>,
) -> Result<Option<CheckFault>, Memory>
    ensures { IfOk result (λ fault. fault
        ≡ parted_fault sort.now keyless.now keys.now) }
{
    match keyless {
        Some(function) => not_partitioned(alloc, function.as_str()),
        None => {
            if holds_keys(sort, keys) {
                Ok(None)
            } else {
                not_partitioned(alloc, "parallel")
            }
        }
    }
}

/// The fault of the function over inputs of these keys, of which this is the first function without
/// keys.
pub(crate) fn parted_at(
    alloc: Global,
    expr: &Expr,
    keyless: &Option<Text>,
    keys: &[Option<FieldList>],
) -> Result<Option<CheckFault>, Memory>
    ensures { IfOk result (λ fault. fault
        ≡ parted_at (operator_in (expr_tree expr.now)) keyless.now keys.now) }
{
    match expr {
        Expr::Parallel { sort, .. } => {
            let none = None;
            parted_fault(alloc, sort, keyless, first_of(keys, &none))
        }
        Expr::Search { .. }
        | Expr::Tuple { .. }
        | Expr::Select { .. }
        | Expr::Having { .. }
        | Expr::Sort { .. }
        | Expr::Top { .. }
        | Expr::Unique { .. }
        | Expr::Merge { .. }
        | Expr::Reduce { .. }
        | Expr::Rollup { .. }
        | Expr::InnerJoin { .. }
        | Expr::LeftOuterJoin { .. }
        | Expr::Intersect { .. }
        | Expr::Complement { .. }
        | Expr::HashJoin { .. }
        | Expr::OuterHashJoin { .. }
        | Expr::Topic { .. }
        | Expr::Update { .. }
        | Expr::Commit { .. }
        | Expr::Daemon { .. } => Ok(None),
    }
}
