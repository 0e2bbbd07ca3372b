// What the check knows of each function: which orders it needs, its order, and its fields.
ghost use Rattle.std.specs.Prelude.{◌≡◌, IfOk};
ghost use Rattle.expr_types.specs.ExprTree.{expr_tree, operator_in, first_or};
ghost use Rattle.expr_check.specs.Rules.{need_at, order_given, fields_given};
ghost use Rattle.expr_check.specs.declared.order.Order.TheVariants.{Any};

use crate::fields::{
    all_given, all_names, first_list, keys_of, rolled_names, topic_names, with_group,
};
use crate::joins::join_fault;
use crate::needs::{fields_fault, names_faults, sort_faults};
use crate::orders::{first_terms, joined_order, kept_order};
use crate::places::second_of;
use crate::{CheckFault, Order};
use expr_types::Expr;
use sort_spec::SortSpec;
use std::alloc::Global;
use tuple_values::{FieldList, Memory, TryCopy};

/// The fault of the function over inputs of these orders.
pub(crate) fn need_at(
    alloc: Global,
    expr: &Expr,
    orders: &[Order],
) -> Result<Option<CheckFault>, Memory>
    ensures { IfOk result (λ fault. fault
        ≡ need_at (operator_in (expr_tree expr.now)) orders.now) }
{
    match expr {
        Expr::Search { fl, sort, .. } => fields_fault(alloc, sort, fl),
        Expr::Unique { over, .. } => names_faults(alloc, "unique", over, orders),
        Expr::Reduce { by, .. } => names_faults(alloc, "reduce", by, orders),
        Expr::Rollup { over, .. } => names_faults(alloc, "rollup", over, orders),
        Expr::Merge { on, .. } => sort_faults(alloc, "merge", on, orders),
        Expr::Parallel { sort, .. } => sort_faults(alloc, "parallel", sort, orders),
        Expr::InnerJoin { on, .. } => join_fault(alloc, "innerJoin", on, orders),
        Expr::LeftOuterJoin { on, .. } => join_fault(alloc, "leftOuterJoin", on, orders),
        Expr::Intersect { on, .. } => join_fault(alloc, "intersect", on, orders),
        Expr::Complement { on, .. } => join_fault(alloc, "complement", on, orders),
        Expr::Tuple { .. }
        | Expr::Select { .. }
        | Expr::Having { .. }
        | Expr::Sort { .. }
        | Expr::Top { .. }
        | Expr::HashJoin { .. }
        | Expr::OuterHashJoin { .. }
        | Expr::Topic { .. }
        | Expr::Update { .. }
        | Expr::Commit { .. }
        | Expr::Daemon { .. } => Ok(None),
    }
}

// The first order, or any where there is none.
fn first_order(orders: Vec<Order>) -> Order
    ensures { result ≡ first_or Any orders.items }
{
    match orders.into_iter().next() {
        Some(order) => order,
        None => Order::Any,
    }
}

/// The order that the function gives of those of its inputs, which have these fields.
pub fn order_given(
    alloc: Global,
    expr: &Expr,
    orders: Vec<Order>,
    fields: &[FieldList],
) -> Result<Order, Memory>
    ensures { IfOk result (λ order. order
        ≡ order_given (operator_in (expr_tree expr.now)) orders.items fields.now) }
{
    match expr {
        Expr::Search { sort, .. }
        | Expr::Sort { by: sort, .. }
        | Expr::Top { sort, .. }
        | Expr::Merge { on: sort, .. }
        | Expr::Parallel { sort, .. } => Ok(Order::By(sort.copy(alloc)?)),
        Expr::Tuple { .. } => Ok(Order::Any),
        Expr::Select { items, .. } => kept_order(alloc, items, &first_order(orders)),
        Expr::Having { .. }
        | Expr::Unique { .. }
        | Expr::Intersect { .. }
        | Expr::Complement { .. } => Ok(first_order(orders)),
        Expr::InnerJoin { on, .. }
        | Expr::LeftOuterJoin { on, .. }
        | Expr::HashJoin { on, .. }
        | Expr::OuterHashJoin { on, .. } => {
            let none = FieldList::new(alloc);
            joined_order(alloc, on, second_of(fields, &none), &first_order(orders))
        }
        Expr::Reduce { by: names, .. } | Expr::Rollup { over: names, .. } => {
            first_terms(alloc, names.len(), &first_order(orders))
        }
        Expr::Topic { .. } | Expr::Update { .. } | Expr::Commit { .. } | Expr::Daemon { .. } => Ok(
            Order::By(SortSpec::new(alloc)),
        ),
    }
}

/// The fields that the function's tuples have, of those of its inputs.
pub fn fields_given(alloc: Global, expr: &Expr, lists: Vec<FieldList>) -> Result<FieldList, Memory>
    ensures { IfOk result (λ fields. fields
        ≡ fields_given (operator_in (expr_tree expr.now)) lists.items) }
{
    match expr {
        Expr::Search { fl, .. } => fl.copy(alloc),
        Expr::Tuple { fields } => keys_of(alloc, fields),
        Expr::Select { items, .. } => all_given(alloc, items),
        Expr::Reduce { .. } => with_group(alloc, first_list(alloc, lists)),
        Expr::Rollup { over, metrics, .. } => rolled_names(alloc, over, metrics),
        Expr::Merge { .. }
        | Expr::InnerJoin { .. }
        | Expr::LeftOuterJoin { .. }
        | Expr::HashJoin { .. }
        | Expr::OuterHashJoin { .. } => all_names(alloc, lists),
        Expr::Topic { fl, .. } => topic_names(alloc, fl),
        Expr::Having { .. }
        | Expr::Sort { .. }
        | Expr::Top { .. }
        | Expr::Unique { .. }
        | Expr::Intersect { .. }
        | Expr::Complement { .. }
        | Expr::Parallel { .. }
        | Expr::Update { .. }
        | Expr::Commit { .. }
        | Expr::Daemon { .. } => Ok(first_list(alloc, lists)),
    }
}
