// In which orders a join needs its inputs, and with which it reads them.
ghost use Rattle.std.specs.Prelude.{◌≡◌, IfOk};
ghost use Rattle.expr_types.specs.Joins.{left_names, right_names};
ghost use Rattle.expr_types.specs.Orders.{sort_over};
ghost use Rattle.expr_check.specs.Orders.{directions, directions_of};
ghost use Rattle.expr_check.specs.Faults.{right_fault, join_fault};

use crate::needs::{names_fault, sort_fault};
use crate::places::{first_of, second_of};
use crate::{CheckFault, Order};
use sort_spec::{OnSpec, SortSpec, SortTerm};
use std::alloc::Global;
use tuple_values::{FieldList, Memory, TryCopy};

fn left_names(alloc: Global, on: &OnSpec) -> Result<FieldList, Memory>
    ensures { IfOk result (λ names. names ≡ left_names on.now) }
{
    let mut names = FieldList::new(alloc);
    for pair in on.as_slice() {
        names.push(pair.left.copy(alloc)?)?;
    }
    Ok(names)
}

fn right_names(alloc: Global, on: &OnSpec) -> Result<FieldList, Memory>
    ensures { IfOk result (λ names. names ≡ right_names on.now) }
{
    let mut names = FieldList::new(alloc);
    for pair in on.as_slice() {
        names.push(pair.right.copy(alloc)?)?;
    }
    Ok(names)
}

// Names as a sort, each in the direction of the term at its place, ascending where there is none.
fn sort_over(alloc: Global, names: &FieldList, terms: &[SortTerm]) -> Result<SortSpec, Memory>
    ensures { IfOk result (λ sort. sort ≡ sort_over names.now (directions terms.now)) }
{
    let mut sort = SortSpec::new(alloc);
    let mut rest = terms;
    for name in names.as_slice() {
        let field = name.copy(alloc)?;
        match rest {
            [term, more @ ..] => {
                sort.push(SortTerm {
                    field,
                    descending: term.descending,
                })?;
                rest = more;
            }
            [] => sort.push(SortTerm {
                field,
                descending: false,
            })?,
        }
    }
    Ok(sort)
}

// The terms of the first order that isn't any.
fn first_terms(orders: &[Order]) -> &[SortTerm]
    ensures { directions result.now ≡ directions_of orders.now }
{
    for order in orders {
        if let Order::By(sort) = order {
            return sort.as_slice();
        }
    }
    &[]
}

/// The sort with which the inputs of a join are read side by side: the left names of the pairs,
/// each in the direction in which both inputs come.
pub fn join_order(alloc: Global, on: &OnSpec, orders: &[Order]) -> Result<SortSpec, Memory>
    ensures { IfOk result (λ sort. sort
        ≡ sort_over (left_names on.now) (directions_of orders.now)) }
{
    let names = left_names(alloc, on)?;
    sort_over(alloc, &names, first_terms(orders))
}

// The fault of a function at its right input, by the order of the left one.
fn right_fault(
    alloc: Global,
    function: &str,
    on: &OnSpec,
    left: &Order,
    right: &Order,
) -> Result<Option<CheckFault>, Memory>
    ensures { IfOk result (λ fault. fault ≡ right_fault function.now on.now left.now right.now) }
{
    let names = right_names(alloc, on)?;
    match left {
        Order::Any => names_fault(alloc, function, &names, right),
        Order::By(sort) => {
            let needed = sort_over(alloc, &names, sort.as_slice())?;
            sort_fault(alloc, function, &needed, right)
        }
    }
}

/// The fault of a function that needs its inputs in the order of pairs, the left one first.
pub(crate) fn join_fault(
    alloc: Global,
    function: &str,
    on: &OnSpec,
    orders: &[Order],
) -> Result<Option<CheckFault>, Memory>
    ensures { IfOk result (λ fault. fault ≡ join_fault function.now on.now orders.now) }
{
    let any = Order::Any;
    let left = first_of(orders, &any);
    let names = left_names(alloc, on)?;
    let fault = names_fault(alloc, function, &names, left)?;
    if fault.is_some() {
        return Ok(fault);
    }
    right_fault(alloc, function, on, left, second_of(orders, &any))
}
