// Which orders a function needs of its inputs, and which fields a search.
ghost use Rattle.std.specs.Prelude.{◌≡◌, IfOk, option_map};
ghost use Rattle.expr_check.specs.Needs.{meets_sort, meets_names, names_first};
ghost use Rattle.expr_check.specs.Faults.{field_outside, field_fault};
ghost use Rattle.expr_check.specs.Faults.{names_fault, sort_fault, first_fault};

use crate::texts::{has_text, names_text, sort_text};
use crate::{CheckFault, Order};
use sort_spec::{NameSet, SortSpec, SortTerm};
use std::alloc::Global;
use tuple_values::{FieldList, Memory, Text, TryCopy};

// The first field of a sort that isn't among the names.
fn field_outside<'a>(sort: &'a SortSpec, fl: &NameSet<'_>) -> Option<&'a Text>
    ensures { option_map (λ field. field.now) result ≡ field_outside sort.now fl.now }
{
    for term in sort.as_slice() {
        if !fl.has(term.field.as_str()) {
            return Some(&term.field);
        }
    }
    None
}

/// The fault of a search's sort, whose fields are to be among the names.
pub(crate) fn fields_fault(
    alloc: Global,
    sort: &SortSpec,
    fl: &FieldList,
) -> Result<Option<CheckFault>, Memory>
    ensures { IfOk result (λ fault. fault ≡ field_fault (field_outside sort.now fl.now)) }
{
    let among = NameSet::of(alloc, fl)?;
    match field_outside(sort, &among) {
        None => Ok(None),
        Some(field) => {
            let field = field.copy(alloc)?;
            Ok(Some(CheckFault::SortFieldNotInFl { field }))
        }
    }
}

// Whether the names are the fields of the first terms, in order.
fn names_first(names: &[Text], terms: &[SortTerm]) -> bool
    ensures { result ≡ names_first names.now terms.now }
{
    let mut rest = terms;
    for name in names {
        match rest {
            [term, more @ ..] if term.field.as_str() == name.as_str() => rest = more,
            _ => return false,
        }
    }
    true
}

fn meets_names(names: &FieldList, order: &Order) -> bool
    ensures { result ≡ meets_names names.now order.now }
{
    match order {
        Order::Any => true,
        Order::By(sort) => names_first(names.as_slice(), sort.as_slice()),
    }
}

fn meets_sort(on: &SortSpec, order: &Order) -> bool
    ensures { result ≡ meets_sort on.now order.now }
{
    match order {
        Order::Any => true,
        Order::By(sort) => on.is_prefix_of(sort),
    }
}

/// The fault of a function that needs the names as first fields, at an input of this order.
pub(crate) fn names_fault(
    alloc: Global,
    function: &str,
    names: &FieldList,
    order: &Order,
) -> Result<Option<CheckFault>, Memory>
    ensures { IfOk result (λ fault. fault ≡ names_fault function.now names.now order.now) }
{
    if meets_names(names, order) {
        return Ok(None);
    }
    let function = Text::of(alloc, function)?;
    let needed = names_text(alloc, names)?;
    let has = has_text(alloc, order)?;
    Ok(Some(CheckFault::NotSorted {
        function,
        needed,
        has,
    }))
}

/// The fault of a function that needs the names as first fields, at the first input that has one.
pub(crate) fn names_faults(
    alloc: Global,
    function: &str,
    names: &FieldList,
    orders: &[Order],
) -> Result<Option<CheckFault>, Memory>
    ensures { IfOk result (λ fault. fault
        ≡ first_fault (names_fault function.now names.now) orders.now) }
{
    for order in orders {
        let fault = names_fault(alloc, function, names, order)?;
        if fault.is_some() {
            return Ok(fault);
        }
    }
    Ok(None)
}

/// The fault of a function that needs a sort as first terms, at an input of this order.
pub(crate) fn sort_fault(
    alloc: Global,
    function: &str,
    on: &SortSpec,
    order: &Order,
) -> Result<Option<CheckFault>, Memory>
    ensures { IfOk result (λ fault. fault ≡ sort_fault function.now on.now order.now) }
{
    if meets_sort(on, order) {
        return Ok(None);
    }
    let function = Text::of(alloc, function)?;
    let needed = sort_text(alloc, on)?;
    let has = has_text(alloc, order)?;
    Ok(Some(CheckFault::NotSorted {
        function,
        needed,
        has,
    }))
}

/// The fault of a function that needs a sort as first terms, at the first input that has one.
pub(crate) fn sort_faults(
    alloc: Global,
    function: &str,
    on: &SortSpec,
    orders: &[Order],
) -> Result<Option<CheckFault>, Memory>
    ensures { IfOk result (λ fault. fault
        ≡ first_fault (sort_fault function.now on.now) orders.now) }
{
    for order in orders {
        let fault = sort_fault(alloc, function, on, order)?;
        if fault.is_some() {
            return Ok(fault);
        }
    }
    Ok(None)
}
