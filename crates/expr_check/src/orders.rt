// What becomes of an order.
ghost use Rattle.std.specs.Prelude.{◌≡◌, IfOk, option_map, take};
ghost use Rattle.expr_check.specs.Orders.{touches, is_touched_once, new_name};
ghost use Rattle.std.specs.List.{list_any};
ghost use Rattle.expr_check.specs.Orders.{kept_terms, kept_order, first_terms};
ghost use Rattle.expr_check.specs.Orders.{is_paired, keeps_field, joined_terms, joined_order};

use crate::Order;
use crate::fields::given_name;
use expr_types::{Item, Items};
use sort_spec::{NameSet, OnPair, OnSpec, SortSpec, SortTerm};
use std::alloc::Global;
use tuple_values::{FieldList, Memory, Text, TryCopy};

// Whether the item gives a value to this name.
fn touches(name: &str, item: &Item) -> bool
    ensures { result ≡ touches name.now item.now }
{
    given_name(item).as_str() == name
}

/// Whether just one item gives a value to this name.
pub(crate) fn is_touched_once(name: &str, items: &[Item]) -> bool
    ensures { result ≡ is_touched_once name.now items.now }
{
    let mut touched = false;
    for item in items {
        if touches(name, item) {
            if touched {
                return false;
            }
            touched = true;
        }
    }
    touched
}

/// The new name of the field by the first item that chooses it.
pub(crate) fn new_name<'a>(field: &str, items: &'a [Item]) -> Option<&'a Text>
    ensures { option_map (λ name. name.now) result ≡ new_name field.now items.now }
{
    for item in items {
        if let Item::Field { name, to } = item
            && name.as_str() == field
        {
            return Some(to);
        }
    }
    None
}

// The longest prefix of the terms that are chosen, each under its first new name, where no other
// item gives a value to that name.
fn kept_terms(alloc: Global, items: &Items, sort: &SortSpec) -> Result<SortSpec, Memory>
    ensures { IfOk result (λ kept. kept ≡ kept_terms items.now sort.now) }
{
    let mut kept = SortSpec::new(alloc);
    for term in sort.as_slice() {
        match new_name(term.field.as_str(), items.as_slice()) {
            Some(name) if is_touched_once(name.as_str(), items.as_slice()) => {
                let field = name.copy(alloc)?;
                kept.push(SortTerm {
                    field,
                    descending: term.descending,
                })?;
            }
            _ => return Ok(kept),
        }
    }
    Ok(kept)
}

/// An order after select.
pub(crate) fn kept_order(alloc: Global, items: &Items, order: &Order) -> Result<Order, Memory>
    ensures { IfOk result (λ kept. kept ≡ kept_order items.now order.now) }
{
    match order {
        Order::Any => Ok(Order::Any),
        Order::By(sort) => Ok(Order::By(kept_terms(alloc, items, sort)?)),
    }
}

// A sort of these terms.
fn sort_of(alloc: Global, terms: &[SortTerm]) -> Result<SortSpec, Memory>
    ensures { IfOk result (λ sort. sort ≡ terms.now) }
{
    let mut sort = SortSpec::new(alloc);
    for term in terms {
        sort.push(term.copy(alloc)?)?;
    }
    Ok(sort)
}

// The first so many terms, or all.
fn first_of(count: usize, terms: &[SortTerm]) -> &[SortTerm]
    ensures { result.now ≡ take count terms.now }
{
    if count < terms.len() {
        &terms[..count]
    } else {
        terms
    }
}

/// An order by its first so many terms.
pub(crate) fn first_terms(alloc: Global, count: usize, order: &Order) -> Result<Order, Memory>
    ensures { IfOk result (λ first. first ≡ first_terms count order.now) }
{
    match order {
        Order::Any => Ok(Order::Any),
        Order::By(sort) => Ok(Order::By(sort_of(alloc, first_of(count, sort.as_slice()))?)),
    }
}

// Whether a pair asks that this field has one value on both sides.
fn is_paired(field: &str, pair: &OnPair) -> bool
    ensures { result ≡ is_paired field.now pair.now }
{
    pair.left.as_str() == field && pair.right.as_str() == field
}

// Whether one of the pairs does.
fn any_paired(field: &str, on: &[OnPair]) -> bool
    ensures { result ≡ list_any (is_paired field.now) on.now }
{
    for pair in on {
        if is_paired(field, pair) {
            return true;
        }
    }
    false
}

// Whether a left field keeps its value in a join with tuples of these fields.
fn keeps_field(on: &OnSpec, right: &NameSet<'_>, field: &str) -> bool
    ensures { result ≡ keeps_field on.now right.now field.now }
{
    !right.has(field) || any_paired(field, on.as_slice())
}

// The longest prefix of the terms whose fields keep their values.
fn joined_terms(
    alloc: Global,
    on: &OnSpec,
    right: &NameSet<'_>,
    sort: &SortSpec,
) -> Result<SortSpec, Memory>
    ensures { IfOk result (λ kept. kept ≡ joined_terms on.now right.now sort.now) }
{
    let mut kept = SortSpec::new(alloc);
    for term in sort.as_slice() {
        if !keeps_field(on, right, term.field.as_str()) {
            return Ok(kept);
        }
        kept.push(term.copy(alloc)?)?;
    }
    Ok(kept)
}

/// The left order after a join with tuples of these fields.
pub(crate) fn joined_order(
    alloc: Global,
    on: &OnSpec,
    right: &FieldList,
    left: &Order,
) -> Result<Order, Memory>
    ensures { IfOk result (λ order. order ≡ joined_order on.now right.now left.now) }
{
    match left {
        Order::Any => Ok(Order::By(SortSpec::new(alloc))),
        Order::By(sort) => {
            let among = NameSet::of(alloc, right)?;
            Ok(Order::By(joined_terms(alloc, on, &among, sort)?))
        }
    }
}
