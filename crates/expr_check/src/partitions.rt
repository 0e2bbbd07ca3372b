// The fields that carry the keys by which searches are partitioned.
ghost use Rattle.std.specs.Prelude.{◌≡◌, IfOk, None, option_map};
ghost use Rattle.std.specs.List.{list_all};
ghost use Rattle.expr_types.specs.ExprTree.{first_or};
ghost use Rattle.expr_check.specs.Orders.{new_name};
ghost use Rattle.expr_check.specs.Partitions.{are_among, kept_keys, search_keys, kept_name};
ghost use Rattle.expr_check.specs.Partitions.{renamed, chosen_keys, same_names, same_keys};
ghost use Rattle.expr_check.specs.Partitions.{are_merged, merged_keys};

use crate::orders::{is_touched_once, new_name};
use expr_types::{Item, Items};
use std::alloc::Global;
use tuple_values::{FieldList, Memory, Text, TryCopy};

// Whether each of the names is among others.
fn are_among(others: &FieldList, names: &FieldList) -> bool
    ensures { result ≡ are_among others.now names.now }
{
    for name in names.as_slice() {
        if !others.contains(name.as_str()) {
            return false;
        }
    }
    true
}

/// Keys that all are among names. They are moved.
pub(crate) fn kept_keys(names: &FieldList, keys: Option<FieldList>) -> Option<FieldList>
    ensures { result ≡ kept_keys names.now keys }
{
    match keys {
        None => None,
        Some(keys) => {
            if are_among(names, &keys) {
                Some(keys)
            } else {
                None
            }
        }
    }
}

/// The keys of a search.
pub(crate) fn search_keys(
    alloc: Global,
    keys: &Option<FieldList>,
    fl: &FieldList,
    rows: Option<u64>,
) -> Result<Option<FieldList>, Memory>
    ensures { IfOk result (λ kept. kept ≡ search_keys keys.now fl.now rows) }
{
    match rows {
        Some(_) => Ok(None),
        None => match keys {
            None => Ok(None),
            Some(keys) => Ok(kept_keys(fl, Some(keys.copy(alloc)?))),
        },
    }
}

// The first new name of a field, where no other item gives a value to that name.
fn kept_name<'a>(field: &str, items: &'a [Item]) -> Option<&'a Text>
    ensures { option_map (λ name. name.now) result
        ≡ kept_name items.now (new_name field.now items.now) }
{
    match new_name(field, items) {
        Some(name) if is_touched_once(name.as_str(), items) => Some(name),
        _ => None,
    }
}

// The fields under their first new names, where each has one that no other item touches.
#[tactic(auto, using(crate::proofs::PartitionLemmas::renamed_steps))]
fn renamed(alloc: Global, items: &Items, keys: &FieldList) -> Result<Option<FieldList>, Memory>
    ensures { IfOk result (λ names. names ≡ renamed items.now keys.now) }
{
    let mut names = FieldList::new(alloc);
    for key in keys.as_slice() {
        match kept_name(key.as_str(), items.as_slice()) {
            None => return Ok(None),
            Some(name) => names.push(name.copy(alloc)?)?,
        }
    }
    Ok(Some(names))
}

/// Keys after select.
pub(crate) fn chosen_keys(
    alloc: Global,
    items: &Items,
    keys: Option<FieldList>,
) -> Result<Option<FieldList>, Memory>
    ensures { IfOk result (λ chosen. chosen ≡ chosen_keys items.now keys) }
{
    match keys {
        None => Ok(None),
        Some(keys) => renamed(alloc, items, &keys),
    }
}

// Whether two lists are one.
fn same_names(names: &[Text], others: &[Text]) -> bool
    ensures { result ≡ same_names names.now others.now }
{
    let mut rest = others;
    for name in names {
        match rest {
            [other, more @ ..] if name.as_str() == other.as_str() => rest = more,
            _ => return false,
        }
    }
    match rest {
        [] => true,
        [_, ..] => false,
    }
}

// Whether two lists of keys are there, and are one.
fn same_keys(keys: &Option<FieldList>, others: &Option<FieldList>) -> bool
    ensures { result ≡ same_keys keys.now others.now }
{
    match (keys, others) {
        (Some(keys), Some(others)) => same_names(keys.as_slice(), others.as_slice()),
        _ => false,
    }
}

// Whether keys and each of others are one list.
fn all_same(keys: &Option<FieldList>, others: &[Option<FieldList>]) -> bool
    ensures { result ≡ list_all (same_keys keys.now) others.now }
{
    for other in others {
        if !same_keys(keys, other) {
            return false;
        }
    }
    true
}

/// The first keys, which are moved; none where there is no list.
pub(crate) fn first_keys(keys: Vec<Option<FieldList>>) -> Option<FieldList>
    ensures { result ≡ first_or None keys.items }
{
    match keys.into_iter().next() {
        Some(first) => first,
        None => None,
    }
}

// Whether the keys of several inputs are one list.
fn are_merged(keys: &[Option<FieldList>]) -> bool
    ensures { result ≡ are_merged keys.now }
{
    match keys {
        [first, others @ ..] => all_same(first, others),
        [] => false,
    }
}

/// The keys of several inputs, where they are one list.
pub(crate) fn merged_keys(keys: Vec<Option<FieldList>>) -> Option<FieldList>
    ensures { result ≡ merged_keys keys.items }
{
    if are_merged(keys.as_slice()) {
        first_keys(keys)
    } else {
        None
    }
}
