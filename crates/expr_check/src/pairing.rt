// The keys of a function over two inputs.
ghost use Rattle.std.specs.Prelude.{◌≡◌};
ghost use Rattle.expr_check.specs.Partitions.{is_pair, is_kept_pair, each_pair, are_paired};
ghost use Rattle.expr_check.specs.Partitions.{paired_keys};

use crate::partitions::first_keys;
use crate::places::{first_of, second_of};
use sort_spec::{OnPair, OnSpec};
use std::alloc::Global;
use tuple_values::{FieldList, Text};

// Whether the names are a pair of `on`.
fn is_pair(on: &[OnPair], left: &str, right: &str) -> bool
    ensures { result ≡ is_pair on.now left.now right.now }
{
    for pair in on {
        if pair.left.as_str() == left && pair.right.as_str() == right {
            return true;
        }
    }
    false
}

// Whether they are, and the left one keeps its value in a join with tuples of these fields.
fn is_kept_pair(on: &OnSpec, fields: &FieldList, left: &str, right: &str) -> bool
    ensures { result ≡ is_kept_pair on.now fields.now left.now right.now }
{
    (!fields.contains(left) || left == right) && is_pair(on.as_slice(), left, right)
}

// Whether the names at each place are such.
fn each_pair(on: &OnSpec, fields: &FieldList, lefts: &[Text], rights: &[Text]) -> bool
    ensures { result ≡ each_pair (is_kept_pair on.now fields.now) lefts.now rights.now }
{
    let mut rest = rights;
    for left in lefts {
        match rest {
            [right, more @ ..] if is_kept_pair(on, fields, left.as_str(), right.as_str()) => {
                rest = more;
            }
            _ => return false,
        }
    }
    match rest {
        [] => true,
        [_, ..] => false,
    }
}

// Whether left and right keys are there, and are paired so.
fn are_paired(
    on: &OnSpec,
    fields: &FieldList,
    lefts: &Option<FieldList>,
    rights: &Option<FieldList>,
) -> bool
    ensures { result ≡ are_paired (is_kept_pair on.now fields.now) lefts.now rights.now }
{
    match (lefts, rights) {
        (Some(lefts), Some(rights)) => each_pair(on, fields, lefts.as_slice(), rights.as_slice()),
        _ => false,
    }
}

/// The left keys, which are moved, where they are paired with the right ones and keep their values in
/// a join with tuples of these fields.
pub(crate) fn paired_keys(
    on: &OnSpec,
    fields: &FieldList,
    keys: Vec<Option<FieldList>>,
) -> Option<FieldList>
    ensures { result ≡ paired_keys (is_kept_pair on.now fields.now) keys.items }
{
    let none = None;
    let slice = keys.as_slice();
    if are_paired(on, fields, first_of(slice, &none), second_of(slice, &none)) {
        first_keys(keys)
    } else {
        None
    }
}

/// The left keys, which are moved, where they are paired with the right ones.
pub(crate) fn filtered_keys(
    alloc: Global,
    on: &OnSpec,
    keys: Vec<Option<FieldList>>,
) -> Option<FieldList>
    ensures { result ≡ paired_keys (is_pair on.now) keys.items }
{
    let none = FieldList::new(alloc);
    paired_keys(on, &none, keys)
}
