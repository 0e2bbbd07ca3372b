// The pairs of fields of a join, and the keys of tuples by them.
ghost use Rattle.std.specs.Prelude.{◌≡◌, map, IfOk};
ghost use Rattle.expr_types.specs.Joins.{is_met, matches};
ghost use Rattle.hash_join.specs.JoinKeys.{left_key, right_key};

use sort_spec::{OnPair, OnSpec};
use std::alloc::Global;
use std::marker::Model;
use tuple_values::{Bytes, FieldList, Memory, TryCopy, Tuple, compare, key_text};

/// Pairs of fields. A contract sees the list of them.
#[derive(Drop)]
pub(crate) struct KeyPairs {
    on: OnSpec,
    left_names: FieldList,
    right_names: FieldList,
}

impl Model for KeyPairs {
    ghost use Rattle.std.specs.Prelude.{◌≡◌, List, map};
    ghost use Rattle.sort_spec.specs.declared.pair.OnPair.{OnPair};

    ghost Value = { List OnPair };

    ghost view = { λ k. k.on };

    ghost invariant = { λ k. (k.left_names ≡ map (λ pair. pair.left) k.on)
        × (k.right_names ≡ map (λ pair. pair.right) k.on) };
}

impl KeyPairs {
    /// A copy of the pairs.
    pub fn of(alloc: Global, on: &OnSpec) -> Result<KeyPairs, Memory>
        ensures { IfOk result (λ k. k ≡ on.now) }
    {
        let left_names = left_names_of(alloc, on.as_slice())?;
        let right_names = right_names_of(alloc, on.as_slice())?;
        let on = on.copy(alloc)?;
        Ok(KeyPairs {
            on,
            left_names,
            right_names,
        })
    }

    /// The key of a left tuple.
    pub fn left_key(&self, alloc: Global, left: &Tuple) -> Result<Bytes, Memory>
        ensures { IfOk result (λ key. key ≡ left_key self.now left.now) }
    {
        key_text(alloc, left, &self.left_names)
    }

    /// The key of a right tuple.
    pub fn right_key(&self, alloc: Global, right: &Tuple) -> Result<Bytes, Memory>
        ensures { IfOk result (λ key. key ≡ right_key self.now right.now) }
    {
        key_text(alloc, right, &self.right_names)
    }

    /// Whether the values of all pairs are equal.
    pub fn are_equal(&self, left: &Tuple, right: &Tuple) -> bool
        ensures { result ≡ matches self.now left.now right.now }
    {
        for pair in self.on.as_slice() {
            if !is_met(pair, left, right) {
                return false;
            }
        }
        true
    }
}

fn is_met(pair: &OnPair, left: &Tuple, right: &Tuple) -> bool
    ensures { result ≡ is_met pair.now left.now right.now }
{
    compare(left.get(pair.left.as_str()), right.get(pair.right.as_str())).is_eq()
}

fn left_names_of(alloc: Global, on: &[OnPair]) -> Result<FieldList, Memory>
    ensures { IfOk result (λ names. names ≡ map (λ pair. pair.left) on.now) }
{
    let mut names = FieldList::new(alloc);
    for pair in on {
        names.push(pair.left.copy(alloc)?)?;
    }
    Ok(names)
}

fn right_names_of(alloc: Global, on: &[OnPair]) -> Result<FieldList, Memory>
    ensures { IfOk result (λ names. names ≡ map (λ pair. pair.right) on.now) }
{
    let mut names = FieldList::new(alloc);
    for pair in on {
        names.push(pair.right.copy(alloc)?)?;
    }
    Ok(names)
}
