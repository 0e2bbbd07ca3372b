// What items make of a tuple.
ghost use Rattle.std.specs.Prelude.{◌≡◌, [], IfOk, OnOk, fold, option_map, if◌then◌else◌};
ghost use Rattle.std.specs.List.{cons_option, filter_map};
ghost use Rattle.std.specs.Option.{option_cmp};
ghost use Rattle.std.specs.Ordering.{is_eq};
ghost use Rattle.tuple_values.specs.Document.{value_at, over};
ghost use Rattle.tuple_values.specs.Order.{datum_cmp};
ghost use Rattle.tuple_values.specs.Views.{datum_of};
ghost use Rattle.expr_types.specs.Rows.{chosen, with_value, with_text, changed, selected};
ghost use Rattle.row_kernels.specs.Choosing.{chooses, is_chosen};

use crate::joining::joined;
use expr_types::Item;
use std::alloc::Global;
use tuple_values::{Memory, Text, TryCopy, Tuple, Value, compare};

/// How many fields a tuple has, and how many items there are, where values are moved out of it: out of
/// a wider one a copy takes less time than closing the gap that a value leaves.
const NARROW: usize = 64;

/// A tuple with the names that items put, which what they make shares.
pub(crate) fn names_of(alloc: Global, items: &[Item]) -> Result<Tuple, Memory> {
    let mut names = Tuple::empty(alloc);
    for item in items {
        let name = match item {
            Item::Field { to, .. } => to,
            Item::Replace { field, .. } => field,
            Item::Concat { into, .. } => into,
        };
        names.put(name.copy(alloc)?, Value::Long(0))?;
    }
    Ok(names)
}

/// What the items make of a tuple. It shares the names that the other tuple has.
pub(crate) fn selected(
    alloc: Global,
    items: &[Item],
    names: &Tuple,
    tuple: Tuple,
) -> Result<Tuple, Memory>
    ensures { IfOk result (λ made. made ≡ selected items.now tuple) }
{
    let made = all_chosen(alloc, items, names, tuple)?;
    let changed = all_changed(alloc, made, items, names)?;
    Ok(changed)
}

// The chosen fields under their new names. What is chosen for the last time is moved.
#[tactic(auto, using(crate::proofs::SelectLemmas::select_steps))]
fn all_chosen(alloc: Global, items: &[Item], names: &Tuple, tuple: Tuple) -> Result<Tuple, Memory>
    ensures { IfOk result (λ made. made ≡ over [] (filter_map (chosen tuple) items.now)) }
{
    let moves = items.len() <= NARROW && tuple.count() <= NARROW as u64;
    let mut rest = tuple;
    let mut made = Tuple::empty(alloc);
    made.make_room(names.count())?;
    for k in 0..items.len() {
        made = with_chosen(
            alloc,
            made,
            &items[k],
            names,
            &mut rest,
            moves,
            &items[k + 1..],
        )?;
    }
    Ok(made)
}

// The tuple with the field that an item chooses of another, if it does. The other one still has what
// later items choose.
fn with_chosen(
    alloc: Global,
    made: Tuple,
    item: &Item,
    names: &Tuple,
    rest: &mut Tuple,
    moves: bool,
    later: &[Item],
) -> Result<Tuple, Memory>
    ensures made { IfOk result (λ more. more ≡ over made (cons_option (chosen rest.old item.now) [])) }
    ensures rest { OnOk result (filter_map (chosen rest.new) later.now
        ≡ filter_map (chosen rest.old) later.now) }
{
    let Item::Field { name, to } = item else {
        return Ok(made);
    };
    let Some(value) = take_value(alloc, rest, name.as_str(), moves, later)? else {
        return Ok(made);
    };
    let mut made = made;
    made.put_like(Some(names), to.as_str(), value)?;
    Ok(made)
}

// The value of a field; it is moved where that is asked and no later item chooses it.
#[tactic(auto, using(crate::proofs::ChoosingLemmas::chosen_still))]
fn take_value(
    alloc: Global,
    rest: &mut Tuple,
    name: &str,
    moves: bool,
    later: &[Item],
) -> Result<Option<Value>, Memory>
    ensures value { IfOk result (λ v. option_map datum_of v ≡ value_at name.now rest.old) }
    ensures rest { OnOk result (filter_map (chosen rest.new) later.now
        ≡ filter_map (chosen rest.old) later.now) }
{
    if !moves || is_chosen(name, later) {
        return copy_maybe(alloc, rest.get(name));
    }
    Ok(rest.remove(name))
}

fn copy_maybe(alloc: Global, value: Option<&Value>) -> Result<Option<Value>, Memory>
    ensures { IfOk result (λ v. option_map datum_of v ≡ option_map (λ w. datum_of w.now) value.entry) }
{
    match value {
        Some(value) => Ok(Some(value.copy(alloc)?)),
        None => Ok(None),
    }
}

// Whether one of the items chooses the field.
fn is_chosen(name: &str, items: &[Item]) -> bool
    ensures { result ≡ is_chosen name.now items.now }
{
    for item in items {
        if chooses(name, item) {
            return true;
        }
    }
    false
}

fn chooses(name: &str, item: &Item) -> bool
    ensures { result ≡ chooses name.now item.now }
{
    match item {
        Item::Field { name: field, .. } => name == field.as_str(),
        Item::Replace { .. } | Item::Concat { .. } => false,
    }
}

// The tuple after all replaces and concats.
fn all_changed(alloc: Global, tuple: Tuple, items: &[Item], names: &Tuple) -> Result<Tuple, Memory>
    ensures { IfOk result (λ after. after ≡ fold changed tuple items.now) }
{
    let mut after = tuple;
    for item in items {
        after = changed(alloc, after, item, names)?;
    }
    Ok(after)
}

// The tuple after an item that is a replace or a concat.
fn changed(alloc: Global, tuple: Tuple, item: &Item, names: &Tuple) -> Result<Tuple, Memory>
    ensures { IfOk result (λ after. after ≡ changed tuple item.now) }
{
    match item {
        Item::Field { .. } => Ok(tuple),
        Item::Replace { field, old, new } => replaced(alloc, tuple, field, old, new, names),
        Item::Concat {
            fields,
            into,
            delim,
        } => {
            let text = joined(alloc, fields, delim, &tuple)?;
            with_text(tuple, into, text, names)
        }
    }
}

fn replaced(
    alloc: Global,
    tuple: Tuple,
    field: &Text,
    old: &Option<Value>,
    new: &Option<Value>,
    names: &Tuple,
) -> Result<Tuple, Memory>
    ensures { IfOk result (λ after. after ≡ (if is_eq (option_cmp datum_cmp
        (value_at field.now tuple) (option_map datum_of old.now))
        then with_value field.now (option_map datum_of new.now) tuple else tuple)) }
{
    if compare(tuple.get(field.as_str()), old.as_ref()).is_ne() {
        return Ok(tuple);
    }
    with_value(alloc, tuple, field, new, names)
}

// The tuple with the value under the name, or without the field where there is none.
fn with_value(
    alloc: Global,
    tuple: Tuple,
    name: &Text,
    value: &Option<Value>,
    names: &Tuple,
) -> Result<Tuple, Memory>
    ensures { IfOk result (λ after. after
        ≡ with_value name.now (option_map datum_of value.now) tuple) }
{
    let mut tuple = tuple;
    match value {
        None => {
            tuple.remove(name.as_str());
        }
        Some(value) => tuple.put_like(Some(names), name.as_str(), value.copy(alloc)?)?,
    }
    Ok(tuple)
}

// The tuple with the text under the name, where there is one.
fn with_text(tuple: Tuple, name: &Text, text: Option<Text>, names: &Tuple) -> Result<Tuple, Memory>
    ensures { IfOk result (λ after. after ≡ with_text name.now text tuple) }
{
    let Some(text) = text else {
        return Ok(tuple);
    };
    let mut tuple = tuple;
    tuple.put_like(Some(names), name.as_str(), Value::Text(text))?;
    Ok(tuple)
}
