// The names of the fields that tuples have.
ghost use Rattle.std.specs.Prelude.{◌≡◌, ◌++◌, [], IfOk, OnOk, codes, map};
ghost use Rattle.expr_types.specs.ExprTree.{first_or};
ghost use Rattle.expr_check.specs.Fields.{keys_of, given_name, all_given, rolled_names};
ghost use Rattle.expr_check.specs.Fields.{all_names, topic_names};
ghost use Rattle.expr_check.specs.Reads.{with_name};

use expr_types::{Item, Items, Metrics};
use sort_spec::once;
use std::alloc::Global;
use tuple_values::{FieldList, Memory, Text, TryCopy, Tuple};

/// The first list, which is moved, or no names where there is none.
pub(crate) fn first_list(alloc: Global, lists: Vec<FieldList>) -> FieldList
    ensures { result ≡ first_or [] lists.items }
{
    match lists.into_iter().next() {
        Some(names) => names,
        None => FieldList::new(alloc),
    }
}

/// The names with `group`, which is added at the end where it isn't there.
pub(crate) fn with_group(alloc: Global, mut names: FieldList) -> Result<FieldList, Memory>
    ensures { IfOk result (λ list. list ≡ with_name names (codes "group")) }
{
    if !names.contains("group") {
        names.push(Text::of(alloc, "group")?)?;
    }
    Ok(names)
}

// Adds names at the end.
fn append(list: &mut FieldList, names: FieldList) -> Result<(), Memory>
    ensures { OnOk result (list.new ≡ list.old ++ names) }
{
    for name in names.into_vec() {
        list.push(name)?;
    }
    Ok(())
}

/// The names of all lists, each once.
pub(crate) fn all_names(alloc: Global, lists: Vec<FieldList>) -> Result<FieldList, Memory>
    ensures { IfOk result (λ list. list ≡ all_names lists.items) }
{
    let mut all = FieldList::new(alloc);
    for names in lists {
        append(&mut all, names)?;
    }
    once(alloc, all)
}

/// The names of a tuple's fields.
pub(crate) fn keys_of(alloc: Global, tuple: &Tuple) -> Result<FieldList, Memory>
    ensures { IfOk result (λ list. list ≡ keys_of tuple.now) }
{
    let mut list = FieldList::new(alloc);
    for k in 0..tuple.count() {
        let name = tuple.name(k).copy(alloc)?;
        list.push(name)?;
    }
    Ok(list)
}

/// The name to which an item gives a value.
pub(crate) fn given_name(item: &Item) -> &Text
    ensures { result.now ≡ given_name item.now }
{
    match item {
        Item::Field { to, .. } => to,
        Item::Replace { field, .. } => field,
        Item::Concat { into, .. } => into,
    }
}

/// The names to which items give a value, each once.
pub(crate) fn all_given(alloc: Global, items: &Items) -> Result<FieldList, Memory>
    ensures { IfOk result (λ list. list ≡ all_given items.now) }
{
    let mut list = FieldList::new(alloc);
    for item in items.as_slice() {
        list.push(given_name(item).copy(alloc)?)?;
    }
    once(alloc, list)
}

/// The names of a key and of metrics, each once.
pub(crate) fn rolled_names(
    alloc: Global,
    over: &FieldList,
    metrics: &Metrics,
) -> Result<FieldList, Memory>
    ensures { IfOk result (λ list. list ≡ rolled_names over.now metrics.now) }
{
    let mut list = over.copy(alloc)?;
    for metric in metrics.as_slice() {
        list.push(metric.name(alloc)?)?;
    }
    once(alloc, list)
}

/// The names of a topic's fields, each once.
pub(crate) fn topic_names(alloc: Global, fl: &FieldList) -> Result<FieldList, Memory>
    ensures { IfOk result (λ list. list ≡ topic_names fl.now) }
{
    let mut list = fl.copy(alloc)?;
    list.push(Text::of(alloc, "id")?)?;
    list.push(Text::of(alloc, "_version_")?)?;
    once(alloc, list)
}
