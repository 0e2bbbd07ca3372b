// Items among the arguments of `select`.
ghost use Rattle.std.specs.Prelude.{◌≡◌, IfOk, Some, option_map};
ghost use Rattle.expr_reader.specs.Views.{call_tree};
ghost use Rattle.expr_plan.specs.Items.{unblanked, begins_blank, behind_as, renamed_field, field_item, replaced, replace_called, concatenated, concat_called, item_of_call, renamed_item, metric_of_call, metric_item};

use crate::Item;
use crate::literals::literal_or_null;
use crate::metrics::metric_name_of;
use crate::words::{blank_end, field_end, is_field, plain_at, word_under};
use expr_reader::{Args, Call, Word};
use sort_spec::{SortFault, read_names};
use std::alloc::Global;
use tuple_values::{Memory, Text, TryCopy};

fn unblanked(text: &str) -> &str
    ensures { result.now ≡ unblanked text.now }
{
    &text[blank_end(text)..]
}

fn begins_blank(text: &str) -> bool
    ensures { result ≡ begins_blank text.now }
{
    blank_end(text) > 0
}

// The field behind `as`, which stands between blanks.
fn behind_as(text: &str) -> Option<&str>
    ensures { option_map (λ name. name.now) result ≡ behind_as text.now }
{
    let rest = unblanked(text).strip_prefix("as")?;
    let name = unblanked(rest);
    if begins_blank(text) && begins_blank(rest) && is_field(name) {
        Some(name)
    } else {
        None
    }
}

fn renamed_field(alloc: Global, text: &str) -> Result<Option<Item>, Memory>
    ensures { IfOk result (λ item. item ≡ renamed_field text.now) }
{
    let end = field_end(text);
    let name = &text[..end];
    if !is_field(name) {
        return Ok(None);
    }
    match behind_as(&text[end..]) {
        Some(to) => {
            let name = Text::of(alloc, name)?;
            let to = Text::of(alloc, to)?;
            Ok(Some(Item::Field { name, to }))
        }
        None => Ok(None),
    }
}

/// The item that a text is: a field, or a field, `as` and its new name.
pub(crate) fn field_item(alloc: Global, text: &str) -> Result<Option<Item>, Memory>
    ensures { IfOk result (λ item. item ≡ field_item text.now) }
{
    if is_field(text) {
        let name = Text::of(alloc, text)?;
        let to = Text::of(alloc, text)?;
        return Ok(Some(Item::Field { name, to }));
    }
    renamed_field(alloc, text)
}

fn replace_by(alloc: Global, field: &Word, old: &Word, new: &Word) -> Result<Option<Item>, Memory>
    ensures { IfOk result (λ item. item ≡ replaced (Some field.now) (Some old.now) (Some new.now)) }
{
    if !is_field(field.text.as_str()) {
        return Ok(None);
    }
    let field = field.text.copy(alloc)?;
    let old = literal_or_null(alloc, old)?;
    let new = literal_or_null(alloc, new)?;
    Ok(Some(Item::Replace { field, old, new }))
}

fn replace_called(alloc: Global, args: &Args) -> Result<Option<Item>, Memory>
    ensures { IfOk result (λ item. item ≡ replace_called args.now) }
{
    if args.count() != 3 {
        return Ok(None);
    }
    match (
        plain_at(args, 0),
        plain_at(args, 1),
        word_under(args, "withValue"),
    ) {
        (Some(field), Some(old), Some(new)) => replace_by(alloc, field, old, new),
        _ => Ok(None),
    }
}

fn concat_by(
    alloc: Global,
    fields: &Word,
    into: &Word,
    delim: &Word,
) -> Result<Option<Item>, Memory>
    ensures { IfOk result (λ item. item
        ≡ concatenated (Some fields.now) (Some into.now) (Some delim.now)) }
{
    if !is_field(into.text.as_str()) {
        return Ok(None);
    }
    match read_names(alloc, fields.text.as_str()) {
        Ok(fields) => {
            let into = into.text.copy(alloc)?;
            let delim = delim.text.copy(alloc)?;
            Ok(Some(Item::Concat {
                fields,
                into,
                delim,
            }))
        }
        Err(SortFault::BadSort { .. }) => Ok(None),
        Err(SortFault::OutOfMemory) => Err(Memory::OutOfMemory),
    }
}

fn concat_called(alloc: Global, args: &Args) -> Result<Option<Item>, Memory>
    ensures { IfOk result (λ item. item ≡ concat_called args.now) }
{
    if args.count() != 3 {
        return Ok(None);
    }
    match (
        word_under(args, "fields"),
        word_under(args, "as"),
        word_under(args, "delim"),
    ) {
        (Some(fields), Some(into), Some(delim)) => concat_by(alloc, fields, into, delim),
        _ => Ok(None),
    }
}

fn metric_item(alloc: Global, call: &Call) -> Result<Option<Item>, Memory>
    ensures { IfOk result (λ item. item
        ≡ option_map metric_item (metric_of_call (call_tree call.now))) }
{
    match metric_name_of(alloc, call)? {
        Some(name) => {
            let to = name.copy(alloc)?;
            Ok(Some(Item::Field { name, to }))
        }
        None => Ok(None),
    }
}

/// The item that a call is.
#[tactic(auto, using(crate::proofs::WordsLemmas::list_steps))]
pub(crate) fn item_of(alloc: Global, call: &Call) -> Result<Option<Item>, Memory>
    ensures { IfOk result (λ item. item ≡ item_of_call (call_tree call.now)) }
{
    match call.name.as_str() {
        "replace" => replace_called(alloc, &call.args),
        "concat" => concat_called(alloc, &call.args),
        _ => metric_item(alloc, call),
    }
}

/// The item that a call with a new name is: a metric.
pub(crate) fn renamed_item(alloc: Global, call: &Call, to: &Text) -> Result<Option<Item>, Memory>
    ensures { IfOk result (λ item. item ≡ renamed_item (call_tree call.now) to.now) }
{
    match metric_name_of(alloc, call)? {
        Some(name) => {
            let to = to.copy(alloc)?;
            Ok(Some(Item::Field { name, to }))
        }
        None => Ok(None),
    }
}
