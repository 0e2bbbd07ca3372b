// The calls among the arguments of a function that are no inputs.
ghost use Rattle.std.specs.Prelude.{◌≡◌, IfOk, option_map};
ghost use Rattle.std.specs.List.{list_any};
ghost use Rattle.tuple_values.specs.Document.{is_named};
ghost use Rattle.expr_reader.specs.Tree.{trees_of};
ghost use Rattle.expr_reader.specs.Views.{call_tree, arg_tree};
ghost use Rattle.expr_plan.specs.Helpers.{is_metric_word, is_condition_word, is_helper_word, is_helper, is_key, is_input, are_items, is_single, helper_name, is_full, made_by, made_names, names_any};

use crate::function::helper_word;
use crate::metrics::metric_names;
use crate::param::{Param, Params};
use crate::row::{Function, Helpers, Place};
use expr_reader::{Arg, ArgValue, Args, Call};
use std::alloc::Global;
use tuple_values::{FieldList, Memory, Text};

fn is_metric_word(name: &str) -> bool
    ensures { result ≡ is_metric_word name.now }
{
    name == "sum" || name == "min" || name == "max" || name == "count"
}

fn is_condition_word(name: &str) -> bool
    ensures { result ≡ is_condition_word name.now }
{
    name == "eq"
        || name == "gt"
        || name == "lt"
        || name == "gteq"
        || name == "lteq"
        || name == "and"
        || name == "or"
        || name == "eor"
        || name == "not"
}

fn is_helper_word(helpers: Helpers, name: &str) -> bool
    ensures { result ≡ is_helper_word helpers name.now }
{
    match helpers {
        Helpers::Nothing => false,
        Helpers::Items => is_metric_word(name) || name == "replace" || name == "concat",
        Helpers::Condition => is_condition_word(name),
        Helpers::Group => name == "group",
        Helpers::Metrics => is_metric_word(name),
    }
}

/// Whether a call is a helper of the function.
pub(crate) fn is_helper(function: Function, call: &Call) -> bool
    ensures { result ≡ is_helper function (call_tree call.now) }
{
    is_helper_word(function.helpers(), call.name.as_str())
}

// Whether a key is this one, if there is one.
fn is_key(input_key: Option<&str>, key: &str) -> bool
    ensures { result ≡ is_key (option_map (λ name. name.now) input_key.entry) key.now }
{
    match input_key {
        Some(other) => other == key,
        None => false,
    }
}

/// Whether an argument is an input of the function at such a place.
pub(crate) fn is_input(place: Place, function: Function, arg: &Arg) -> bool
    ensures { result ≡ is_input place function (arg_tree arg.now) }
{
    match (place, arg) {
        (Place::Alone, Arg::Sub(call)) => !is_helper(function, call),
        (
            Place::UnderKey,
            Arg::Named {
                key,
                value: ArgValue::Sub(_),
            },
        ) => is_key(function.input_key(), key.as_str()),
        (_, Arg::Plain(_) | Arg::Named { .. } | Arg::Sub(_) | Arg::Renamed { .. }) => false,
    }
}

/// Whether these helpers are items.
pub(crate) fn are_items(helpers: Helpers) -> bool
    ensures { result ≡ are_items helpers }
{
    match helpers {
        Helpers::Items => true,
        Helpers::Nothing | Helpers::Condition | Helpers::Group | Helpers::Metrics => false,
    }
}

// Whether there may be but one of these helpers.
fn is_single(helpers: Helpers) -> bool
    ensures { result ≡ is_single helpers }
{
    match helpers {
        Helpers::Condition | Helpers::Group => true,
        Helpers::Nothing | Helpers::Items | Helpers::Metrics => false,
    }
}

/// What a function's helper is told as.
pub(crate) fn helper_name(function: Function) -> &'static str
    ensures { result.now ≡ helper_name function }
{
    helper_word(function.helpers())
}

/// Whether the function takes no helper besides those that are given.
pub(crate) fn is_full(function: Function, params: &Params) -> bool
    ensures { result ≡ is_full function params.now.items.items }
{
    is_single(function.helpers()) && params.has(helper_name(function))
}

#[tactic(auto, using(crate::proofs::WordsLemmas::list_steps))]
fn made_by(alloc: Global, helpers: Helpers, args: &Args) -> Result<FieldList, Memory>
    ensures { IfOk result (λ names. names ≡ made_by helpers (trees_of args.now)) }
{
    match helpers {
        Helpers::Nothing | Helpers::Items | Helpers::Condition => Ok(FieldList::new(alloc)),
        Helpers::Group => {
            let mut names = FieldList::new(alloc);
            names.push(Text::of(alloc, "group")?)?;
            Ok(names)
        }
        Helpers::Metrics => metric_names(alloc, args),
    }
}

/// The fields that a function of these arguments makes of each key.
pub(crate) fn made_names(
    alloc: Global,
    function: Function,
    args: &Args,
) -> Result<FieldList, Memory>
    ensures { IfOk result (λ names. names ≡ made_names function (trees_of args.now)) }
{
    made_by(alloc, function.helpers(), args)
}

fn any_named(made: &[Text], names: &FieldList) -> bool
    ensures { result ≡ list_any (λ name. is_named name names.now) made.now }
{
    for name in made {
        if names.contains(name.as_str()) {
            return true;
        }
    }
    false
}

/// Whether a parameter names one of the fields.
pub(crate) fn names_any(made: &FieldList, param: &Param) -> bool
    ensures { result ≡ names_any made.now param.now }
{
    match param {
        Param::Names(names) => any_named(made.as_slice(), names),
        _ => false,
    }
}
