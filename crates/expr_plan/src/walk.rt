// The arguments of a call, from the left to the right.
ghost use Rattle.std.specs.Prelude.{◌≡◌, MatchResult, Ok, option_map};
ghost use Rattle.expr_reader.specs.Tree.{trees_of};
ghost use Rattle.expr_reader.specs.Views.{arg_tree, call_tree};
ghost use Rattle.expr_plan.specs.Given.{nothing_given};
ghost use Rattle.expr_plan.specs.Arguments.{walked, with_operand, with_read, with_item, with_plain, with_named, with_word, may_be_call, with_call, with_condition, with_helper, with_sub, with_renamed, with_arg, with_args};
ghost use Rattle.expr_plan.specs.ConditionReading.{condition_of};
ghost use Rattle.expr_plan.specs.Fault.{IsFaultOf};
ghost use Rattle.expr_plan.specs.Functions.{next_operand, shape_of};
ghost use Rattle.expr_plan.specs.Walk.{inputs_found};

use crate::conditions::condition_of;
use crate::groups::group_of;
use crate::helpers::{are_items, helper_name, is_full, is_helper, is_input, names_any};
use crate::items::{field_item, item_of, renamed_item};
use crate::metrics::metric_of;
use crate::param::{Param, Params};
use crate::reading::{bad, read_as};
use crate::row::{Function, Helpers, Place, Shape};
use crate::{Item, PlanFault};
use expr_reader::{Arg, ArgValue, Args, Call, Word};
use std::alloc::Global;
use tuple_values::{FieldList, Text, TryCopy};

fn add_operand(
    alloc: Global,
    function: Function,
    params: &mut Params,
    word: &Word,
) -> Result<(), PlanFault>
    ensures { MatchResult result
        (λ _. with_operand function (walked params.old) word.now.text
        (next_operand function params.old.items.items) ≡ Ok (walked params.new))
        (IsFaultOf (with_operand function (walked params.old) word.now.text
        (next_operand function params.old.items.items))) }
{
    match function.next_operand(params) {
        Some(name) => {
            let text = word.text.copy(alloc)?;
            Ok(params.add(alloc, name, Param::Plain(text))?)
        }
        None => Err(bad(alloc, function, "operand")?),
    }
}

// What was read of a helper.
fn add_read(
    alloc: Global,
    function: Function,
    params: &mut Params,
    read: Option<Param>,
) -> Result<(), PlanFault>
    ensures { MatchResult result
        (λ _. with_read function (walked params.old) read ≡ Ok (walked params.new))
        (IsFaultOf (with_read function (walked params.old) read)) }
{
    let name = helper_name(function);
    match read {
        Some(param) => Ok(params.add(alloc, name, param)?),
        None => Err(bad(alloc, function, name)?),
    }
}

// What was read as an item.
fn add_item(
    alloc: Global,
    function: Function,
    params: &mut Params,
    item: Option<Item>,
) -> Result<(), PlanFault>
    ensures { MatchResult result
        (λ _. with_item function (walked params.old) item ≡ Ok (walked params.new))
        (IsFaultOf (with_item function (walked params.old) item)) }
{
    add_read(alloc, function, params, item.map(Param::Item))
}

fn add_plain(
    alloc: Global,
    function: Function,
    params: &mut Params,
    word: &Word,
) -> Result<(), PlanFault>
    ensures { MatchResult result
        (λ _. with_plain function (walked params.old) word.now.text ≡ Ok (walked params.new))
        (IsFaultOf (with_plain function (walked params.old) word.now.text)) }
{
    if are_items(function.helpers()) {
        let item = field_item(alloc, word.text.as_str())?;
        add_item(alloc, function, params, item)
    } else {
        add_operand(alloc, function, params, word)
    }
}

// What was read under a key.
fn add_named(
    alloc: Global,
    function: Function,
    made: &FieldList,
    params: &mut Params,
    key: Text,
    param: Param,
) -> Result<(), PlanFault>
    ensures { MatchResult result
        (λ _. with_named function made.now (walked params.old) key param
        ≡ Ok (walked params.new))
        (IsFaultOf (with_named function made.now (walked params.old) key param)) }
{
    if names_any(made, &param) {
        drop(param);
        return Err(bad(alloc, function, key.as_str())?);
    }
    Ok(params.push(key, param)?)
}

fn add_word(
    alloc: Global,
    function: Function,
    made: &FieldList,
    params: &mut Params,
    key: &Text,
    word: &Word,
) -> Result<(), PlanFault>
    ensures { MatchResult result
        (λ _. with_word function made.now (walked params.old) key.now word.now.text
        word.now.quoted (shape_of function key.now) ≡ Ok (walked params.new))
        (IsFaultOf (with_word function made.now (walked params.old) key.now word.now.text
        word.now.quoted (shape_of function key.now))) }
{
    match function.shape_of(key.as_str()) {
        Some(shape) if !params.has(key.as_str()) => {
            let name = key.copy(alloc)?;
            let param = read_as(alloc, shape, function, key.as_str(), word)?;
            add_named(alloc, function, made, params, name, param)
        }
        _ => Err(bad(alloc, function, key.as_str())?),
    }
}

fn may_be_call(shape: Shape) -> bool
    ensures { result ≡ may_be_call shape }
{
    match shape {
        Shape::Anything | Shape::Input => true,
        Shape::Literal
        | Shape::Names
        | Shape::FieldNames
        | Shape::Sort
        | Shape::Pairs
        | Shape::Query
        | Shape::KeptQuery
        | Shape::Number { .. }
        | Shape::Small { .. }
        | Shape::Id
        | Shape::Flag
        | Shape::True => false,
    }
}

fn add_call(
    alloc: Global,
    function: Function,
    params: &mut Params,
    key: &Text,
) -> Result<(), PlanFault>
    ensures { MatchResult result
        (λ _. with_call function (walked params.old) key.now (shape_of function key.now)
        ≡ Ok (walked params.new))
        (IsFaultOf (with_call function (walked params.old) key.now
        (shape_of function key.now))) }
{
    match function.shape_of(key.as_str()) {
        Some(shape) if !params.has(key.as_str()) && may_be_call(shape) => {
            Ok(params.push(key.copy(alloc)?, Param::Nothing)?)
        }
        _ => Err(bad(alloc, function, key.as_str())?),
    }
}

fn add_condition(
    alloc: Global,
    function: Function,
    params: &mut Params,
    call: &Call,
) -> Result<(), PlanFault>
    ensures { MatchResult result
        (λ _. with_condition function (walked params.old) (condition_of (call_tree call.now))
        ≡ Ok (walked params.new))
        (IsFaultOf (with_condition function (walked params.old)
        (condition_of (call_tree call.now)))) }
{
    match condition_of(alloc, call)? {
        Some(condition) => {
            params.put_condition(condition);
            Ok(params.add(alloc, "condition", Param::Nothing)?)
        }
        None => Err(bad(alloc, function, "condition")?),
    }
}

fn add_helper(
    alloc: Global,
    helpers: Helpers,
    function: Function,
    params: &mut Params,
    call: &Call,
) -> Result<(), PlanFault>
    ensures { MatchResult result
        (λ _. with_helper helpers function (walked params.old) (call_tree call.now)
        ≡ Ok (walked params.new))
        (IsFaultOf (with_helper helpers function (walked params.old) (call_tree call.now))) }
{
    match helpers {
        Helpers::Nothing => Ok(()),
        Helpers::Items => {
            let item = item_of(alloc, call)?;
            add_item(alloc, function, params, item)
        }
        Helpers::Condition => add_condition(alloc, function, params, call),
        Helpers::Group => {
            let group = group_of(alloc, call)?;
            add_read(alloc, function, params, group.map(Param::Group))
        }
        Helpers::Metrics => {
            let metric = metric_of(alloc, call)?;
            add_read(alloc, function, params, metric.map(Param::Metric))
        }
    }
}

fn add_sub(
    alloc: Global,
    function: Function,
    params: &mut Params,
    call: &Call,
) -> Result<(), PlanFault>
    ensures { MatchResult result
        (λ _. with_sub function (walked params.old) (call_tree call.now)
        ≡ Ok (walked params.new))
        (IsFaultOf (with_sub function (walked params.old) (call_tree call.now))) }
{
    if !is_helper(function, call) {
        return Ok(());
    }
    if is_full(function, params) {
        return Err(bad(alloc, function, "operand")?);
    }
    add_helper(alloc, function.helpers(), function, params, call)
}

fn add_renamed(
    alloc: Global,
    function: Function,
    params: &mut Params,
    call: &Call,
    to: &Text,
) -> Result<(), PlanFault>
    ensures { MatchResult result
        (λ _. with_renamed function (walked params.old) (call_tree call.now) to.now
        ≡ Ok (walked params.new))
        (IsFaultOf (with_renamed function (walked params.old) (call_tree call.now) to.now)) }
{
    if are_items(function.helpers()) && is_helper(function, call) {
        let item = renamed_item(alloc, call, to)?;
        add_item(alloc, function, params, item)
    } else {
        Err(bad(alloc, function, "operand")?)
    }
}

fn add_arg(
    alloc: Global,
    function: Function,
    made: &FieldList,
    params: &mut Params,
    arg: &Arg,
) -> Result<(), PlanFault>
    ensures { MatchResult result
        (λ _. with_arg function made.now (walked params.old) (arg_tree arg.now)
        ≡ Ok (walked params.new))
        (IsFaultOf (with_arg function made.now (walked params.old) (arg_tree arg.now))) }
{
    match arg {
        Arg::Plain(word) => add_plain(alloc, function, params, word),
        Arg::Named {
            key,
            value: ArgValue::Plain(word),
        } => add_word(alloc, function, made, params, key, word),
        Arg::Named {
            key,
            value: ArgValue::Sub(_),
        } => add_call(alloc, function, params, key),
        Arg::Sub(call) => add_sub(alloc, function, params, call),
        Arg::Renamed { call, to } => add_renamed(alloc, function, params, call, to),
    }
}

/// The parameters of all arguments, or the first fault among them.
pub(crate) fn params_of(
    alloc: Global,
    function: Function,
    made: &FieldList,
    args: &Args,
) -> Result<Params, PlanFault>
    ensures { MatchResult result
        (λ params. with_args function made.now nothing_given (trees_of args.now)
        ≡ Ok (walked params))
        (IsFaultOf (with_args function made.now nothing_given (trees_of args.now))) }
{
    let mut params = Params::new(alloc);
    for k in 0..args.count() {
        add_arg(alloc, function, made, &mut params, args.get(k))?;
    }
    Ok(params)
}

/// How many arguments are inputs at such a place.
pub(crate) fn inputs_found(place: Place, function: Function, args: &Args) -> u64
    ensures { result ≡ inputs_found place function (trees_of args.now) }
{
    let mut found: u64 = 0;
    for k in 0..args.count() {
        if is_input(place, function, args.get(k)) {
            found += 1;
        }
    }
    found
}
