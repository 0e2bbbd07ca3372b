// The condition among the arguments of `having`.
ghost use Rattle.std.specs.Prelude.{◌≡◌, IfOk, option_map};
ghost use Rattle.expr_reader.specs.Tree.{trees_of};
ghost use Rattle.expr_reader.specs.Views.{call_tree, arg_tree};
ghost use Rattle.expr_plan.specs.ConditionReading.{comparison_of, compared, compared_field, compare_called, one_of_two, not_one, joined, condition_of, conditions_of, condition_in};
ghost use Rattle.expr_plan.specs.Words.{plain_of};
ghost use Rattle.expr_types.specs.ConditionViews.{condition_tree, condition_trees};

use crate::literals::literal as literal_of;
use crate::metrics::metric_name_of;
use crate::words::{is_field, plain_of};
use crate::{Comparison, Condition, Conditions};
use expr_reader::{Arg, Args, Call};
use std::alloc::Global;
use tuple_values::{Memory, Text, TryCopy};

fn comparison_of(name: &str) -> Option<Comparison>
    ensures { result ≡ comparison_of name.now }
{
    match name {
        "eq" => Some(Comparison::Eq),
        "gt" => Some(Comparison::Gt),
        "lt" => Some(Comparison::Lt),
        "gteq" => Some(Comparison::Gteq),
        "lteq" => Some(Comparison::Lteq),
        _ => None,
    }
}

// The field that an argument is: a plain word, or a metric, whose name it then is.
fn compared_field(alloc: Global, arg: &Arg) -> Result<Option<Text>, Memory>
    ensures { IfOk result (λ field. field ≡ compared_field (arg_tree arg.now)) }
{
    match arg {
        Arg::Plain(word) if is_field(word.text.as_str()) => Ok(Some(word.text.copy(alloc)?)),
        Arg::Sub(call) => metric_name_of(alloc, call),
        _ => Ok(None),
    }
}

// A comparison of a field with a literal, each by its argument.
fn compare_by(
    alloc: Global,
    test: Comparison,
    field: &Arg,
    literal: &Arg,
) -> Result<Option<Condition>, Memory>
    ensures { IfOk result (λ found. option_map condition_tree found
        ≡ compared test (compared_field (arg_tree field.now)) (plain_of (arg_tree literal.now))) }
{
    match (compared_field(alloc, field)?, plain_of(literal)) {
        (Some(field), Some(word)) => {
            let literal = literal_of(alloc, word)?;
            Ok(Some(Condition::Compare {
                test,
                field,
                literal,
            }))
        }
        _ => Ok(None),
    }
}

fn compare_called(alloc: Global, test: Comparison, args: &Args) -> Result<Option<Condition>, Memory>
    ensures { IfOk result (λ found. option_map condition_tree found
        ≡ compare_called test args.now) }
{
    if args.count() != 2 {
        return Ok(None);
    }
    compare_by(alloc, test, args.get(0), args.get(1))
}

// Just one of two conditions.
fn one_of_two(alloc: Global, mut conditions: Conditions) -> Result<Option<Condition>, Memory>
    ensures { IfOk result (λ found. option_map condition_tree found
        ≡ one_of_two (condition_trees conditions.items)) }
{
    if conditions.len() != 2 {
        return Ok(None);
    }
    let left = Box::new(alloc, conditions.remove(0))?;
    let right = Box::new(alloc, conditions.remove(0))?;
    Ok(Some(Condition::OneOf(left, right)))
}

// Not the one condition.
fn not_one(alloc: Global, mut conditions: Conditions) -> Result<Option<Condition>, Memory>
    ensures { IfOk result (λ found. option_map condition_tree found
        ≡ not_one (condition_trees conditions.items)) }
{
    if conditions.len() != 1 {
        return Ok(None);
    }
    let condition = Box::new(alloc, conditions.remove(0))?;
    Ok(Some(Condition::Not(condition)))
}

// Conditions under a name.
fn joined(alloc: Global, name: &str, conditions: Conditions) -> Result<Option<Condition>, Memory>
    ensures { IfOk result (λ found. option_map condition_tree found
        ≡ joined name.now (condition_trees conditions.items)) }
{
    let several = conditions.len() >= 2;
    match name {
        "and" if several => Ok(Some(Condition::All(conditions))),
        "or" if several => Ok(Some(Condition::Any(conditions))),
        "eor" => one_of_two(alloc, conditions),
        "not" => not_one(alloc, conditions),
        _ => Ok(None),
    }
}

/// The condition that a call is.
#[tactic(auto, using(crate::proofs::WordsLemmas::list_steps))]
#[cycle(reading)]
pub(crate) fn condition_of(alloc: Global, call: &Call) -> Result<Option<Condition>, Memory>
    ensures { IfOk result (λ found. option_map condition_tree found
        ≡ condition_of (call_tree call.now)) }
{
    if let Some(test) = comparison_of(call.name.as_str()) {
        return compare_called(alloc, test, &call.args);
    }
    match conditions_of(alloc, &call.args)? {
        Some(conditions) => joined(alloc, call.name.as_str(), conditions),
        None => Ok(None),
    }
}

// The condition that an argument is.
#[cycle(reading)]
fn condition_in(alloc: Global, arg: &Arg) -> Result<Option<Condition>, Memory>
    ensures { IfOk result (λ found. option_map condition_tree found
        ≡ condition_in (arg_tree arg.now)) }
{
    match arg {
        Arg::Sub(call) => condition_of(alloc, call),
        _ => Ok(None),
    }
}

// The conditions that arguments are, if each is one.
#[cycle(reading)]
fn conditions_of(alloc: Global, args: &Args) -> Result<Option<Conditions>, Memory>
    ensures { IfOk result (λ found. option_map (λ c. condition_trees c.items) found
        ≡ conditions_of (trees_of args.now)) }
{
    let mut conditions = Vec::new(alloc);
    for k in 0..args.count() {
        match condition_in(alloc, args.get(k))? {
            Some(condition) => conditions.push(condition)?,
            None => return Ok(None),
        }
    }
    Ok(Some(conditions))
}
