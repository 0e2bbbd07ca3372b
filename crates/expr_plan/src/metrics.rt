// Metrics among the arguments of a call.
ghost use Rattle.std.specs.Prelude.{◌≡◌, IfOk, option_map};
ghost use Rattle.expr_reader.specs.Views.{call_tree, arg_tree};
ghost use Rattle.expr_types.specs.Groups.{metric_name};
ghost use Rattle.expr_plan.specs.Items.{metric_of_field, metric_over, metric_called, metric_of_call, metric_of_arg, metric_names};

use crate::Metric;
use crate::given_items::push_some;
use crate::words::{is_field, plain_at};
use expr_reader::{Arg, Args, Call};
use std::alloc::Global;
use tuple_values::{FieldList, Memory, Text};

// The metric of a name over a field, if there is one.
fn metric_of_field(alloc: Global, name: &str, field: &str) -> Result<Option<Metric>, Memory>
    ensures { IfOk result (λ metric. metric ≡ metric_of_field name.now field.now) }
{
    match name {
        "sum" => Ok(Some(Metric::Sum(Text::of(alloc, field)?))),
        "min" => Ok(Some(Metric::Min(Text::of(alloc, field)?))),
        "max" => Ok(Some(Metric::Max(Text::of(alloc, field)?))),
        _ => Ok(None),
    }
}

// The metric of a name over a text.
fn metric_over(alloc: Global, name: &str, text: &str) -> Result<Option<Metric>, Memory>
    ensures { IfOk result (λ metric. metric ≡ metric_over name.now text.now) }
{
    if name == "count" {
        if text == "*" {
            return Ok(Some(Metric::Count));
        }
        return Ok(None);
    }
    if is_field(text) {
        metric_of_field(alloc, name, text)
    } else {
        Ok(None)
    }
}

/// The metric of a name with arguments: one, which is a plain word.
pub(crate) fn metric_called(
    alloc: Global,
    name: &str,
    args: &Args,
) -> Result<Option<Metric>, Memory>
    ensures { IfOk result (λ metric. metric ≡ metric_called name.now args.now) }
{
    if args.count() != 1 {
        return Ok(None);
    }
    match plain_at(args, 0) {
        Some(word) => metric_over(alloc, name, word.text.as_str()),
        None => Ok(None),
    }
}

/// The metric that a call is.
#[tactic(auto, using(crate::proofs::WordsLemmas::list_steps))]
pub(crate) fn metric_of(alloc: Global, call: &Call) -> Result<Option<Metric>, Memory>
    ensures { IfOk result (λ metric. metric ≡ metric_of_call (call_tree call.now)) }
{
    metric_called(alloc, call.name.as_str(), &call.args)
}

/// The name of the metric that a call is.
pub(crate) fn metric_name_of(alloc: Global, call: &Call) -> Result<Option<Text>, Memory>
    ensures { IfOk result (λ name. name
        ≡ option_map metric_name (metric_of_call (call_tree call.now))) }
{
    match metric_of(alloc, call)? {
        Some(metric) => Ok(Some(metric.name(alloc)?)),
        None => Ok(None),
    }
}

fn metric_name_in(alloc: Global, arg: &Arg) -> Result<Option<Text>, Memory>
    ensures { IfOk result (λ name. name
        ≡ option_map metric_name (metric_of_arg (arg_tree arg.now))) }
{
    match arg {
        Arg::Sub(call) => metric_name_of(alloc, call),
        _ => Ok(None),
    }
}

/// The names of the metrics among arguments.
pub(crate) fn metric_names(alloc: Global, args: &Args) -> Result<FieldList, Memory>
    ensures { IfOk result (λ names. names ≡ metric_names args.now) }
{
    let mut names = FieldList::new(alloc);
    for k in 0..args.count() {
        let name = metric_name_in(alloc, args.get(k))?;
        push_some(&mut names, name)?;
    }
    Ok(names)
}
