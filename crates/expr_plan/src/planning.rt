// What a call stands for.
ghost use Rattle.std.specs.Prelude.{◌≡◌, ◌≤◌, [], ◌++◌, IfOk, IfErr, MatchResult, Ok, map, option_map, true, length};
ghost use Rattle.std.specs.List.{cons_option};
ghost use Rattle.expr_reader.specs.Tree.{trees_of, calls, call_limit};
ghost use Rattle.expr_reader.specs.Views.{call_tree, arg_tree};
ghost use Rattle.expr_plan.specs.Arguments.{walked};
ghost use Rattle.expr_types.specs.ExprTree.{expr_tree, node, inputs_of};
ghost use Rattle.expr_plan.specs.Fault.{IsFaultOf};
ghost use Rattle.expr_plan.specs.Functions.{name_of, takes, takes_all, first_missing};
ghost use Rattle.expr_plan.specs.Operators.{operator_of};
ghost use Rattle.expr_types.specs.Planned.{IsPlanned};
ghost use Rattle.expr_plan.specs.Law.{TellsFirst, StandsIfFaultless, AreKnown};
ghost use Rattle.expr_plan.specs.Walk.{inputs_found, complete, walked_of, planned, inputs_planned, input_planned};
ghost use Rattle.expr_plan.specs.declared.fault.PlanFault.TheVariants.{UnknownFunction, MissingParam, WrongInputs};
ghost use Rattle.expr_plan.specs.declared.row.Place.TheVariants.{Alone};

use crate::building::expression;
use crate::function::function_of;
use crate::given_items::push_some;
use crate::helpers::{is_input, made_names};
use crate::param::Params;
use crate::row::{Function, Place};
use crate::walk::{inputs_found, params_of};
use crate::{Expr, Exprs, PlanFault};
use expr_reader::{Arg, ArgValue, Args, Call};
use std::alloc::Global;
use tuple_values::{Memory, Sequence, Text, TryCopy};

fn missing(alloc: Global, function: Function, name: &str) -> Result<PlanFault, Memory>
    ensures { IfOk result (λ fault. fault ≡ MissingParam (name_of function) name.now) }
{
    let function = Text::of(alloc, function.name())?;
    let name = Text::of(alloc, name)?;
    Ok(PlanFault::MissingParam { function, name })
}

fn wrong_inputs(alloc: Global, function: Function, found: u64) -> Result<PlanFault, Memory>
    ensures { IfOk result (λ fault. fault ≡ WrongInputs (name_of function) found) }
{
    let function = Text::of(alloc, function.name())?;
    Ok(PlanFault::WrongInputs { function, found })
}

fn unknown(alloc: Global, name: &Text) -> Result<PlanFault, Memory>
    ensures { IfOk result (λ fault. fault ≡ UnknownFunction name.now) }
{
    let name = name.copy(alloc)?;
    Ok(PlanFault::UnknownFunction { name })
}

// Whether as many arguments are inputs as the function takes.
fn check_inputs(alloc: Global, function: Function, args: &Args) -> Result<(), PlanFault>
    ensures { MatchResult result
        (λ _. takes function (inputs_found Alone function (trees_of args.now)) ≡ true)
        (IsFaultOf (walked_of function (trees_of args.now))) }
{
    let found = inputs_found(Place::Alone, function, args);
    if function.takes(found) {
        Ok(())
    } else {
        Err(wrong_inputs(alloc, function, found)?)
    }
}

// Whether no parameter is missing.
fn check_complete(alloc: Global, function: Function, params: &Params) -> Result<(), PlanFault>
    ensures { MatchResult result
        (λ _. complete function (walked params.now)
        (first_missing function params.now.items.items) ≡ Ok (walked params.now))
        (IsFaultOf (complete function (walked params.now)
        (first_missing function params.now.items.items))) }
{
    match function.first_missing(params) {
        Some(name) => Err(missing(alloc, function, name)?),
        None => Ok(()),
    }
}

// What the arguments of a function give, or the first fault that isn't in an input.
fn walk_args(alloc: Global, function: Function, args: &Args) -> Result<Params, PlanFault>
    ensures { MatchResult result
        (λ params. walked_of function (trees_of args.now) ≡ Ok (walked params))
        (IsFaultOf (walked_of function (trees_of args.now))) }
{
    check_inputs(alloc, function, args)?;
    let made = made_names(alloc, function, args)?;
    let params = params_of(alloc, function, &made, args)?;
    check_complete(alloc, function, &params)?;
    Ok(params)
}

// The expression of a function with its parameters and its inputs, those under a key behind the
// others.
fn combined(
    alloc: Global,
    function: Function,
    params: Params,
    mut inputs: Exprs,
    mut keyed: Exprs,
) -> Result<Expr, Memory>
    requires { takes_all function (length (inputs.items ++ keyed.items)) ≡ true }
    ensures { IfOk result (λ e. expr_tree e
        ≡ node (operator_of function (walked params))
        (inputs_of (map expr_tree inputs.items ++ map expr_tree keyed.items))) }
{
    inputs.append(&mut keyed)?;
    expression(alloc, function, params, inputs)
}

/// The expression that a call stands for (Solr Reference Guide, "Stream Source Reference" and
/// "Stream Decorator Reference"), or its first fault: an unknown name, another number of inputs,
/// the arguments from the left to the right, what is missing, and then the inputs in the same way.
#[cycle(planning)]
pub fn plan(alloc: Global, call: &Call) -> Result<Expr, PlanFault>
    ensures ok { IfOk result (λ e. planned (call_tree call.now) ≡ Ok (expr_tree e)) }
    ensures planned { IfOk result (λ e. calls (call_tree call.now) ≤ call_limit
        → IsPlanned (expr_tree e)) }
    ensures err { IfErr result (IsFaultOf (planned (call_tree call.now))) }
{
    let Some(function) = function_of(call.name.as_str()) else {
        return Err(unknown(alloc, &call.name)?);
    };
    let params = walk_args(alloc, function, &call.args)?;
    let inputs = plan_inputs(alloc, Place::Alone, function, &call.args)?;
    let keyed = plan_inputs(alloc, Place::UnderKey, function, &call.args)?;
    Ok(combined(alloc, function, params, inputs, keyed)?)
}

/// The law of plans: the fault that is told of a call is the first of all its faults, and a call
/// without one stands for an expression.
pub fn first_fault_is_told()
    ensures first { TellsFirst }
    ensures faultless { StandsIfFaultless }
    ensures known { AreKnown }
{}

// What an argument stands for that may be an input.
#[cycle(planning)]
fn plan_input(
    alloc: Global,
    place: Place,
    function: Function,
    arg: &Arg,
) -> Result<Option<Expr>, PlanFault>
    ensures { MatchResult result
        (λ e. input_planned place function (arg_tree arg.now)
        ≡ Ok (cons_option (option_map expr_tree e) []))
        (IsFaultOf (input_planned place function (arg_tree arg.now))) }
{
    if !is_input(place, function, arg) {
        return Ok(None);
    }
    match arg {
        Arg::Sub(call)
        | Arg::Named {
            value: ArgValue::Sub(call),
            ..
        } => Ok(Some(plan(alloc, call)?)),
        Arg::Plain(_) | Arg::Named { .. } | Arg::Renamed { .. } => unreachable!(),
    }
}

// What the inputs of a function at such a place stand for.
#[cycle(planning)]
fn plan_inputs(
    alloc: Global,
    place: Place,
    function: Function,
    args: &Args,
) -> Result<Exprs, PlanFault>
    ensures { MatchResult result
        (λ inputs. inputs_planned place function (trees_of args.now)
        ≡ Ok (map expr_tree inputs.items))
        (IsFaultOf (inputs_planned place function (trees_of args.now))) }
{
    let mut inputs = Sequence::new(alloc);
    for k in 0..args.count() {
        let input = plan_input(alloc, place, function, args.get(k))?;
        push_some(&mut inputs, input)?;
    }
    Ok(inputs.into_vec())
}
