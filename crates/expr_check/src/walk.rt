// The walk over an expression: its order, its fields and keys, its collections, its first fault, and
// what it holds of its inputs.
ghost use Rattle.std.specs.Prelude.{◌≡◌, ◌<◌, IfOk, OnOk, None, fold, vec_len, vec_capacity};
ghost use Rattle.std.specs.Option.{option_or};
ghost use Rattle.tuple_values.specs.Collections.{is_known};
ghost use Rattle.sort_spec.specs.Texts.{once};
ghost use Rattle.expr_types.specs.ExprTree.{expr_tree, inputs_in, inputs_of, operator_in};
ghost use Rattle.expr_types.specs.Names.{function_name};
ghost use Rattle.expr_types.specs.Planned.{IsPlanned};
ghost use Rattle.expr_check.specs.Held.{AreHeld, IsHeld};
ghost use Rattle.expr_check.specs.Reads.{with_name};
ghost use Rattle.expr_check.specs.Rules.{read_by, order_given, fields_given, keys_given};
ghost use Rattle.expr_check.specs.Walk.{order_of, fields_of, keys_of, keyless_of, collections_of};
ghost use Rattle.expr_check.specs.Walk.{fault_where, faults_where, all_searched, unkeyed};
ghost use Rattle.expr_check.specs.Walked.{AreWalked, IsNoneBelow, IsOneMore, IsSameBelow};

use crate::checked::Within;
use crate::faulting::fault_at;
use crate::holding::hold_faultless;
use crate::keys::{keyless_at, keys_given};
use crate::reads::{add_names, read_by};
use crate::roots::Place;
use crate::rules::{fields_given, order_given};
use crate::standing::place_in;
use crate::walked::{Walked, WalkedInputs};
use crate::{CheckFault, Order, Roots};
use expr_types::Expr;
use std::alloc::Global;
use tuple_values::{FieldList, Memory, Names, Text};

// What is known of the inputs of an expression, with what each of them holds.
#[derive(Drop)]
struct Below {
    inputs: WalkedInputs,
    withins: Vec<Within>,
}

/// What is known of an expression that stands at this place.
#[cycle(walking)]
pub(crate) fn walk(
    alloc: Global,
    expr: &Expr,
    place: Place,
    names: &Names,
    roots: Roots,
) -> Result<Walked, Memory>
    requires planned { IsPlanned (expr_tree expr.now) }
    ensures order { IfOk result (λ walked. walked.order ≡ order_of (expr_tree expr.now)) }
    ensures fields { IfOk result (λ walked. walked.fields ≡ fields_of (expr_tree expr.now)) }
    ensures keys { IfOk result (λ walked. walked.keys ≡ keys_of (expr_tree expr.now)) }
    ensures keyless { IfOk result (λ walked. walked.keyless ≡ keyless_of (expr_tree expr.now)) }
    ensures reads { IfOk result (λ walked. walked.reads ≡ collections_of (expr_tree expr.now)) }
    ensures fault { IfOk result (λ walked. walked.fault
        ≡ fault_where roots place (λ name. is_known name names.now) (expr_tree expr.now)) }
    ensures held { IfOk result (λ walked. walked.fault ≡ None
        → IsHeld walked.within (expr_tree expr.now)) }
{
    let Below { inputs, withins } = walk_inputs(alloc, expr, place_in(expr, place), names, roots)?;
    let own = fault_at(alloc, expr, &inputs, place, names, roots)?;
    let within = hold_faultless(alloc, expr, &own, &inputs, withins)?;
    let walked = found(alloc, expr, inputs, own, within)?;
    Ok(walked)
}

// What is known of an expression by what is known of its inputs, its own fault and what it holds.
fn found(
    alloc: Global,
    expr: &Expr,
    inputs: WalkedInputs,
    own: Option<CheckFault>,
    within: Within,
) -> Result<Walked, Memory>
    requires { AreWalked inputs (expr_tree expr.now) }
    ensures order { IfOk result (λ walked. walked.order ≡ order_of (expr_tree expr.now)) }
    ensures fields { IfOk result (λ walked. walked.fields ≡ fields_of (expr_tree expr.now)) }
    ensures keys { IfOk result (λ walked. walked.keys ≡ keys_of (expr_tree expr.now)) }
    ensures keyless { IfOk result (λ walked. walked.keyless ≡ keyless_of (expr_tree expr.now)) }
    ensures reads { IfOk result (λ walked. walked.reads ≡ inputs.reads) }
    ensures fault { IfOk result (λ walked. walked.fault ≡ option_or own inputs.fault) }
    ensures within { IfOk result (λ walked. walked.within ≡ within) }
{
    let WalkedInputs {
        orders,
        fields,
        keys,
        keyless,
        reads,
        fault,
    } = inputs;
    let fault = own.or(fault);
    let Output {
        order,
        fields,
        keys,
        keyless,
    } = make_output(alloc, expr, orders, fields, keys, keyless)?;
    Ok(Walked {
        order,
        fields,
        keys,
        keyless,
        reads,
        fault,
        within,
    })
}

// What a function gives: the order and the fields of its tuples, and their keys.
#[derive(Drop)]
struct Output {
    order: Order,
    fields: FieldList,
    keys: Option<FieldList>,
    keyless: Option<Text>,
}

// What the function gives where its inputs give this.
fn make_output(
    alloc: Global,
    expr: &Expr,
    orders: Vec<Order>,
    fields: Vec<FieldList>,
    keys: Vec<Option<FieldList>>,
    keyless: Option<Text>,
) -> Result<Output, Memory>
    ensures order { IfOk result (λ output. output.order
        ≡ order_given (operator_in (expr_tree expr.now)) orders.items fields.items) }
    ensures fields { IfOk result (λ output. output.fields
        ≡ fields_given (operator_in (expr_tree expr.now)) fields.items) }
    ensures keys { IfOk result (λ output. output.keys
        ≡ keys_given (operator_in (expr_tree expr.now)) fields.items keys.items) }
    ensures keyless { IfOk result (λ output. output.keyless ≡ option_or keyless
        (unkeyed (function_name (operator_in (expr_tree expr.now))) output.keys)) }
{
    let order = order_given(alloc, expr, orders, fields.as_slice())?;
    let keys = keys_given(alloc, expr, fields.as_slice(), keys)?;
    let keyless = keyless_at(alloc, expr, keyless, &keys)?;
    let fields = fields_given(alloc, expr, fields)?;
    Ok(Output {
        order,
        fields,
        keys,
        keyless,
    })
}

// What is known of the inputs of an expression, which stand at this place.
#[cycle(walking)]
fn walk_inputs(
    alloc: Global,
    expr: &Expr,
    place: Place,
    names: &Names,
    roots: Roots,
) -> Result<Below, Memory>
    requires planned { IsPlanned (expr_tree expr.now) }
    ensures found { IfOk result (λ below. AreWalked below.inputs (expr_tree expr.now)) }
    ensures reads { IfOk result (λ below. below.inputs.reads
        ≡ fold with_name (once (read_by (operator_in (expr_tree expr.now))))
        (all_searched (inputs_of (inputs_in (expr_tree expr.now))))) }
    ensures fault { IfOk result (λ below. below.inputs.fault
        ≡ faults_where roots place (λ name. is_known name names.now)
        (inputs_of (inputs_in (expr_tree expr.now)))) }
    ensures held { IfOk result (λ below. below.inputs.fault ≡ None
        → AreHeld below.withins.items (inputs_in (expr_tree expr.now))) }
{
    let mut below = none_below(alloc, expr)?;
    for k in 0..expr.input_count() {
        let walked = walk(alloc, expr.input(k), place, names, roots)?;
        add(&mut below, walked)?;
    }
    Ok(below)
}

// What is known before the first input: the collections that the function itself reads.
fn none_below(alloc: Global, expr: &Expr) -> Result<Below, Memory>
    ensures { IfOk result (λ below. IsNoneBelow below.inputs below.withins.items
        (once (read_by (operator_in (expr_tree expr.now))))) }
{
    let reads = read_by(alloc, expr)?;
    let inputs = WalkedInputs {
        orders: Vec::new(alloc),
        fields: Vec::new(alloc),
        keys: Vec::new(alloc),
        keyless: None,
        reads,
        fault: None,
    };
    let withins = Vec::new(alloc);
    Ok(Below { inputs, withins })
}

// Adds what is known of the next input.
fn add(below: &mut Below, walked: Walked) -> Result<(), Memory>
    requires { walked.reads ≡ once walked.reads }
    ensures { OnOk result (IsOneMore below.old.inputs below.old.withins.items walked
        below.new.inputs below.new.withins.items) }
{
    make_room(below)?;
    let Walked {
        order,
        fields,
        keys,
        keyless,
        reads,
        fault,
        within,
    } = walked;
    add_names(&mut below.inputs.reads, reads)?;
    below.inputs.orders.push_reserved(order);
    below.inputs.fields.push_reserved(fields);
    below.inputs.keys.push_reserved(keys);
    below.withins.push_reserved(within);
    below.inputs.keyless = below.inputs.keyless.take().or(keyless);
    below.inputs.fault = below.inputs.fault.take().or(fault);
    Ok(())
}

// Makes room in the lists for one more input.
fn make_room(below: &mut Below) -> Result<(), Memory>
    ensures same { IsSameBelow below.old.inputs below.old.withins.items
        below.new.inputs below.new.withins.items }
    ensures orders { OnOk result
        (vec_len below.new.inputs.orders < vec_capacity below.new.inputs.orders) }
    ensures fields { OnOk result
        (vec_len below.new.inputs.fields < vec_capacity below.new.inputs.fields) }
    ensures keys { OnOk result
        (vec_len below.new.inputs.keys < vec_capacity below.new.inputs.keys) }
    ensures withins { OnOk result
        (vec_len below.new.withins < vec_capacity below.new.withins) }
{
    below.inputs.orders.reserve(1)?;
    below.inputs.fields.reserve(1)?;
    below.inputs.keys.reserve(1)?;
    below.withins.reserve(1)?;
    Ok(())
}
