// The order and the fields of an expression whose stream isn't opened.
ghost use Rattle.std.specs.Prelude.{◌≡◌, IfOk};
ghost use Rattle.expr_types.specs.ExprTree.{expr_tree, inputs_in, inputs_of};
ghost use Rattle.expr_check.specs.Walk.{order_of, orders_of, fields_of, all_fields};

use expr_check::{Order, fields_given, order_given};
use expr_types::Expr;
use std::alloc::Global;
use tuple_values::{FieldList, Memory};

/// The order in which an expression gives its tuples, and the fields that they have.
#[derive(Drop)]
pub(crate) struct Told {
    pub(crate) order: Order,
    pub(crate) fields: FieldList,
}

// Those of all inputs of an expression.
#[derive(Drop)]
struct ToldInputs {
    orders: Vec<Order>,
    fields: Vec<FieldList>,
}

/// What is told of an expression.
#[cycle(naming)]
pub(crate) fn told_of(alloc: Global, expr: &Expr) -> Result<Told, Memory>
    ensures order { IfOk result (λ told. told.order ≡ order_of (expr_tree expr.now)) }
    ensures fields { IfOk result (λ told. told.fields ≡ fields_of (expr_tree expr.now)) }
{
    let ToldInputs { orders, fields } = told_of_inputs(alloc, expr)?;
    let order = order_given(alloc, expr, orders, fields.as_slice())?;
    let fields = fields_given(alloc, expr, fields)?;
    Ok(Told { order, fields })
}

// What is told of its inputs.
#[cycle(naming)]
fn told_of_inputs(alloc: Global, expr: &Expr) -> Result<ToldInputs, Memory>
    ensures orders { IfOk result (λ told. told.orders.items
        ≡ orders_of (inputs_of (inputs_in (expr_tree expr.now)))) }
    ensures fields { IfOk result (λ told. told.fields.items
        ≡ all_fields (inputs_of (inputs_in (expr_tree expr.now)))) }
{
    let mut orders = Vec::new(alloc);
    let mut fields = Vec::new(alloc);
    for k in 0..expr.input_count() {
        let told = told_of(alloc, expr.input(k))?;
        orders.push(told.order)?;
        fields.push(told.fields)?;
    }
    Ok(ToldInputs { orders, fields })
}
