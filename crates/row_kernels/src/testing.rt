// Whether tuples meet conditions.
ghost use Rattle.std.specs.Prelude.{◌≡◌, IfOk};
ghost use Rattle.std.specs.Fmt.{signed_decimal};
ghost use Rattle.std.specs.Option.{option_map_or};
ghost use Rattle.tuple_values.specs.Document.{value_at};
ghost use Rattle.tuple_values.specs.Views.{datum_of};
ghost use Rattle.expr_types.specs.ConditionTree.{trees_of};
ghost use Rattle.expr_types.specs.ConditionViews.{condition_tree, condition_trees};
ghost use Rattle.expr_types.specs.Conditions.{passes, passes_beside, holds, all_hold, any_holds};
ghost use Rattle.expr_types.specs.Conditions.{datum_number};
ghost use Rattle.std.specs.Prelude.{false};

use expr_types::{Comparison, Condition};
use std::alloc::Global;
use std::cmp::Ordering;
use tuple_values::{Memory, Text, Tuple, Value, whole};

/// Whether a tuple meets a condition. Takes memory only where a text is compared with a number.
#[cycle(testing)]
pub(crate) fn holds(alloc: Global, condition: &Condition, tuple: &Tuple) -> Result<bool, Memory>
    ensures { IfOk result (λ is. is ≡ holds (condition_tree condition.now) tuple.now) }
{
    match condition {
        Condition::Compare {
            test,
            field,
            literal,
        } => passes_in(alloc, *test, field, literal, tuple),
        Condition::All(conditions) => all_hold(alloc, conditions, tuple),
        Condition::Any(conditions) => any_holds(alloc, conditions, tuple),
        Condition::OneOf(left, right) => {
            let left = holds(alloc, left, tuple)?;
            let right = holds(alloc, right, tuple)?;
            Ok(if left { !right } else { right })
        }
        Condition::Not(condition) => {
            let is = holds(alloc, condition, tuple)?;
            Ok(!is)
        }
    }
}

#[cycle(testing)]
fn all_hold(alloc: Global, conditions: &[Condition], tuple: &Tuple) -> Result<bool, Memory>
    ensures { IfOk result (λ are. are
        ≡ all_hold (trees_of (condition_trees conditions.now)) tuple.now) }
{
    for condition in conditions {
        let is = holds(alloc, condition, tuple)?;
        if !is {
            return Ok(false);
        }
    }
    Ok(true)
}

#[cycle(testing)]
fn any_holds(alloc: Global, conditions: &[Condition], tuple: &Tuple) -> Result<bool, Memory>
    ensures { IfOk result (λ is. is
        ≡ any_holds (trees_of (condition_trees conditions.now)) tuple.now) }
{
    for condition in conditions {
        let is = holds(alloc, condition, tuple)?;
        if is {
            return Ok(true);
        }
    }
    Ok(false)
}

// Whether the value of a field passes beside a literal; an absent one never does.
fn passes_in(
    alloc: Global,
    test: Comparison,
    field: &Text,
    literal: &Value,
    tuple: &Tuple,
) -> Result<bool, Memory>
    ensures { IfOk result (λ is. is ≡ option_map_or
        (λ value. passes_beside test (datum_of literal.now) value)
        (value_at field.now tuple.now) false) }
{
    match tuple.get(field.as_str()) {
        None => Ok(false),
        Some(value) => passes_beside(alloc, test, literal, value),
    }
}

fn passes_beside(
    alloc: Global,
    test: Comparison,
    literal: &Value,
    value: &Value,
) -> Result<bool, Memory>
    ensures { IfOk result (λ is. is
        ≡ passes_beside test (datum_of literal.now) (datum_of value.now)) }
{
    match (value, literal) {
        (Value::Long(n), _) => Ok(match number_of(literal) {
            Some(m) => passes(test, n.cmp(&m)),
            None => false,
        }),
        (Value::Text(text), Value::Text(other)) => {
            Ok(passes(test, text.as_str().cmp(other.as_str())))
        }
        (Value::Text(text), Value::Long(m)) => {
            let other = decimal(alloc, *m)?;
            Ok(passes(test, text.as_str().cmp(other.as_str())))
        }
        (Value::Text(_), Value::Group(_)) => Ok(false),
        (Value::Group(_), _) => Ok(false),
    }
}

// The number of a literal that is whole.
fn number_of(literal: &Value) -> Option<i64>
    ensures { result ≡ datum_number (datum_of literal.now) }
{
    match literal {
        Value::Long(n) => Some(*n),
        Value::Text(text) => whole(text.as_str()),
        Value::Group(_) => None,
    }
}

fn passes(test: Comparison, order: Ordering) -> bool
    ensures { result ≡ passes test order }
{
    match test {
        Comparison::Eq => order.is_eq(),
        Comparison::Gt => order.is_gt(),
        Comparison::Lt => order.is_lt(),
        Comparison::Gteq => order.is_ge(),
        Comparison::Lteq => order.is_le(),
    }
}

/// The decimal text of a number.
pub(crate) fn decimal(alloc: Global, n: i64) -> Result<Text, Memory>
    ensures { IfOk result (λ text. text ≡ signed_decimal n) }
{
    let text = format!(in alloc; "{n}")?;
    Ok(Text::from_string(text))
}
