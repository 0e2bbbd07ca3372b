// The texts of fields, joined.
ghost use Rattle.std.specs.Prelude.{◌≡◌, IfOk, option_map, option_and_then, string_bytes};
ghost use Rattle.tuple_values.specs.Views.{datum_of};
ghost use Rattle.expr_types.specs.Conditions.{datum_text};
ghost use Rattle.expr_types.specs.Rows.{joined_texts, texts_of};
ghost use Rattle.row_kernels.specs.Joining.{joined_on, joined_maybe};

use crate::testing::decimal;
use std::alloc::Global;
use tuple_values::{FieldList, Memory, Text, Tuple, Value};

/// The texts of the fields that have one, with the delimiter between each and the next; none where
/// none has one.
pub(crate) fn joined(
    alloc: Global,
    names: &FieldList,
    delim: &Text,
    tuple: &Tuple,
) -> Result<Option<Text>, Memory>
    ensures { IfOk result (λ text. text ≡ joined_texts delim.now (texts_of tuple.now names.now)) }
{
    let mut joined = None;
    for name in names.as_slice() {
        joined = with_value(alloc, joined, delim, tuple.get(name.as_str()))?;
    }
    Ok(joined.map(Text::from_string))
}

// What was joined, and a value's text behind it, if it has one.
fn with_value(
    alloc: Global,
    joined: Option<String>,
    delim: &Text,
    value: Option<&Value>,
) -> Result<Option<String>, Memory>
    ensures { IfOk result (λ more. option_map string_bytes more
        ≡ joined_maybe delim.now (option_map string_bytes joined)
        (option_and_then datum_text (option_map (λ v. datum_of v.now) value.entry))) }
{
    match value {
        None => Ok(joined),
        Some(Value::Group(_)) => Ok(joined),
        Some(Value::Text(text)) => Ok(Some(with_text(alloc, joined, delim, text)?)),
        Some(Value::Long(n)) => {
            let text = decimal(alloc, *n)?;
            Ok(Some(with_text(alloc, joined, delim, &text)?))
        }
    }
}

fn with_text(
    alloc: Global,
    joined: Option<String>,
    delim: &Text,
    text: &Text,
) -> Result<String, Memory>
    ensures { IfOk result (λ more. string_bytes more
        ≡ joined_on delim.now (option_map string_bytes joined) text.now) }
{
    let Some(joined) = joined else {
        return Ok(String::from_str(alloc, text.as_str())?);
    };
    let mut joined = joined;
    joined.push_str(delim.as_str())?;
    joined.push_str(text.as_str())?;
    Ok(joined)
}
