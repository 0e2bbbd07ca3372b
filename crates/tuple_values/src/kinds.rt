// Values in the kind of their names.
ghost use Rattle.std.specs.Prelude.{◌≡◌, IfOk, option_map};
ghost use Rattle.std.specs.Fmt.{signed_decimal};
ghost use Rattle.tuple_values.specs.Kinds.{is_text_name, is_number_name, coerced};
ghost use Rattle.tuple_values.specs.Views.{datum_of};

use crate::{Memory, Text, Value, whole};
use std::alloc::Global;

/// The value in the kind of the name (own rule): under `id` and `.._s` a number becomes its
/// decimal text, under `_version_`, `.._i` and `.._l` a whole text becomes its number. None
/// exactly where it is a group, or a text that isn't whole under the name of a number.
pub fn coerce(alloc: Global, name: &str, value: Value) -> Result<Option<Value>, Memory>
    ensures { IfOk result (λ v. option_map datum_of v ≡ coerced name.now (datum_of value)) }
{
    match value {
        Value::Long(n) => {
            if is_text_name(name) {
                Ok(Some(Value::Text(decimal_text(alloc, n)?)))
            } else {
                Ok(Some(Value::Long(n)))
            }
        }
        Value::Text(text) => {
            if is_number_name(name) {
                Ok(whole(text.as_str()).map(Value::Long))
            } else {
                Ok(Some(Value::Text(text)))
            }
        }
        Value::Group(_) => Ok(None),
    }
}

fn is_text_name(name: &str) -> bool
    ensures { result ≡ is_text_name name.now }
{
    name == "id" || name.as_bytes().ends_with(b"_s")
}

fn is_number_name(name: &str) -> bool
    ensures { result ≡ is_number_name name.now }
{
    name == "_version_" || name.as_bytes().ends_with(b"_i") || name.as_bytes().ends_with(b"_l")
}

fn decimal_text(alloc: Global, n: i64) -> Result<Text, Memory>
    ensures { IfOk result (λ text. text ≡ signed_decimal n) }
{
    let text = format!(in alloc; "{n}")?;
    Ok(Text::from_string(text))
}
