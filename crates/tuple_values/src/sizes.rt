// Sizes of tuples.
ghost use Rattle.std.specs.Prelude.{◌≡◌, min, ◌-◌, ◌^◌};
ghost use Rattle.tuple_values.specs.Sizes.{doc_bytes, datum_bytes};
ghost use Rattle.tuple_values.specs.Views.{datum_of, doc_of};

use crate::value::Field;
use crate::{Tuple, Value};

impl Tuple {
    /// The size in counted bytes (own rule): for each field its name's bytes, 8 or the bytes of
    /// its text, and 8. `u64::MAX` where it is greater.
    pub fn size(&self) -> u64
        ensures { result ≡ min (doc_bytes self.now) (2 ^ 64 - 1) }
    {
        size_of_fields(&self.fields)
    }
}

fn size_of_fields(fields: &[Field]) -> u64
    ensures { result ≡ min (doc_bytes (doc_of fields.now)) (2 ^ 64 - 1) }
{
    let mut total: u64 = 0;
    for field in fields {
        let name = field.name.as_str().len() as u64;
        let value = size_of_value(&field.value);
        total = total
            .saturating_add(name)
            .saturating_add(value)
            .saturating_add(8);
    }
    total
}

fn size_of_value(value: &Value) -> u64
    ensures { result ≡ datum_bytes (datum_of value.now) }
{
    match value {
        Value::Long(_) => 8,
        Value::Text(text) => text.as_str().len() as u64,
        Value::Group(_) => 0,
    }
}
