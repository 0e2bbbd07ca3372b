// The texts of tuples.
ghost use Rattle.std.specs.Prelude.{◌≡◌, ◌++◌, false, codes, IfOk, OnOk};
ghost use Rattle.tuple_values.specs.Document.{fields_of, rows_of};
ghost use Rattle.tuple_values.specs.Views.{datum_of};
ghost use Rattle.serde_json.specs.Written.{comma_if};
ghost use Rattle.json_text.specs.Replies.{string_text, datum_text, rows_text, fields_text};
ghost use Rattle.json_text.specs.Replies.{tuple_text};

use crate::pieces::{push_comma, push_long, push_text};
use std::alloc::Global;
use tuple_values::{Bytes, Memory, Tuple, Tuples, Value};

/// The JSON text of a tuple: an object with its fields in the order of their names' bytes
/// (RFC 8259, the order an own rule).
pub fn tuple_text(alloc: Global, t: &Tuple) -> Result<Bytes, Memory>
    ensures { IfOk result (λ bytes. bytes ≡ tuple_text t.now) }
{
    let mut out = Bytes::new(alloc);
    push_tuple(alloc, &mut out, t)?;
    Ok(out)
}

#[cycle(texts)]
pub(crate) fn push_tuple(alloc: Global, out: &mut Bytes, tuple: &Tuple) -> Result<(), Memory>
    ensures { OnOk result (out.new ≡ out.old ++ tuple_text tuple.now) }
{
    out.extend(b"{")?;
    for k in 0..tuple.count() {
        push_name(alloc, out, k > 0, tuple.name(k).as_str())?;
        push_value(alloc, out, tuple.value(k))?;
    }
    out.extend(b"}")
}

#[cycle(texts)]
fn push_value(alloc: Global, out: &mut Bytes, value: &Value) -> Result<(), Memory>
    ensures { OnOk result (out.new ≡ out.old ++ datum_text (datum_of value.now)) }
{
    match value {
        Value::Long(n) => push_long(out, *n),
        Value::Text(text) => push_text(alloc, out, text.as_str()),
        Value::Group(group) => push_group(alloc, out, group),
    }
}

#[cycle(texts)]
fn push_group(alloc: Global, out: &mut Bytes, group: &Tuples) -> Result<(), Memory>
    ensures { OnOk result (out.new ≡ out.old
        ++ (codes "[" ++ rows_text false (rows_of group.now))) }
{
    out.extend(b"[")?;
    for k in 0..group.count() {
        push_comma(out, k > 0)?;
        push_tuple(alloc, out, group.get(k))?;
    }
    out.extend(b"]")
}

// A field's name with its colon, and a comma before it where it stands later.
fn push_name(alloc: Global, out: &mut Bytes, later: bool, name: &str) -> Result<(), Memory>
    ensures { OnOk result (out.new ≡ out.old ++ (comma_if later
        ++ (string_text name.now ++ codes ":"))) }
{
    push_comma(out, later)?;
    push_text(alloc, out, name)?;
    out.extend(b":")
}
