// Lists of flat documents, read straight from their tokens: each member is a text, a number or a
// truth value. All other bodies are read by way of their value.
ghost use Rattle.std.specs.Prelude.{◌≡◌, ◌++◌, ◌∷◌, [], true, false, Ok, Some, IfOk, IfSome};
ghost use Rattle.std.specs.Prelude.{option_and_then, ◌<◌, ◌==◌, length, slice_index, IsTrue};
ghost use Rattle.json.specs.Reads.{token_of};
ghost use Rattle.json.specs.Token.{Token as SpecToken};
ghost use Rattle.serde_json.specs.Find.{as_i64};
ghost use Rattle.serde_json.specs.Read.{number_of, number_from};
ghost use Rattle.tuple_values.specs.Views.{datum_of};
ghost use Rattle.json_text.specs.Documents.{plain_value};
ghost use Rattle.json_text.specs.Flat.{data_of, token_field, flat_rest, Asks, AreWrites};
ghost use Rattle.json_text.specs.Updates.{update_in};

use crate::document::{allow, is_reserved};
use crate::writes::last_document;
use fast_float::Numeral;
use json::{Reader, Scratch, Token};
use std::alloc::Global;
use tuple_values::{Memory, Shape, Text, Tuple, Value, Write, Writes, coerce};

// The writes of a body, if it is a list of flat documents that has no fault.
pub(crate) fn read_flat(alloc: Global, bytes: &[u8]) -> Result<Option<Writes>, Memory>
    ensures { IfOk result (λ found. IfSome found (λ all.
        update_in bytes.now ≡ Ok (record { writes = all; commit = false }))) }
{
    let Ok(text) = std::str::from_utf8(bytes) else {
        return Ok(None);
    };
    let mut scratch = Scratch::new(alloc);
    let mut reader = Reader::new(text, &mut scratch)?;
    read_list(alloc, &mut reader)
}

// The writes of a list that is all that the reader gives.
fn read_list(alloc: Global, reader: &mut Reader<'_>) -> Result<Option<Writes>, Memory>
    ensures { IfOk result (λ found. IfSome found (λ all.
        (tokens : _) × (reader.old ≡ SpecToken.begin_array ∷ tokens) × AreWrites tokens all [])) }
{
    let Some(Token::BeginArray) = reader.next() else {
        return Ok(None);
    };
    let mut writes = Writes::new(alloc);
    if read_items(alloc, reader, &mut writes)? && reader.next().is_none() {
        Ok(Some(writes))
    } else {
        Ok(None)
    }
}

// Adds the writes of a list's items, and says whether that was all of the list.
fn read_items(alloc: Global, reader: &mut Reader<'_>, writes: &mut Writes) -> Result<bool, Memory>
    requires { writes.old ≡ [] }
    ensures { IfOk result (λ read. read ≡ true → AreWrites reader.old writes.new reader.new) }
{
    let mut shape = Shape::new(alloc);
    'items: while !reader.take_end_array() {
        if !read_item(alloc, reader, &mut shape, writes)? {
            return Ok(false);
        }
    }
    Ok(true)
}

// Adds the write of a list's next item, and says whether it was read.
fn read_item(
    alloc: Global,
    reader: &mut Reader<'_>,
    shape: &mut Shape,
    writes: &mut Writes,
) -> Result<bool, Memory>
    ensures { IfOk result (λ read. read ≡ true → (write : _)
        × (writes.new ≡ writes.old ++ write ∷ []) × Asks reader.old write reader.new) }
{
    let Some(Token::BeginObject) = reader.next() else {
        return Ok(false);
    };
    let mut doc = Tuple::empty(alloc);
    doc.make_room(shape.begin())?;
    if !read_fields(
        alloc,
        reader,
        shape,
        last_document(writes.as_slice()),
        &mut doc,
    )? {
        return Ok(false);
    }
    match allow(0, doc) {
        Ok(doc) => {
            writes.push(Write::Put(doc))?;
            Ok(true)
        }
        Err(_) => Ok(false),
    }
}

// Puts the fields of an object's members, and says whether they were read to its end.
fn read_fields(
    alloc: Global,
    reader: &mut Reader<'_>,
    shape: &mut Shape,
    other: Option<&Tuple>,
    doc: &mut Tuple,
) -> Result<bool, Memory>
    ensures { IfOk result (λ read. read ≡ true
        → flat_rest doc.old reader.old ≡ Some (doc.new, reader.new)) }
{
    'members: loop {
        let Ok(key) = reader.next_key() else {
            return Ok(false);
        };
        let Some(name) = key else {
            return Ok(true);
        };
        let Some(value) = read_value(alloc, reader, name)? else {
            return Ok(false);
        };
        doc.put_next(shape, other, name, value)?;
    }
}

// The value of the member of this name in the kind of the name, if it is one token and a field.
fn read_value(alloc: Global, reader: &mut Reader<'_>, name: &str) -> Result<Option<Value>, Memory>
    ensures { IfOk result (λ found. IfSome found (λ v. (token : _)
        × (reader.old ≡ token ∷ reader.new)
        × (token_field name.now token ≡ Some (name.now, datum_of v)))) }
{
    if is_reserved(name) {
        return Ok(None);
    }
    let Some(token) = reader.next() else {
        return Ok(None);
    };
    match plain(alloc, token)? {
        Some(value) => coerce(alloc, name, value),
        None => Ok(None),
    }
}

// The value that a token gives, but for those of `null` and of numbers that aren't whole.
fn plain(alloc: Global, token: Token<'_>) -> Result<Option<Value>, Memory>
    ensures { IfOk result (λ found. IfSome found (λ v.
        option_and_then plain_value (data_of (token_of token.entry)) ≡ Some (datum_of v))) }
{
    match token {
        Token::String(text) => Ok(Some(Value::Text(Text::of(alloc, text)?))),
        Token::Number(text) => Ok(integer(text).map(Value::Long)),
        Token::Bool(true) => Ok(Some(Value::Text(Text::of(alloc, "true")?))),
        Token::Bool(false) => Ok(Some(Value::Text(Text::of(alloc, "false")?))),
        _ => Ok(None),
    }
}

// The number that a numeral of JSON writes, if it is read as an `i64`.
fn integer(text: &str) -> Option<i64>
    ensures { IfSome result (λ n. option_and_then as_i64 (number_of text.now) ≡ Some n) }
{
    let bytes = text.as_bytes();
    if has_minus(bytes) {
        below_zero(&Numeral::scan(&bytes[1..]))
    } else {
        not_below_zero(&Numeral::scan(bytes))
    }
}

fn has_minus(bytes: &[u8]) -> bool
    ensures value { result ≡ (slice_index bytes.now 0 == 45) }
    ensures len { IsTrue result → 0 < length bytes.now }
{
    !bytes.is_empty() && bytes[0] == b'-'
}

fn below_zero(numeral: &Numeral<'_>) -> Option<i64>
    ensures { IfSome result (λ n. option_and_then as_i64 (number_from true numeral.now) ≡ Some n) }
{
    let n = numeral.to_i64(true)?;
    if n < 0 { Some(n) } else { None }
}

fn not_below_zero(numeral: &Numeral<'_>) -> Option<i64>
    ensures { IfSome result (λ n. option_and_then as_i64 (number_from false numeral.now) ≡ Some n) }
{
    let n = numeral.to_u64()?;
    if n <= i64::MAX as u64 {
        Some(n as i64)
    } else {
        None
    }
}
