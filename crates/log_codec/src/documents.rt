// Values and documents.
ghost use Rattle.std.specs.Prelude.{◌≡◌, ◌<◌, ◌++◌, false, Decides, IfNone, IfOk, IfSome, OnOk, length, slice_index_or};
ghost use Rattle.std.specs.List.{flat_map};
ghost use Rattle.tuple_values.specs.Document.{ByteList, Datum};
ghost use Rattle.tuple_values.specs.Views.{datum_of};
ghost use Rattle.shard_versions.specs.Documents.{has_group, is_group};
ghost use Rattle.log_codec.specs.Codes.{spelled_text, HasNone, IsAtFront};
ghost use Rattle.log_codec.specs.Documents.{spelled_document, spelled_field, spelled_value, AreBelow, AreFields, IsNextField, IsNextName, IsSpellableDocument, IsSpellableField, IsSpellableValue, TakesField};

use crate::texts::{read_byte, read_number, read_text, write_number, write_text};
use std::alloc::Global;
use std::cmp::Ordering;
use tuple_values::{Memory, Text, Tuple, Value};

fn write_value(out: &mut Vec<u8>, value: &Value) -> Result<(), Memory>
    requires { is_group (datum_of value.now) ≡ false }
    ensures ok { OnOk result (out.new.items
        ≡ out.old.items ++ spelled_value (datum_of value.now)) }
    ensures fits { OnOk result (IsSpellableValue (datum_of value.now)) }
{
    match value {
        Value::Long(number) => {
            out.push(1)?;
            write_number(out, number.cast_unsigned())
        }
        Value::Text(text) => {
            out.push(2)?;
            write_text(out, text)
        }
        Value::Group(_) => unreachable!(),
    }
}

// Writes the k-th field, counted from 0.
fn write_field(out: &mut Vec<u8>, document: &Tuple, k: u64) -> Result<(), Memory>
    requires within { k < length document.now }
    requires no_group { has_group document.now ≡ false }
    ensures ok { OnOk result ((d : ByteList × Datum) → out.new.items
        ≡ out.old.items ++ spelled_field (slice_index_or document.now k d)) }
    ensures fits { OnOk result ((d : ByteList × Datum) →
        IsSpellableField (slice_index_or document.now k d)) }
{
    write_text(out, document.name(k))?;
    write_value(out, document.value(k))
}

pub(crate) fn write_document(out: &mut Vec<u8>, document: &Tuple) -> Result<(), Memory>
    requires { has_group document.now ≡ false }
    ensures ok { OnOk result (out.new.items
        ≡ out.old.items ++ spelled_document document.now) }
    ensures fits { OnOk result (IsSpellableDocument document.now) }
{
    let count = document.count();
    write_number(out, count)?;
    for k in 0..count {
        write_field(out, document, k)?;
    }
    Ok(())
}

// The value at the front, and what follows it.
fn read_value(alloc: Global, bytes: &[u8]) -> Result<Option<(Value, &[u8])>, Memory>
    ensures some { IfOk result (λ found. IfSome found (λ read. IsAtFront
        IsSpellableValue spelled_value bytes.now (datum_of read.0) read.1.now)) }
    ensures none { IfOk result (λ found. IfNone found
        (HasNone IsSpellableValue spelled_value bytes.now)) }
{
    let Some((kind, rest)) = read_byte(bytes) else {
        return Ok(None);
    };
    match kind {
        1 => match read_number(rest) {
            Some((number, after)) => Ok(Some((Value::Long(number.cast_signed()), after))),
            None => Ok(None),
        },
        2 => match read_text(rest) {
            Some((text, after)) => Ok(Some((Value::Text(Text::of(alloc, text)?), after))),
            None => Ok(None),
        },
        _ => Ok(None),
    }
}

// Whether the name is above each name of the document.
fn is_next(document: &Tuple, name: &str) -> bool
    ensures { Decides result (AreBelow document.now name.now) }
{
    let count = document.count();
    if count == 0 {
        return true;
    }
    match document.name(count - 1).as_str().cmp(name) {
        Ordering::Less => true,
        Ordering::Equal => false,
        Ordering::Greater => false,
    }
}

// The name at the front, where it is above each name of the document, and what follows it.
fn read_name<'a>(document: &Tuple, bytes: &'a [u8]) -> Option<(&'a str, &'a [u8])>
    ensures some { IfSome result (λ read. IsAtFront
        (IsNextName document.now) spelled_text bytes.now read.0.now read.1.now) }
    ensures none { IfNone result (HasNone (IsNextName document.now) spelled_text bytes.now) }
{
    match read_text(bytes) {
        Some((name, rest)) => {
            if is_next(document, name) {
                Some((name, rest))
            } else {
                None
            }
        }
        None => None,
    }
}

// Adds the field at the front, where its name is above each name of the document. Answers what
// follows it.
fn take_field<'a>(
    alloc: Global,
    document: &mut Tuple,
    bytes: &'a [u8],
) -> Result<Option<&'a [u8]>, Memory>
    ensures some { IfOk result (λ found. IfSome found (λ rest.
        TakesField document.old document.new bytes.now rest.now)) }
    ensures none { IfOk result (λ found. IfNone found
        (HasNone (IsNextField document.old) spelled_field bytes.now)) }
{
    match read_name(document, bytes) {
        Some((name, tail)) => match read_value(alloc, tail)? {
            Some((value, rest)) => {
                document.put(Text::of(alloc, name)?, value)?;
                Ok(Some(rest))
            }
            None => Ok(None),
        },
        None => Ok(None),
    }
}

// So many fields at the front, and what follows them.
fn read_fields(alloc: Global, count: u64, bytes: &[u8]) -> Result<Option<(Tuple, &[u8])>, Memory>
    ensures some { IfOk result (λ found. IfSome found (λ read. IsAtFront
        (AreFields count) (flat_map spelled_field) bytes.now read.0 read.1.now)) }
    ensures none { IfOk result (λ found. IfNone found
        (HasNone (AreFields count) (flat_map spelled_field) bytes.now)) }
{
    let mut document = Tuple::empty(alloc);
    let mut rest = bytes;
    for _ in 0..count {
        match take_field(alloc, &mut document, rest)? {
            Some(after) => rest = after,
            None => return Ok(None),
        }
    }
    Ok(Some((document, rest)))
}

// The document at the front, and what follows it.
pub(crate) fn read_document(alloc: Global, bytes: &[u8]) -> Result<Option<(Tuple, &[u8])>, Memory>
    ensures some { IfOk result (λ found. IfSome found (λ read. IsAtFront
        IsSpellableDocument spelled_document bytes.now read.0 read.1.now)) }
    ensures none { IfOk result (λ found. IfNone found
        (HasNone IsSpellableDocument spelled_document bytes.now)) }
{
    match read_number(bytes) {
        Some((count, tail)) => match read_fields(alloc, count, tail)? {
            Some((document, rest)) => Ok(Some((document, rest))),
            None => Ok(None),
        },
        None => Ok(None),
    }
}
