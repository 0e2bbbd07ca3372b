// The writes that an update makes of tuples.
ghost use Rattle.std.specs.Prelude.{◌≡◌, ℕ, ◌+◌, ◌<◌, ◌^◌, not, length, IfOk, OnOk, Result, option_and_then, option_map};
ghost use Rattle.tuple_values.specs.Document.{is_named, value_at};
ghost use Rattle.tuple_values.specs.Kinds.{coerced};
ghost use Rattle.tuple_values.specs.Views.{datum_of};
ghost use Rattle.shard_versions.specs.Documents.{id_name, is_empty, reserved_names, text_of};
ghost use Rattle.exchange_rules.specs.Puts.{has_id, in_kinds, kept, put_of, puts_of, sized, unreserved};

use exchange_rules::RunFault;
use std::alloc::Global;
use tuple_values::{Memory, Text, TryCopy, Tuple, Value, Write, Writes, coerce};

/// The largest size of a document that is written, in counted bytes.
const LARGEST: u64 = 1_048_576;

// Whether an update drops the field of this name.
fn is_reserved(name: &str) -> bool
    ensures { result ≡ is_named name.now reserved_names }
{
    "_version_" == name || "_src_s" == name || "_src_version_l" == name
}

// Whether the value is a text that isn't empty.
fn is_filled(value: &Value) -> bool
    ensures { result ≡ not (is_empty (text_of (Some (datum_of value.now)))) }
{
    match value {
        Value::Text(text) => !text.as_str().is_empty(),
        Value::Long(_) | Value::Group(_) => false,
    }
}

// Whether a tuple's id is one, in the kind of its name.
fn has_id(alloc: Global, tuple: &Tuple) -> Result<bool, Memory>
    ensures { IfOk result (λ has. has ≡ has_id (unreserved tuple.now)) }
{
    let Some(id) = tuple.get("id") else {
        return Ok(false);
    };
    match coerce(alloc, "id", id.copy(alloc)?)? {
        Some(id) => Ok(is_filled(&id)),
        None => Ok(false),
    }
}

// The document without reserved fields, each value in the kind of its name, or the first name whose
// value has no such form.
fn in_kinds(alloc: Global, tuple: &Tuple) -> Result<Result<Tuple, Text>, Memory>
    ensures { IfOk result (λ made. made ≡ in_kinds (unreserved tuple.now)) }
{
    let mut made = Tuple::empty(alloc);
    for k in 0..tuple.count() {
        let name = tuple.name(k);
        if is_reserved(name.as_str()) {
            continue;
        }
        match coerce(alloc, name.as_str(), tuple.value(k).copy(alloc)?)? {
            Some(value) => made.put_like(Some(tuple), name.as_str(), value)?,
            None => return Ok(Err(name.copy(alloc)?)),
        }
    }
    Ok(Ok(made))
}

// The write of a document, unless it is too large.
fn sized(at: u64, document: Tuple) -> Result<Write, RunFault>
    ensures { result ≡ sized at document }
{
    if document.size() > LARGEST {
        return Err(RunFault::TupleTooLarge { at });
    }
    Ok(Write::Put(document))
}

// The write that the tuple at this place asks for, or why there is none.
fn put_of(alloc: Global, at: u64, tuple: &Tuple) -> Result<Result<Write, RunFault>, Memory>
    ensures { IfOk result (λ put. put ≡ put_of at tuple.now) }
{
    if !has_id(alloc, tuple)? {
        let field = Text::of(alloc, "id")?;
        return Ok(Err(RunFault::BadTuple { at, field }));
    }
    match in_kinds(alloc, tuple)? {
        Ok(document) => Ok(sized(at, document)),
        Err(field) => Ok(Err(RunFault::BadTuple { at, field })),
    }
}

/// The writes that tuples from this place on ask for, or why the first that asks for none does so.
/// The tuples are copied.
pub(crate) fn puts_of(
    alloc: Global,
    at: u64,
    tuples: &[Tuple],
) -> Result<Result<Writes, RunFault>, Memory>
    requires { at + length tuples.now < 2 ^ 64 }
    ensures { IfOk result (λ puts. puts ≡ puts_of at tuples.now) }
{
    let mut writes = Writes::new(alloc);
    for k in 0..tuples.len() {
        match put_of(alloc, at + k as u64, &tuples[k])? {
            Ok(write) => writes.push(write)?,
            Err(fault) => return Ok(Err(fault)),
        }
    }
    Ok(Ok(writes))
}
