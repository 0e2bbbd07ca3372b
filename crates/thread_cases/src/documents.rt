// The documents that workers put, and the collections that they lie in.
ghost use Rattle.std.specs.Prelude.{◌≡◌, IfOk};
ghost use Rattle.thread_cases.specs.Serving.{name_of};

use std::alloc::Global;
use tuple_values::{Memory, NameShards, Names, Text, Tuple, Value, Write, Writes};

/// How many documents are put by one update.
pub const BATCH: u64 = 100;

/// The collection of this number.
pub fn collection(alloc: Global, number: u64) -> Result<Text, Memory>
    ensures { IfOk result (λ name. name ≡ name_of number) }
{
    Ok(Text::from_string(format!(in alloc; "c{number}")?))
}

/// So many collections with so many shards each.
pub fn collections(alloc: Global, count: u64, shards: u16) -> Result<Names, Memory> {
    let mut names = Names::new(alloc);
    for number in 0..count {
        let name = collection(alloc, number)?;
        names.push(NameShards { name, shards })?;
    }
    Ok(names)
}

fn put_text(alloc: Global, document: &mut Tuple, name: &str, value: &str) -> Result<(), Memory> {
    let name = Text::of(alloc, name)?;
    document.put(name, Value::Text(Text::of(alloc, value)?))
}

fn put_number(alloc: Global, document: &mut Tuple, name: &str, value: i64) -> Result<(), Memory> {
    document.put(Text::of(alloc, name)?, Value::Long(value))
}

// A document of this id alone.
fn of_id(alloc: Global, id: &str) -> Result<Tuple, Memory> {
    let mut document = Tuple::empty(alloc);
    put_text(alloc, &mut document, "id", id)?;
    Ok(document)
}

// The document of a number, which is its id.
fn document(alloc: Global, number: u64) -> Result<Tuple, Memory> {
    let id = format!(in alloc; "{number}")?;
    let mut document = of_id(alloc, id.as_str())?;
    put_text(alloc, &mut document, "a_s", "a")?;
    Ok(document)
}

// The document of the id 1, which has this number too.
fn numbered(alloc: Global, number: i64) -> Result<Tuple, Memory> {
    let mut document = of_id(alloc, "1")?;
    put_number(alloc, &mut document, "n_i", number)?;
    Ok(document)
}

/// A put of the document with the id 1, which has this number too.
pub fn put_one(alloc: Global, number: i64) -> Result<Writes, Memory> {
    let mut writes = Writes::new(alloc);
    writes.push(Write::Put(numbered(alloc, number)?))?;
    Ok(writes)
}

/// Puts of the documents of a batch, counted from 0.
pub fn puts(alloc: Global, batch: u64) -> Result<Writes, Memory> {
    let first = batch.saturating_mul(BATCH);
    let mut writes = Writes::new(alloc);
    for k in 0..BATCH {
        writes.push(Write::Put(document(alloc, first.saturating_add(k))?))?;
    }
    Ok(writes)
}
