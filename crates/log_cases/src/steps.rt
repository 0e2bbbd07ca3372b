// The steps of cases: puts of documents of an id, and perhaps of a text.
use shard_versions::{Entry, Step};
use std::alloc::Global;
use tuple_values::{Memory, Text, Tuple, Value};

/// The writer of each entry.
const WRITER: u64 = 1;

fn put_text(alloc: Global, document: &mut Tuple, name: &str, text: &str) -> Result<(), Memory> {
    let value = Value::Text(Text::of(alloc, text)?);
    document.put(Text::of(alloc, name)?, value)
}

fn document(alloc: Global, id: &str) -> Result<Tuple, Memory> {
    let mut document = Tuple::empty(alloc);
    put_text(alloc, &mut document, "id", id)?;
    Ok(document)
}

fn add_put(alloc: Global, step: &mut Step, id: &str) -> Result<(), Memory> {
    let document = document(alloc, id)?;
    step.push(Entry::put(WRITER, document))
}

/// A step that puts a document for each id; ids stand with a comma between them.
pub fn step_of(alloc: Global, ids: &str) -> Result<Step, Memory> {
    let mut step = Step::new(alloc);
    for id in ids.split(',') {
        add_put(alloc, &mut step, id)?;
    }
    Ok(step)
}

/// A step that puts one document with this text beside its id.
pub fn step_with(alloc: Global, id: &str, text: &str) -> Result<Step, Memory> {
    let mut document = document(alloc, id)?;
    put_text(alloc, &mut document, "text_s", text)?;
    let mut step = Step::new(alloc);
    step.push(Entry::put(WRITER, document))?;
    Ok(step)
}
