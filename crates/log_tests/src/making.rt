// The documents, topics and versions that the tests of several crates are over.
use std::alloc::Global;
use topic_book::{Binding, TopicKey};
use tuple_values::{FieldList, Memory, Text, Tuple, Value, Versions};

pub fn put_text(alloc: Global, tuple: &mut Tuple, name: &str, text: &str) -> Result<(), Memory> {
    let value = Value::Text(Text::of(alloc, text)?);
    tuple.put(Text::of(alloc, name)?, value)
}

pub fn put_long(alloc: Global, tuple: &mut Tuple, name: &str, n: i64) -> Result<(), Memory> {
    tuple.put(Text::of(alloc, name)?, Value::Long(n))
}

fn put_fields(alloc: Global, tuple: &mut Tuple, id: &str, n: i64) -> Result<(), Memory> {
    put_text(alloc, tuple, "id", id)?;
    put_long(alloc, tuple, "n_i", n)
}

// A document has an id and a number under `n_i`.
pub fn document(alloc: Global, id: &str, n: i64) -> Result<Tuple, Memory> {
    let mut document = Tuple::empty(alloc);
    put_fields(alloc, &mut document, id, n)?;
    Ok(document)
}

// The topic of this id, with its checkpoints in `ck`.
pub fn topic_key(alloc: Global, id: &str) -> Result<TopicKey, Memory> {
    let checkpoints = Text::of(alloc, "ck")?;
    let id = Text::of(alloc, id)?;
    Ok(TopicKey { checkpoints, id })
}

// A topic of all documents of the source, from these versions on.
pub fn binding(
    alloc: Global,
    src: &str,
    dest: Option<Text>,
    init: Versions,
) -> Result<Binding, Memory> {
    let src = Text::of(alloc, src)?;
    let q = Text::of(alloc, "*:*")?;
    Ok(Binding {
        src,
        q,
        fields: FieldList::new(alloc),
        dest,
        init,
    })
}

fn push_versions(list: &mut Versions, all: &[u64]) -> Result<(), Memory> {
    for version in all {
        list.push(*version)?;
    }
    Ok(())
}

pub fn versions(alloc: Global, all: &[u64]) -> Result<Versions, Memory> {
    let mut list = Versions::new(alloc);
    push_versions(&mut list, all)?;
    Ok(list)
}
