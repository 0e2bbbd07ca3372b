// The entries that the tests are over, and how they are compared with bytes.
use log_codec::{book_bytes, entry_bytes, holds_group, read_book, read_entry};
use shard_versions::Entry;
use std::alloc::Global;
use topic_book::{Binding, BookEntry, TopicKey};
use tuple_values::{FieldList, Memory, Text, Tuple, Value, Versions};

fn put_fields(alloc: Global, tuple: &mut Tuple) -> Result<(), Memory> {
    let id = Value::Text(Text::of(alloc, "é")?);
    tuple.put(Text::of(alloc, "n")?, Value::Long(-2))?;
    tuple.put(Text::of(alloc, "id")?, id)
}

// The document with the text `é` under `id` and the number -2 under `n`.
pub fn document(alloc: Global) -> Result<Tuple, Memory> {
    let mut document = Tuple::empty(alloc);
    put_fields(alloc, &mut document)?;
    Ok(document)
}

// The topic `t`, with its checkpoints in `ck`.
pub fn topic_key(alloc: Global) -> Result<TopicKey, Memory> {
    let checkpoints = Text::of(alloc, "ck")?;
    let id = Text::of(alloc, "t")?;
    Ok(TopicKey { checkpoints, id })
}

fn push_versions(list: &mut Versions, all: &[u64]) -> Result<(), Memory> {
    for version in all {
        list.push(*version)?;
    }
    Ok(())
}

pub fn versions(alloc: Global, all: &[u64]) -> Result<Versions, Memory> {
    let mut list = Versions::new(alloc);
    push_versions(&mut list, all)?;
    Ok(list)
}

// By writer 2 no versions of that topic.
pub fn store(alloc: Global) -> Result<BookEntry, Memory> {
    let upto = versions(alloc, &[])?;
    let key = topic_key(alloc)?;
    Ok(BookEntry::Store { by: 2, key, upto })
}

fn push_names(alloc: Global, list: &mut FieldList) -> Result<(), Memory> {
    list.push(Text::of(alloc, "id")?)?;
    list.push(Text::of(alloc, "n")?)
}

// The names `id` and `n`.
fn names(alloc: Global) -> Result<FieldList, Memory> {
    let mut list = FieldList::new(alloc);
    push_names(alloc, &mut list)?;
    Ok(list)
}

// From `c` with the query `q` and two fields to this destination, from the versions 3 and 0 on.
pub fn binding(alloc: Global, dest: Option<Text>) -> Result<Binding, Memory> {
    let fields = names(alloc)?;
    let init = versions(alloc, &[3, 0])?;
    let src = Text::of(alloc, "c")?;
    let q = Text::of(alloc, "q")?;
    Ok(Binding {
        src,
        q,
        fields,
        dest,
        init,
    })
}

// Whether the entry's bytes are these.
pub fn writes(alloc: Global, e: &Entry, want: &[u8]) -> bool {
    if holds_group(e) {
        return false;
    }
    match entry_bytes(alloc, e) {
        Ok(bytes) => bytes.as_slice() == want,
        Err(_) => false,
    }
}

// Whether an entry of so many bytes is read, and has the bytes that it was read from.
pub fn reads(alloc: Global, bytes: &[u8], size: usize) -> bool {
    if bytes.len() < size {
        return false;
    }
    match read_entry(alloc, bytes) {
        Ok(Some(read)) => read.used == size as u64 && writes(alloc, &read.entry, &bytes[..size]),
        _ => false,
    }
}

// Whether no entry is read.
pub fn refuses(alloc: Global, bytes: &[u8]) -> bool {
    matches!(read_entry(alloc, bytes), Ok(None))
}

// The same of entries of the book.
pub fn writes_book(alloc: Global, e: &BookEntry, want: &[u8]) -> bool {
    match book_bytes(alloc, e) {
        Ok(bytes) => bytes.as_slice() == want,
        Err(_) => false,
    }
}

pub fn reads_book(alloc: Global, bytes: &[u8], size: usize) -> bool {
    if bytes.len() < size {
        return false;
    }
    match read_book(alloc, bytes) {
        Ok(Some(read)) => {
            read.used == size as u64 && writes_book(alloc, &read.entry, &bytes[..size])
        }
        _ => false,
    }
}

pub fn refuses_book(alloc: Global, bytes: &[u8]) -> bool {
    matches!(read_book(alloc, bytes), Ok(None))
}
