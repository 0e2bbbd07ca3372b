// Entries of a shard's history, each kind once.
use crate::entries::{document, reads, writes};
use log_codec::read_entry;
use shard_versions::{Entry, Kind};
use std::alloc::Global;
use tuple_values::{Memory, Text, Tuple, Value};

// By writer 7 a document of two fields: `id` with the text `é`, and `n` with the number -2.
const PUT: &[u8] = b"\x01\0\0\0\0\0\0\0\x07\0\0\0\0\0\0\0\x02\
\0\0\0\0\0\0\0\x02id\x02\0\0\0\0\0\0\0\x02\xc3\xa9\
\0\0\0\0\0\0\0\x01n\x01\xff\xff\xff\xff\xff\xff\xff\xfe";

// By writer 258 the id `abc`.
const DEL: &[u8] = b"\x02\0\0\0\0\0\0\x01\x02\0\0\0\0\0\0\0\x03abc";

// By writer 1, from version 5 of `c`, the document without fields.
const SENT: &[u8] = b"\x03\0\0\0\0\0\0\0\x01\0\0\0\0\0\0\0\x01c\0\0\0\0\0\0\0\x05\0\0\0\0\0\0\0\0";

// By the greatest writer, with two bytes behind it.
const MARK_AND_MORE: &[u8] = b"\x04\xff\xff\xff\xff\xff\xff\xff\xff\x04\x04";

fn writes_put(alloc: Global) -> bool {
    match document(alloc) {
        Ok(document) => writes(alloc, &Entry::put(7, document), PUT),
        Err(_) => false,
    }
}

#[test]
fn a_document_is_written_by_its_fields(rt: HostRuntime) {
    assert!(rt; writes_put(rt.alloc()));
    assert!(rt; reads(rt.alloc(), PUT, 56));
}

fn has_fields(document: &Tuple) -> bool {
    let is_id = match document.get("id") {
        Some(Value::Text(id)) => id.as_str() == "é",
        _ => false,
    };
    let is_number = matches!(document.get("n"), Some(Value::Long(-2)));
    is_id && is_number && document.count() == 2
}

fn reads_fields(alloc: Global) -> bool {
    match read_entry(alloc, PUT) {
        Ok(Some(read)) => match &read.entry.kind {
            Kind::Put(document) => has_fields(document) && read.entry.by == 7,
            _ => false,
        },
        _ => false,
    }
}

#[test]
fn a_document_is_read_by_its_fields(rt: HostRuntime) {
    assert!(rt; reads_fields(rt.alloc()));
}

fn del(alloc: Global) -> Result<Entry, Memory> {
    let id = Text::of(alloc, "abc")?;
    Ok(Entry::del(258, id))
}

fn writes_del(alloc: Global) -> bool {
    match del(alloc) {
        Ok(entry) => writes(alloc, &entry, DEL),
        Err(_) => false,
    }
}

#[test]
fn an_id_is_written_behind_its_length(rt: HostRuntime) {
    assert!(rt; writes_del(rt.alloc()));
    assert!(rt; reads(rt.alloc(), DEL, 20));
}

fn sent(alloc: Global) -> Result<Entry, Memory> {
    let src = Text::of(alloc, "c")?;
    Ok(Entry::sent(1, src, 5, Tuple::empty(alloc)))
}

fn writes_sent(alloc: Global) -> bool {
    match sent(alloc) {
        Ok(entry) => writes(alloc, &entry, SENT),
        Err(_) => false,
    }
}

#[test]
fn a_delivery_is_written_with_its_origin(rt: HostRuntime) {
    assert!(rt; writes_sent(rt.alloc()));
    assert!(rt; reads(rt.alloc(), SENT, 34));
}

#[test]
fn a_mark_is_its_byte_and_its_writer(rt: HostRuntime) {
    assert!(rt; writes(rt.alloc(), &Entry::mark(u64::MAX), &MARK_AND_MORE[..9]));
    assert!(rt; reads(rt.alloc(), MARK_AND_MORE, 9), "what follows is left");
}
