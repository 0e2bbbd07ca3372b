// Entries of the book of topics, each kind once.
use crate::entries::{binding, reads_book, topic_key, versions, writes_book};
use std::alloc::Global;
use topic_book::BookEntry;
use tuple_values::{Memory, Text};

// By writer 2 the topic `t` with its checkpoints in `ck`, from `c` with the query `q` and the
// fields `id` and `n` to no destination, from the versions 3 and 0 on.
const BIND: &[u8] = b"\x05\0\0\0\0\0\0\0\x02\
\0\0\0\0\0\0\0\x02ck\0\0\0\0\0\0\0\x01t\0\0\0\0\0\0\0\x01c\0\0\0\0\0\0\0\x01q\
\0\0\0\0\0\0\0\x02\0\0\0\0\0\0\0\x02id\0\0\0\0\0\0\0\x01n\0\
\0\0\0\0\0\0\0\x02\0\0\0\0\0\0\0\x03\0\0\0\0\0\0\0\0";

// The same to `d`.
const BIND_TO: &[u8] = b"\x05\0\0\0\0\0\0\0\x02\
\0\0\0\0\0\0\0\x02ck\0\0\0\0\0\0\0\x01t\0\0\0\0\0\0\0\x01c\0\0\0\0\0\0\0\x01q\
\0\0\0\0\0\0\0\x02\0\0\0\0\0\0\0\x02id\0\0\0\0\0\0\0\x01n\x01\0\0\0\0\0\0\0\x01d\
\0\0\0\0\0\0\0\x02\0\0\0\0\0\0\0\x03\0\0\0\0\0\0\0\0";

// By writer 9 the versions 256 and 1 of that topic.
const STORE: &[u8] = b"\x06\0\0\0\0\0\0\0\x09\0\0\0\0\0\0\0\x02ck\0\0\0\0\0\0\0\x01t\
\0\0\0\0\0\0\0\x02\0\0\0\0\0\0\x01\0\0\0\0\0\0\0\0\x01";

fn bind(alloc: Global, dest: Option<Text>) -> Result<BookEntry, Memory> {
    let binding = binding(alloc, dest)?;
    let key = topic_key(alloc)?;
    Ok(BookEntry::Bind {
        by: 2,
        key,
        binding,
    })
}

fn writes_bind(alloc: Global, dest: Option<Text>, want: &[u8]) -> bool {
    match bind(alloc, dest) {
        Ok(entry) => writes_book(alloc, &entry, want),
        Err(_) => false,
    }
}

fn writes_bind_to(alloc: Global) -> bool {
    match Text::of(alloc, "d") {
        Ok(dest) => writes_bind(alloc, Some(dest), BIND_TO),
        Err(_) => false,
    }
}

#[test]
fn a_binding_is_written_with_no_destination(rt: HostRuntime) {
    assert!(rt; writes_bind(rt.alloc(), None, BIND));
    assert!(rt; reads_book(rt.alloc(), BIND, 98));
}

#[test]
fn a_binding_is_written_with_its_destination(rt: HostRuntime) {
    assert!(rt; writes_bind_to(rt.alloc()));
    assert!(rt; reads_book(rt.alloc(), BIND_TO, 107));
}

fn store(alloc: Global) -> Result<BookEntry, Memory> {
    let upto = versions(alloc, &[256, 1])?;
    let key = topic_key(alloc)?;
    Ok(BookEntry::Store { by: 9, key, upto })
}

fn writes_store(alloc: Global) -> bool {
    match store(alloc) {
        Ok(entry) => writes_book(alloc, &entry, STORE),
        Err(_) => false,
    }
}

#[test]
fn versions_are_written_behind_their_number(rt: HostRuntime) {
    assert!(rt; writes_store(rt.alloc()));
    assert!(rt; reads_book(rt.alloc(), STORE, 52));
}
