// Entries of the book of topics.
ghost use Rattle.std.specs.Prelude.{◌≡◌, ◌++◌, IfNone, IfOk, IfSome, OnOk, length, drop, option_copied};
ghost use Rattle.log_codec.specs.Codes.{HasNone, IsAtFront};
ghost use Rattle.log_codec.specs.BookEntries.{book_byte, spelled_binding, spelled_book, spelled_destination, spelled_key, spelled_parts, writer_of, AreSpellableParts, IsBookOf, IsSpellableBinding, IsSpellableBook, IsSpellableDestination, IsSpellableKey};

use crate::Format;
use crate::bindings::{read_binding, read_texts, write_binding};
use crate::head::Head;
use crate::lists::{read_versions, write_versions};
use crate::texts::write_text;
use std::alloc::Global;
use topic_book::{BookEntry, TopicKey};
use tuple_values::{Bytes, Memory, Text};

fn book_byte(e: &BookEntry) -> u8
    ensures { result ≡ book_byte e.now }
{
    match e {
        BookEntry::Bind { .. } => 5,
        BookEntry::Store { .. } => 6,
    }
}

fn writer_of(e: &BookEntry) -> u64
    ensures { result ≡ writer_of e.now }
{
    match e {
        BookEntry::Bind { by, .. } => *by,
        BookEntry::Store { by, .. } => *by,
    }
}

fn write_key(out: &mut Vec<u8>, key: &TopicKey) -> Result<(), Memory>
    ensures ok { OnOk result (out.new.items ≡ out.old.items ++ spelled_key key.now) }
    ensures fits { OnOk result (IsSpellableKey key.now) }
{
    write_text(out, &key.checkpoints)?;
    write_text(out, &key.id)?;
    Ok(())
}

fn write_parts(out: &mut Vec<u8>, e: &BookEntry) -> Result<(), Memory>
    ensures ok { OnOk result (out.new.items ≡ out.old.items ++ spelled_parts e.now) }
    ensures fits { OnOk result (AreSpellableParts e.now) }
{
    match e {
        BookEntry::Bind { key, binding, .. } => {
            write_key(out, key)?;
            write_binding(out, binding)?;
            Ok(())
        }
        BookEntry::Store { key, upto, .. } => {
            write_key(out, key)?;
            write_versions(out, upto)?;
            Ok(())
        }
    }
}

// Writes the entry behind what is there.
pub(crate) fn write_book(out: &mut Vec<u8>, e: &BookEntry) -> Result<(), Memory>
    ensures ok { OnOk result (out.new.items ≡ out.old.items ++ spelled_book e.now) }
    ensures fits { OnOk result (IsSpellableBook e.now) }
{
    let head = Head {
        kind: book_byte(e),
        by: writer_of(e),
    };
    head.write(out)?;
    write_parts(out, e)
}

/// The bytes of an entry.
pub fn book_bytes(alloc: Global, e: &BookEntry) -> Result<Bytes, Memory>
    ensures ok { IfOk result (λ bytes. bytes ≡ spelled_book e.now) }
    ensures spellable { OnOk result (IsSpellableBook e.now) }
{
    let mut out = Vec::new(alloc);
    write_book(&mut out, e)?;
    Ok(Bytes::from_vec(out))
}

fn key_of(alloc: Global, checkpoints: &str, id: &str) -> Result<TopicKey, Memory>
    ensures { IfOk result (λ key.
        key ≡ record { checkpoints = checkpoints.now; id = id.now }) }
{
    let checkpoints = Text::of(alloc, checkpoints)?;
    let id = Text::of(alloc, id)?;
    Ok(TopicKey { checkpoints, id })
}

// The topic and its binding at the front, and what follows them.
fn read_bind(alloc: Global, by: u64, bytes: &[u8]) -> Result<Option<(BookEntry, &[u8])>, Memory>
    ensures some { IfOk result (λ found. IfSome found (λ read.
        IsAtFront (IsBookOf 5 by) spelled_parts bytes.now read.0 read.1.now)) }
    ensures none { IfOk result (λ found. IfNone found
        (HasNone (IsBookOf 5 by) spelled_parts bytes.now)) }
{
    match read_texts(bytes) {
        Some(((checkpoints, id), tail)) => match read_binding(alloc, tail)? {
            Some((binding, rest)) => {
                let key = key_of(alloc, checkpoints, id)?;
                Ok(Some((BookEntry::Bind { by, key, binding }, rest)))
            }
            None => Ok(None),
        },
        None => Ok(None),
    }
}

// The topic and versions at the front, and what follows them.
fn read_store(alloc: Global, by: u64, bytes: &[u8]) -> Result<Option<(BookEntry, &[u8])>, Memory>
    ensures some { IfOk result (λ found. IfSome found (λ read.
        IsAtFront (IsBookOf 6 by) spelled_parts bytes.now read.0 read.1.now)) }
    ensures none { IfOk result (λ found. IfNone found
        (HasNone (IsBookOf 6 by) spelled_parts bytes.now)) }
{
    match read_texts(bytes) {
        Some(((checkpoints, id), tail)) => match read_versions(alloc, tail)? {
            Some((upto, rest)) => {
                let key = key_of(alloc, checkpoints, id)?;
                Ok(Some((BookEntry::Store { by, key, upto }, rest)))
            }
            None => Ok(None),
        },
        None => Ok(None),
    }
}

// The parts of an entry of this front, and what follows them.
fn read_parts(alloc: Global, head: Head, bytes: &[u8]) -> Result<Option<(BookEntry, &[u8])>, Memory>
    ensures some { IfOk result (λ found. IfSome found (λ read.
        IsAtFront (IsBookOf head.kind head.by) spelled_parts bytes.now read.0 read.1.now)) }
    ensures none { IfOk result (λ found. IfNone found
        (HasNone (IsBookOf head.kind head.by) spelled_parts bytes.now)) }
{
    match head.kind {
        5 => read_bind(alloc, head.by, bytes),
        6 => read_store(alloc, head.by, bytes),
        _ => Ok(None),
    }
}

// The entry at the front, and what follows it.
pub(crate) fn take_book(
    alloc: Global,
    format: Format,
    bytes: &[u8],
) -> Result<Option<(BookEntry, &[u8])>, Memory>
    ensures some { IfOk result (λ found. IfSome found (λ read.
        IsAtFront IsSpellableBook spelled_book bytes.now read.0 read.1.now)) }
    ensures none { IfOk result (λ found. IfNone found
        (HasNone IsSpellableBook spelled_book bytes.now)) }
{
    match Head::read(format, bytes) {
        Some((head, tail)) => match read_parts(alloc, head, tail)? {
            Some((entry, rest)) => Ok(Some((entry, rest))),
            None => Ok(None),
        },
        None => Ok(None),
    }
}

/// An entry that was read, and how many bytes it took.
pub struct BookRead {
    pub entry: BookEntry,
    pub used: u64,
}

impl Drop for BookRead {
    fn drop(self) {
        let BookRead { entry, used: _ } = self;
        drop(entry);
    }
}

/// The entry at the front of the bytes, whatever follows it. None where none stands there.
pub fn read_book(alloc: Global, bytes: &[u8]) -> Result<Option<BookRead>, Memory>
    ensures some { IfOk result (λ found. IfSome found (λ read. IsAtFront
        IsSpellableBook spelled_book bytes.now read.entry (drop read.used bytes.now))) }
    ensures used { IfOk result (λ found. IfSome found (λ read.
        read.used ≡ length (spelled_book read.entry))) }
    ensures none { IfOk result (λ found. IfNone found
        (HasNone IsSpellableBook spelled_book bytes.now)) }
{
    match take_book(alloc, Format::One, bytes)? {
        Some((entry, rest)) => {
            let used = (bytes.len() - rest.len()) as u64;
            Ok(Some(BookRead { entry, used }))
        }
        None => Ok(None),
    }
}
