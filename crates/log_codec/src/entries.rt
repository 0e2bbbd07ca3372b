// Entries of a shard's history.
ghost use Rattle.std.specs.Prelude.{◌≡◌, ◌++◌, false, IfNone, IfOk, IfSome, OnOk, length, drop};
ghost use Rattle.log_codec.specs.Codes.{HasNone, IsAtFront};
ghost use Rattle.log_codec.specs.Entries.{holds_group, kind_byte, spelled_entry, spelled_kind, spelled_origin, IsKindOf, IsOrigin, IsSpellableEntry, IsSpellableKind};

use crate::Format;
use crate::documents::{read_document, write_document};
use crate::head::Head;
use crate::texts::{read_number, read_text, write_number, write_text};
use shard_versions::{Entry, Kind};
use std::alloc::Global;
use tuple_values::{Bytes, Memory, Text};

fn kind_byte(kind: &Kind) -> u8
    ensures { result ≡ kind_byte kind.now }
{
    match kind {
        Kind::Put(_) => 1,
        Kind::Del(_) => 2,
        Kind::Sent { .. } => 3,
        Kind::Mark => 4,
    }
}

fn write_kind(out: &mut Vec<u8>, kind: &Kind) -> Result<(), Memory>
    requires { holds_group kind.now ≡ false }
    ensures ok { OnOk result (out.new.items ≡ out.old.items ++ spelled_kind kind.now) }
    ensures fits { OnOk result (IsSpellableKind kind.now) }
{
    match kind {
        Kind::Put(document) => write_document(out, document),
        Kind::Del(id) => write_text(out, id),
        Kind::Sent {
            src,
            version,
            document,
        } => {
            write_text(out, src)?;
            write_number(out, *version)?;
            write_document(out, document)?;
            Ok(())
        }
        Kind::Mark => Ok(()),
    }
}

// Writes the entry behind what is there.
pub(crate) fn write_entry(out: &mut Vec<u8>, e: &Entry) -> Result<(), Memory>
    requires { holds_group e.now.kind ≡ false }
    ensures ok { OnOk result (out.new.items ≡ out.old.items ++ spelled_entry e.now) }
    ensures fits { OnOk result (IsSpellableEntry e.now) }
{
    let head = Head {
        kind: kind_byte(&e.kind),
        by: e.by,
    };
    head.write(out)?;
    write_kind(out, &e.kind)
}

/// The bytes of an entry.
pub fn entry_bytes(alloc: Global, e: &Entry) -> Result<Bytes, Memory>
    requires { holds_group e.now.kind ≡ false }
    ensures ok { IfOk result (λ bytes. bytes ≡ spelled_entry e.now) }
    ensures spellable { OnOk result (IsSpellableEntry e.now) }
{
    let mut out = Vec::new(alloc);
    write_entry(&mut out, e)?;
    Ok(Bytes::from_vec(out))
}

// The source of a delivery and its version there, at the front, and what follows them.
fn read_origin(bytes: &[u8]) -> Option<((&str, u64), &[u8])>
    ensures some { IfSome result (λ read. IsAtFront
        IsOrigin spelled_origin bytes.now (read.0.0.now, read.0.1) read.1.now) }
    ensures none { IfNone result (HasNone IsOrigin spelled_origin bytes.now) }
{
    match read_text(bytes) {
        Some((src, tail)) => match read_number(tail) {
            Some((version, rest)) => Some(((src, version), rest)),
            None => None,
        },
        None => None,
    }
}

// What a delivery holds, at the front, and what follows it.
fn read_sent(alloc: Global, bytes: &[u8]) -> Result<Option<(Kind, &[u8])>, Memory>
    ensures some { IfOk result (λ found. IfSome found (λ read.
        IsAtFront (IsKindOf 3) spelled_kind bytes.now read.0 read.1.now)) }
    ensures none { IfOk result (λ found. IfNone found
        (HasNone (IsKindOf 3) spelled_kind bytes.now)) }
{
    match read_origin(bytes) {
        Some(((src, version), tail)) => match read_document(alloc, tail)? {
            Some((document, rest)) => {
                let src = Text::of(alloc, src)?;
                let kind = Kind::Sent {
                    src,
                    version,
                    document,
                };
                Ok(Some((kind, rest)))
            }
            None => Ok(None),
        },
        None => Ok(None),
    }
}

// What an entry of this byte does, at the front, and what follows it.
fn read_kind(alloc: Global, byte: u8, bytes: &[u8]) -> Result<Option<(Kind, &[u8])>, Memory>
    ensures some { IfOk result (λ found. IfSome found (λ read.
        IsAtFront (IsKindOf byte) spelled_kind bytes.now read.0 read.1.now)) }
    ensures none { IfOk result (λ found. IfNone found
        (HasNone (IsKindOf byte) spelled_kind bytes.now)) }
{
    match byte {
        1 => match read_document(alloc, bytes)? {
            Some((document, rest)) => Ok(Some((Kind::Put(document), rest))),
            None => Ok(None),
        },
        2 => match read_text(bytes) {
            Some((id, rest)) => Ok(Some((Kind::Del(Text::of(alloc, id)?), rest))),
            None => Ok(None),
        },
        3 => read_sent(alloc, bytes),
        4 => Ok(Some((Kind::Mark, bytes))),
        _ => Ok(None),
    }
}

// The entry at the front, and what follows it.
pub(crate) fn take_entry(
    alloc: Global,
    format: Format,
    bytes: &[u8],
) -> Result<Option<(Entry, &[u8])>, Memory>
    ensures some { IfOk result (λ found. IfSome found (λ read.
        IsAtFront IsSpellableEntry spelled_entry bytes.now read.0 read.1.now)) }
    ensures none { IfOk result (λ found. IfNone found
        (HasNone IsSpellableEntry spelled_entry bytes.now)) }
{
    match Head::read(format, bytes) {
        Some((head, tail)) => match read_kind(alloc, head.kind, tail)? {
            Some((kind, rest)) => Ok(Some((Entry { by: head.by, kind }, rest))),
            None => Ok(None),
        },
        None => Ok(None),
    }
}

/// An entry that was read, and how many bytes it took.
pub struct EntryRead {
    pub entry: Entry,
    pub used: u64,
}

impl Drop for EntryRead {
    fn drop(self) {
        let EntryRead { entry, used: _ } = self;
        drop(entry);
    }
}

/// The entry at the front of the bytes, whatever follows it. None where none stands there.
pub fn read_entry(alloc: Global, bytes: &[u8]) -> Result<Option<EntryRead>, Memory>
    ensures some { IfOk result (λ found. IfSome found (λ read. IsAtFront
        IsSpellableEntry spelled_entry bytes.now read.entry (drop read.used bytes.now))) }
    ensures used { IfOk result (λ found. IfSome found (λ read.
        read.used ≡ length (spelled_entry read.entry))) }
    ensures none { IfOk result (λ found. IfNone found
        (HasNone IsSpellableEntry spelled_entry bytes.now)) }
{
    match take_entry(alloc, Format::One, bytes)? {
        Some((entry, rest)) => {
            let used = (bytes.len() - rest.len()) as u64;
            Ok(Some(EntryRead { entry, used }))
        }
        None => Ok(None),
    }
}
