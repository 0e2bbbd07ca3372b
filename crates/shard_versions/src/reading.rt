// A history that is read as it stands, without the state of a shard.
ghost use Rattle.std.specs.Prelude.{◌≡◌, ◌==◌, ◌&&◌, ◌^◌, ◌<◌, ◌++◌, not, map, IfOk, OnOk, length, option_copied};
ghost use Rattle.shard_versions.specs.Stored.{kept_slot, stored, places_of};
ghost use Rattle.shard_versions.specs.Histories.{is_mark, settled, slot_of, slots, top, current};
ghost use Rattle.shard_versions.specs.Histories.{write_at, writes_id};
ghost use Rattle.shard_versions.specs.Readings.{is_written, left_under};
ghost use Rattle.shard_versions.specs.Indexes.{written_id};

use crate::index::{is_write_of, written_id};
use crate::log::{last_of, push_slot, slot_for};
use crate::snapshot::{left, push_current, version_after};
use crate::{Entry, Kind, Snapshot};
use shard_segments::Chunks;
use std::alloc::Global;
use tuple_values::{Memory, Tuple};

fn is_mark(kind: &Kind) -> bool
    ensures { result ≡ is_mark kind.now }
{
    match kind {
        Kind::Mark => true,
        Kind::Put(_) => false,
        Kind::Del(_) => false,
        Kind::Sent { .. } => false,
    }
}

// The entries up to the last Mark.
#[tactic(auto, using(crate::proofs::ReadingLemmas::settled_steps))]
fn settled(history: &[Entry]) -> &[Entry]
    ensures { result.now ≡ settled history.now }
{
    let mut closed = 0;
    for (at, entry) in history.iter().enumerate() {
        if is_mark(&entry.kind) {
            closed = at + 1;
        }
    }
    &history[..closed]
}

/// The version of the last committed write, and 0 where there is none. Takes no memory.
pub fn top_of(history: &[Entry]) -> u64
    ensures { result ≡ top history.now }
{
    let entries = settled(history);
    let mut version: u64 = 0;
    for entry in entries {
        version = version_after(version, &entry.kind);
    }
    version
}

// Whether the entry is a write, and this one of its version.
fn is_write_at(kind: &Kind, last: u64, version: u64) -> bool
    ensures { result ≡ ((last == version) && not (is_mark kind.now)) }
{
    last == version && !is_mark(kind)
}

// The document that the entry left under this id.
fn left_under<'a>(kind: &'a Kind, id: &str) -> Option<&'a Tuple>
    ensures { option_copied result ≡ left_under id.now (write_at 0 (slot_of 0 kind.now)) }
{
    if is_write_of(kind, id) {
        left(kind)
    } else {
        None
    }
}

/// The document that the write of this version left under this id; none where there is no such
/// write, it is of another id, or it is a Del. Takes no memory.
pub fn document_at<'a>(history: &'a [Entry], version: u64, id: &str) -> Option<&'a Tuple>
    ensures { option_copied result ≡ left_under id.now (write_at version (slots history.now)) }
{
    let mut last: u64 = 0;
    for entry in history {
        last = version_after(last, &entry.kind);
        if is_write_at(&entry.kind, last, version) {
            return left_under(&entry.kind, id);
        }
    }
    None
}

// Whether one of the entries writes this id.
#[tactic(auto, using(crate::proofs::ReadingLemmas::written_steps))]
fn is_id_written(entries: &[Entry], id: &str) -> bool
    ensures { result ≡ writes_id id.now (slots entries.now) }
{
    for entry in entries {
        if is_write_of(&entry.kind, id) {
            return true;
        }
    }
    false
}

// Whether one of the entries writes the id that this one writes.
fn is_written(entries: &[Entry], kind: &Kind) -> bool
    ensures { result ≡ is_written (written_id kind.now) entries.now }
{
    match written_id(kind) {
        Some(id) => is_id_written(entries, id),
        None => false,
    }
}

/// The shard with these entries as it is now, with a copy of its current documents. Each entry is
/// compared with all that follow.
pub fn snapshot_of(alloc: Global, history: &[Entry]) -> Result<Snapshot, Memory>
    ensures top { IfOk result (λ s. s.top ≡ top history.now) }
    ensures upto { IfOk result (λ s. s.upto ≡ length history.now) }
    ensures documents { IfOk result (λ s. s.documents ≡ current history.now) }
    ensures slots { IfOk result (λ s. s.slots ≡ stored history.now) }
    ensures places { IfOk result (λ s. s.places ≡ places_of history.now) }
{
    let entries = settled(history);
    let mut chunks = Chunks::empty(alloc);
    let mut version: u64 = 0;
    let mut places = Vec::new(alloc);
    for place in 0..entries.len() {
        let kind = &entries[place].kind;
        let replaced = is_written(&entries[place + 1..], kind);
        push_current(&mut places, chunks.len(), replaced, left(kind).is_some())?;
        version = version_after(version, kind);
        keep(alloc, &mut chunks, version, kind)?;
    }
    Ok(Snapshot {
        reached: last_of(&chunks),
        seen: history.len() as u64,
        chunks,
        all_current: false,
        places,
    })
}

// Adds the slot of a write in this version.
fn keep(alloc: Global, chunks: &mut Chunks, version: u64, kind: &Kind) -> Result<(), Memory>
    requires { version < 2 ^ 63 }
    ensures { OnOk result (chunks.new.slots
        ≡ chunks.old.slots ++ map kept_slot (slot_of version kind.now)) }
{
    let slot = slot_for(alloc, version, kind, None)?;
    chunks.reserve(1)?;
    push_slot(chunks, slot);
    Ok(())
}
