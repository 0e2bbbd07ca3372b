// The indexes of a shard: the last write of an id, and the greatest version that was delivered.
ghost use Rattle.std.specs.Prelude.{◌≡◌, ◌+◌, ◌<◌, ◌≤◌, ◌++◌, ◌∷◌, [], true, false, length, option_copied, vec_len, vec_capacity};
ghost use Rattle.tuple_values.specs.Document.{ByteList};
ghost use Rattle.shard_versions.specs.declared.entry.Entry.{Entry};
ghost use Rattle.shard_versions.specs.Histories.{History};
ghost use Rattle.shard_versions.specs.Deliveries.{sents};
ghost use Rattle.shard_versions.specs.Places.{last_where};
ghost use Rattle.shard_versions.specs.Indexes.{written_id, is_write_of, is_delivery, before_of, relinked, greatest, so_far, greatests_after, is_replaced};
ghost use Rattle.shard_versions.specs.Trees.{Finds, room_of};

use crate::Kind;
use crate::document::id_of;
use crate::finding::{last_place, note};
use crate::log::Log;
use crate::tree::Tree;

/// The id that the entry writes.
pub(crate) fn written_id(kind: &Kind) -> Option<&str>
    ensures { option_copied result ≡ written_id kind.now }
{
    match kind {
        Kind::Put(document) => Some(id_of(document)),
        Kind::Del(id) => Some(id.as_str()),
        Kind::Sent { document, .. } => Some(id_of(document)),
        Kind::Mark => None,
    }
}

/// Whether the entry writes this id.
pub(crate) fn is_write_of(kind: &Kind, id: &str) -> bool
    ensures { result ≡ is_write_of id.now kind.now }
{
    match written_id(kind) {
        Some(other) => id == other,
        None => false,
    }
}

/// Puts an entry behind the others in the tree of ids. The answer is one more than the place of the
/// last write of its id, and 0 where there is none. Takes no memory.
pub(crate) fn note_write(log: &Log, ids: &mut Tree, kind: &Kind) -> usize
    requires finds { Finds false ids.old log.now.entries }
    requires room { 0 < room_of ids.old }
    ensures before { result ≡ before_of (written_id kind.now) log.now.entries }
    ensures finds { (e : Entry) → e.kind ≡ kind.now → Finds false ids.new (log.now.entries ++ e ∷ []) }
    ensures room { room_of ids.old ≤ room_of ids.new + 1 }
{
    match written_id(kind) {
        Some(id) => note(log, ids, false, "", id),
        None => 0,
    }
}

/// The greatest version that was delivered up to this place, counted from 1, of the source and id
/// whose last delivery stands there.
fn greatest_at(greatests: &[u64], at: usize) -> Option<u64>
    requires { at ≤ length greatests.now }
    ensures { (src id : ByteList) (h : History) → greatests.now ≡ greatests_after [] h
        → at ≡ last_where (λ e. is_delivery src id e.kind) h → result ≡ greatest (sents src id h) }
{
    if at == 0 {
        return None;
    }
    Some(greatests[at - 1])
}

/// The greatest version that was delivered from the source under the id.
pub(crate) fn greatest_sent(
    log: &Log,
    greatests: &[u64],
    sends: &Tree,
    src: &str,
    id: &str,
) -> Option<u64>
    requires finds { Finds true sends.now log.now.entries }
    requires greatests { greatests.now ≡ greatests_after [] log.now.entries }
    ensures { result ≡ greatest (sents src.now id.now log.now.entries) }
{
    greatest_at(greatests, last_place(log, sends, true, src, id))
}

// Puts a delivery from the source under the id behind the entries. The answer is the greatest version
// of those before. Takes no memory.
fn note_sent(log: &Log, greatests: &[u64], sends: &mut Tree, src: &str, id: &str) -> Option<u64>
    requires finds { Finds true sends.old log.now.entries }
    requires room { 0 < room_of sends.old }
    requires greatests { greatests.now ≡ greatests_after [] log.now.entries }
    ensures greatest { result ≡ greatest (sents src.now id.now log.now.entries) }
    ensures finds { (e : Entry) → is_delivery src.now id.now e.kind ≡ true
        → Finds true sends.new (log.now.entries ++ e ∷ []) }
    ensures room { room_of sends.old ≤ room_of sends.new + 1 }
{
    let at = note(log, sends, true, src, id);
    greatest_at(greatests, at)
}

/// Puts an entry behind the others in the tree of deliveries. The answer is the greatest version of
/// its source and id with it, and 0 for what is no delivery. Takes no memory.
pub(crate) fn note_delivery(log: &Log, greatests: &[u64], sends: &mut Tree, kind: &Kind) -> u64
    requires finds { Finds true sends.old log.now.entries }
    requires room { 0 < room_of sends.old }
    requires greatests { greatests.now ≡ greatests_after [] log.now.entries }
    ensures greatest { result ≡ so_far log.now.entries kind.now }
    ensures finds { (e : Entry) → e.kind ≡ kind.now → Finds true sends.new (log.now.entries ++ e ∷ []) }
    ensures room { room_of sends.old ≤ room_of sends.new + 1 }
{
    match kind {
        Kind::Sent {
            src,
            version,
            document,
        } => {
            let greatest = note_sent(log, greatests, sends, src.as_str(), id_of(document));
            (*version).max(greatest.unwrap_or(0))
        }
        Kind::Put(_) => 0,
        Kind::Del(_) => 0,
        Kind::Mark => 0,
    }
}

/// Puts the place of the next write at the place of the one before, where there is one.
pub(crate) fn relink(nexts: &mut Vec<usize>, before: usize, next: usize)
    requires { before ≤ length nexts.old.items }
    ensures items { nexts.new.items ≡ relinked before next nexts.old.items }
    ensures len { vec_len nexts.new ≡ vec_len nexts.old }
    ensures capacity { vec_capacity nexts.new ≡ vec_capacity nexts.old }
{
    if before > 0 {
        nexts[before - 1] = next;
    }
}

/// Whether the next write stands among the first so many entries.
pub(crate) fn is_replaced(next: usize, count: usize) -> bool
    ensures { result ≡ is_replaced next count }
{
    0 < next && next <= count
}
