// The last write of an id, and the last delivery of an id from a source, by a tree.
ghost use Rattle.std.specs.Prelude.{◌≡◌, ◌+◌, ◌<◌, ◌≤◌, ◌++◌, ◌∷◌, [], true, length, if◌then◌else◌};
ghost use Rattle.shard_versions.specs.declared.entry.Entry.{Entry};
ghost use Rattle.shard_versions.specs.Places.{last_where};
ghost use Rattle.shard_versions.specs.Trees.{is_at, tag_of, mark_from, mark_of, side_of, goes, passes, place_at, Stops, Finds, first_of, room_of};

use crate::log::Log;
use crate::tree::Tree;
use tuple_values::fnv1a;

// The tag of what is looked for: a delivery from the source under the id where `sent` says so, else a
// write of the id.
fn tag_of(sent: bool, src: &str, id: &str) -> u64
    ensures { result ≡ tag_of sent src.now id.now }
{
    let tag = u64::from(fnv1a(id.as_bytes()));
    if sent {
        u64::from(fnv1a(src.as_bytes())) * 0x1_0000_0000 + tag
    } else {
        tag
    }
}

// A mark of bytes, gone on with from another one (own rule).
fn mark_from(from: u64, bytes: &[u8]) -> u64
    ensures { result ≡ mark_from from bytes.now }
{
    let mut mark = from;
    for byte in bytes {
        mark = (mark ^ u64::from(*byte)).wrapping_mul(11400714819323198485);
    }
    mark
}

fn mark_of(sent: bool, src: &str, id: &str) -> u64
    ensures { result ≡ mark_of sent src.now id.now }
{
    let from = if sent {
        mark_from(1, src.as_bytes())
    } else {
        1
    };
    mark_from(from, id.as_bytes())
}

// The side on which a mark and an id go on at this depth.
fn side_of(mark: u64, id: &[u8], depth: usize) -> bool
    ensures { result ≡ side_of mark id.now depth }
{
    if depth < 64 {
        (mark >> (63 - depth)) % 2 == 1
    } else {
        match id.get((depth - 64) / 8) {
            Some(byte) => (*byte >> ((depth - 64) % 8)) % 2 == 1,
            None => false,
        }
    }
}

// Whether the entry at a place, counted from 1, is what is looked for.
fn is_here(log: &Log, place: usize, sent: bool, src: &str, id: &str) -> bool
    requires some { 0 < place }
    requires few { place ≤ length log.now.entries }
    ensures { result ≡ passes (is_at sent src.now id.now) log.now.entries place }
{
    if sent {
        log.is_delivery(place - 1, src, id)
    } else {
        log.is_write_of(place - 1, id)
    }
}

// The node at which a walk stops that begins at a first node, and the side on which it would go on.
fn stop(log: &Log, tree: &Tree, first: usize, sent: bool, src: &str, id: &str) -> (usize, bool)
    requires finds { Finds sent tree.now log.now.entries }
    requires first { first ≡ first_of tree.now (tag_of sent src.now id.now) }
    requires some { 0 < first }
    ensures { Stops (goes sent src.now id.now) (is_at sent src.now id.now) tree.now.nodes.items
        log.now.entries (first_of tree.now (tag_of sent src.now id.now)) result.0 result.1 }
{
    let mark = mark_of(sent, src, id);
    let mut at = first;
    let mut depth = 0;
    'walk: loop {
        if is_here(log, tree.place(at), sent, src, id) {
            return (at, false);
        }
        let right = side_of(mark, id.as_bytes(), depth);
        let lower = tree.below(at, right);
        if lower == 0 {
            return (at, right);
        }
        at = lower;
        depth += 1;
    }
}

/// One more than the place of the last write of the id, or of the last delivery of the id from the
/// source, and 0 where there is none.
pub(crate) fn last_place(log: &Log, tree: &Tree, sent: bool, src: &str, id: &str) -> usize
    requires { Finds sent tree.now log.now.entries }
    ensures { result ≡ last_where (λ e. is_at sent src.now id.now e.kind) log.now.entries }
{
    let first = tree.first(tag_of(sent, src, id));
    if first == 0 {
        return 0;
    }
    let (at, _) = stop(log, tree, first, sent, src, id);
    let place = tree.place(at);
    if is_here(log, place, sent, src, id) {
        place
    } else {
        0
    }
}

/// Puts one more write of the id, or delivery of the id from the source, behind the entries. The
/// answer is one more than the place of the last one before. Takes no memory.
pub(crate) fn note(log: &Log, tree: &mut Tree, sent: bool, src: &str, id: &str) -> usize
    requires finds { Finds sent tree.old log.now.entries }
    requires room { 0 < room_of tree.old }
    ensures last { result ≡ last_where (λ e. is_at sent src.now id.now e.kind) log.now.entries }
    ensures finds { (e : Entry) → is_at sent src.now id.now e.kind ≡ true
        → Finds sent tree.new (log.now.entries ++ e ∷ []) }
    ensures room { room_of tree.old ≤ room_of tree.new + 1 }
{
    let place = log.len() + 1;
    let tag = tag_of(sent, src, id);
    let first = tree.first(tag);
    if first == 0 {
        tree.plant(tag, place);
        return 0;
    }
    let (at, right) = stop(log, tree, first, sent, src, id);
    let last = tree.place(at);
    if is_here(log, last, sent, src, id) {
        tree.move_to(at, place);
        last
    } else {
        tree.attach(at, right, place);
        0
    }
}
