// The documents of a shard that a search keeps.
ghost use Rattle.std.specs.Prelude.{◌≡◌, ◌<◌, ◌≤◌, ◌++◌, OnOk, length, map, filter, slice_index};
ghost use Rattle.shard_segments.specs.Scans.{places_where};
ghost use Rattle.source_streams.specs.Wants.{is_wanted, is_wanted_slot, IsFirstFrom};

use crate::kept::{Keeps, document_at};
use crate::wanted::Wanted;
use shard_segments::scan;
use shard_versions::Snapshot;
use std::alloc::Global;
use std::marker::Sync;
use std::thread::Threads;
use tuple_values::Memory;

/// Adds the documents of a snapshot that are wanted, in their order. Where most slots are current
/// ones all are scanned, else the documents are looked at one by one.
pub(crate) fn add_matching<'a, K: Keeps<'a>, R: Threads + Sync>(
    rt: &R,
    alloc: Global,
    found: &mut Vec<K>,
    wanted: &Wanted,
    snapshot: &'a Snapshot,
) -> Result<(), Memory>
    ensures { OnOk result
        (map K.doc found.new.items ≡ map K.doc found.old.items
        ++ filter (is_wanted wanted.now.q.now.clauses wanted.now.fl.now wanted.now.keys.now
        wanted.now.part) (map (λ d. d.1) snapshot.now.documents)) }
{
    if snapshot.chunks().len() / 2 > snapshot.count() {
        return add_each(found, wanted, snapshot);
    }
    let places = scan(rt, alloc, snapshot.chunks(), wanted)?;
    add_scanned(found, wanted, snapshot, places.as_slice())
}

// The same, document by document.
fn add_each<'a, K: Keeps<'a>>(
    found: &mut Vec<K>,
    wanted: &Wanted,
    snapshot: &'a Snapshot,
) -> Result<(), Memory>
    ensures { OnOk result
        (map K.doc found.new.items ≡ map K.doc found.old.items
        ++ filter (is_wanted wanted.now.q.now.clauses wanted.now.fl.now wanted.now.keys.now
        wanted.now.part) (map (λ d. d.1) snapshot.now.documents)) }
{
    for k in 0..snapshot.count() {
        let document = document_at(snapshot, k);
        if wanted.takes(document.tuple()) {
            found.push(K::of(document)?)?;
        }
    }
    Ok(())
}

// The same by the places of the slots that are wanted, which replaced ones are among.
fn add_scanned<'a, K: Keeps<'a>>(
    found: &mut Vec<K>,
    wanted: &Wanted,
    snapshot: &'a Snapshot,
    places: &[u64],
) -> Result<(), Memory>
    requires { places.now ≡ places_where (is_wanted_slot wanted.now.q.now.clauses
        wanted.now.fl.now wanted.now.keys.now wanted.now.part) 0 snapshot.now.slots }
    ensures { OnOk result
        (map K.doc found.new.items ≡ map K.doc found.old.items
        ++ filter (is_wanted wanted.now.q.now.clauses wanted.now.fl.now wanted.now.keys.now
        wanted.now.part) (map (λ d. d.1) snapshot.now.documents)) }
{
    let mut at = 0;
    for k in 0..snapshot.count() {
        let place = snapshot.place(k);
        at = first_from(places, at, place);
        if at < places.len() && places[at] == place {
            found.push(K::of(document_at(snapshot, k))?)?;
        }
    }
    Ok(())
}

// Where the first of ascending numbers stands that is no less than `low`: looked for from a place
// on, or from the first on where the number before that place isn't less.
fn first_from(numbers: &[u64], from: usize, low: u64) -> usize
    requires { from ≤ length numbers.now }
    ensures { IsFirstFrom numbers.now low result }
{
    let mut at = if from > 0 && numbers[from - 1] >= low {
        0
    } else {
        from
    };
    while at < numbers.len() && numbers[at] < low {
        at += 1;
    }
    at
}
