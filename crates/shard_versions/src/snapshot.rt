// A shard as it was read.
ghost use Rattle.std.specs.Prelude.{◌≡◌, ◌≤◌, ◌+◌, ◌<◌, ◌^◌, ◌++◌, ◌∷◌, [], ◌&&◌, not, if◌then◌else◌, OnOk, Some, length, drop, filter, nat_lt, slice_index, slice_index_or, option_copied};
ghost use Rattle.shard_versions.specs.Histories.{version_after};
ghost use Rattle.shard_versions.specs.Indexes.{left_of};

use crate::Kind;
use shard_segments::Chunks;
use std::marker::Model;
use tuple_values::{Memory, Tuple};

/// A shard as it was read: its top, the number of entries seen, the slots of its writes up to the
/// top, and whether each of these is current; where not, the places of those that are.
pub struct Snapshot {
    pub(crate) reached: u64,
    pub(crate) seen: u64,
    pub(crate) chunks: Chunks,
    pub(crate) all_current: bool,
    pub(crate) places: Vec<u64>,
}

impl Drop for Snapshot {
    fn drop(self) {
        let Snapshot {
            reached: _,
            seen: _,
            chunks,
            all_current: _,
            places,
        } = self;
        drop(chunks);
        drop(places);
    }
}

impl Model for Snapshot {
    ghost use Rattle.shard_versions.specs.Shards.{Shown, shown_code};

    ghost Value = { Shown };

    ghost use Rattle.shard_segments.specs.contracts.slot.Slot as slot;
    ghost use Rattle.std.specs.Coded.{codes};

    ghost coded = { shown_code (Prim.hlevel (codes, slot.the_row.coded)) };

    ghost use Rattle.shard_versions.specs.Snapshots.{shown_in, IsShown};

    ghost view = { shown_in };

    ghost invariant = { IsShown };
}

impl Snapshot {
    /// The version of the last committed write, and 0 where there is none.
    pub fn top(&self) -> u64
        ensures { result ≡ self.now.top }
    {
        self.reached
    }

    /// How many entries the history had.
    pub fn upto(&self) -> u64
        ensures { result ≡ self.now.upto }
    {
        self.seen
    }

    /// How many documents are current.
    pub fn count(&self) -> u64
        ensures { result ≡ length self.now.documents }
    {
        if self.all_current {
            self.chunks.len()
        } else {
            self.places.len() as u64
        }
    }

    /// The version of the k-th current document, counted from 0 by version.
    pub fn version(&self, k: u64) -> u64
        requires { k < length self.now.documents }
        ensures { (d : _) → result ≡ (slice_index_or self.now.documents k d).0 }
    {
        self.chunks.get(self.place(k)).version
    }

    /// The k-th current document, with its version in the field `_version_`.
    pub fn document(&self, k: u64) -> &Tuple
        requires { k < length self.now.documents }
        ensures { (d : _) → result.now ≡ (slice_index_or self.now.documents k d).1 }
    {
        match &self.chunks.get(self.place(k)).document {
            Some(document) => document.tuple(),
            None => unreachable!(),
        }
    }

    /// The place, counted from 0, of the first current document whose version is above `low`, and how
    /// many there are where there is none. Looks at some log n of them, and takes no memory.
    pub fn first_above(&self, low: u64) -> u64
        ensures bound { result ≤ length self.now.documents }
        ensures above { filter (λ d. nat_lt low d.0) self.now.documents
            ≡ drop result self.now.documents }
    {
        // The invariant says that versions rise.
        let _ = &self.all_current;
        let mut from = 0;
        let mut end = self.count();
        while from < end {
            let middle = from + (end - from) / 2;
            if self.version(middle) > low {
                end = middle;
            } else {
                from = middle + 1;
            }
        }
        from
    }

    /// The slots of the shard's writes up to the top, in their order. Takes no memory.
    pub fn chunks(&self) -> &Chunks
        ensures { result.now.slots ≡ self.now.slots }
    {
        &self.chunks
    }

    /// The place in `chunks` of the slot of the k-th current document. Takes no memory.
    pub fn place(&self, k: u64) -> u64
        requires { k < length self.now.documents }
        ensures place { result ≡ slice_index self.now.places k }
        ensures in_range { result < length self.now.slots }
        ensures slot { (d e : _) → slice_index_or self.now.slots result d
            ≡ record {
              version = (slice_index_or self.now.documents k e).0;
              document = Some (slice_index_or self.now.documents k e).1;
            } }
    {
        if self.all_current {
            k
        } else {
            self.places[k as usize]
        }
    }
}

/// The version of the last write after this entry, where `last` was it before.
pub(crate) fn version_after(last: u64, kind: &Kind) -> u64
    requires { last + 1 < 2 ^ 64 }
    ensures { result ≡ version_after last kind.now }
{
    match kind {
        Kind::Mark => last,
        Kind::Put(_) => last + 1,
        Kind::Del(_) => last + 1,
        Kind::Sent { .. } => last + 1,
    }
}

/// The document that the entry leaves at its id.
pub(crate) fn left(kind: &Kind) -> Option<&Tuple>
    ensures { option_copied result ≡ left_of kind.now }
{
    match kind {
        Kind::Put(document) => Some(document),
        Kind::Sent { document, .. } => Some(document),
        Kind::Del(_) => None,
        Kind::Mark => None,
    }
}

/// Adds the place of a write's slot where its document is current: it isn't replaced, and there is
/// one.
pub(crate) fn push_current(
    places: &mut Vec<u64>,
    at: u64,
    replaced: bool,
    held: bool,
) -> Result<(), Memory>
    ensures { OnOk result (places.new.items
        ≡ places.old.items ++ (if not replaced && held then at ∷ [] else [])) }
{
    if !replaced && held {
        places.push(at)?;
    }
    Ok(())
}
