// A shard's log: what each entry does, beside the slots of the writes, which hold the documents.
ghost use Rattle.std.specs.Prelude.{◌≡◌, ◌+◌, ◌<◌, ◌≤◌, ◌^◌, ◌++◌, ◌∷◌, [], true, Some, IfOk, OnOk, length, map, take, option_copied, option_to_list, is_some, slice_index_or};
ghost use Rattle.shard_versions.specs.Histories.{slot_of, slots, last_version, version_after};
ghost use Rattle.shard_versions.specs.Indexes.{written_id, is_delivery, is_write_of, left_of};
ghost use Rattle.shard_versions.specs.Stored.{kept_slot, last_stored};
ghost use Rattle.shard_versions.specs.Documents.{id_of, with_version};
ghost use Rattle.shard_versions.specs.Logs.{bare_at, kind_in, act_kind, bare_kind, made_entry, IsMade, AreMade};
ghost use Rattle.shard_versions.specs.Fitness.{is_storable_kind, AreStorable};

use crate::document::{id_of, with_version};
use crate::snapshot::version_after;
use crate::{Entry, Kind, Step};
use shard_segments::{Chunks, Document, Slot};
use std::alloc::Global;
use std::collections::VecDeque;
use std::marker::Model;
use tuple_values::{Memory, Text, TryCopy, Tuple};

/// Where a delivery comes from.
#[derive(Drop)]
pub(crate) struct Origin {
    pub(crate) src: Text,
    pub(crate) version: u64,
}

/// What an entry does, whose document stands in the slot of its write.
#[derive(Drop)]
pub(crate) enum Act {
    Puts,
    Deletes(Box<Text>),
    Delivers(Box<Origin>),
    Marks,
}

/// What is kept of an entry: its writer, how many writes stand before it, and what it does.
#[derive(Drop)]
struct Note {
    by: u64,
    at: usize,
    act: Act,
}

/// An entry that is made ready, with the slot of its write.
#[derive(Drop)]
pub(crate) struct Made {
    pub(crate) by: u64,
    pub(crate) act: Act,
    pub(crate) slot: Option<Slot>,
}

/// A history, each document of which is kept once, with its version put in.
#[derive(Drop)]
pub(crate) struct Log {
    notes: Vec<Note>,
    chunks: Chunks,
}

impl Model for Log {
    ghost use Rattle.shard_versions.specs.Logs.{Logged, logged_code};

    ghost Value = { Logged };

    ghost use Rattle.shard_segments.specs.contracts.slot.Slot as slot;
    ghost use Rattle.shard_versions.specs.contracts.entry.Entry as entry;
    ghost use Rattle.std.specs.Coded.{codes};

    ghost coded = { logged_code (Prim.hlevel (codes, entry.the_row.coded))
        (Prim.hlevel (codes, slot.the_row.coded)) };

    ghost use Rattle.shard_versions.specs.Logging.{logged_in, IsLog};

    ghost view = { logged_in };

    ghost invariant = { IsLog };
}

impl Log {
    /// No entry.
    #[tactic(auto, unfolding(crate::specs::Logs::widths_before, crate::specs::Histories::slots, crate::specs::Histories::slots_after))]
    pub(crate) fn empty(alloc: Global) -> Log
        ensures entries { result.entries ≡ [] }
    {
        Log {
            notes: Vec::new(alloc),
            chunks: Chunks::empty(alloc),
        }
    }

    /// How many entries there are. With those for which there is room there are fewer than 2^63.
    pub(crate) fn len(&self) -> usize
        ensures count { result ≡ length self.now.entries }
        ensures room { result + self.now.room < 2 ^ 63 }
    {
        self.notes.len()
    }

    /// The version of the last write, and 0 where there is none.
    pub(crate) fn last(&self) -> u64
        ensures { result ≡ last_version 0 (slots self.now.entries) }
    {
        last_of(&self.chunks)
    }

    /// How many writes stand before this place.
    pub(crate) fn at(&self, place: usize) -> usize
        requires { place ≤ length self.now.entries }
        ensures { result ≡ length (slots (take place self.now.entries)) }
    {
        if place < self.notes.len() {
            self.notes[place].at
        } else {
            self.chunks.len() as usize
        }
    }

    /// The slots of the first so many writes.
    pub(crate) fn share(&self, alloc: Global, upto: usize) -> Result<Chunks, Memory>
        requires { upto ≤ length (slots self.now.entries) }
        ensures { IfOk result (λ chunks.
            chunks.slots ≡ take upto (map kept_slot (slots self.now.entries))) }
    {
        self.chunks.share(alloc, upto as u64)
    }

    /// Makes room for so many more entries.
    pub(crate) fn reserve(&mut self, more: usize) -> Result<(), Memory>
        ensures entries { self.new.entries ≡ self.old.entries }
        ensures kept { self.old.room ≤ self.new.room }
        ensures ok { OnOk result (more ≤ self.new.room) }
    {
        self.notes.reserve(more)?;
        self.chunks.reserve(more as u64)
    }

    /// Adds an entry that is made ready. Takes no memory.
    pub(crate) fn push(&mut self, made: Made)
        requires room { 0 < self.old.room }
        requires made { IsMade (last_version 0 (slots self.old.entries)) made }
        ensures entries { self.new.entries ≡ self.old.entries ++ made_entry made ∷ [] }
        ensures room { self.old.room ≤ self.new.room + 1 }
    {
        let at = self.chunks.len() as usize;
        push_slot(&mut self.chunks, made.slot);
        self.notes.push_reserved(Note {
            by: made.by,
            at,
            act: made.act,
        });
    }

    /// The id that the entry at a place writes.
    pub(crate) fn written_id(&self, place: usize) -> Option<&str>
        requires { place < length self.now.entries }
        ensures { (d : _) → option_copied result
            ≡ written_id (slice_index_or self.now.entries place d).kind }
    {
        let note = &self.notes[place];
        match &note.act {
            Act::Puts => Some(id_in(&self.chunks, note.at)),
            Act::Deletes(id) => Some(id.as_str()),
            Act::Delivers(_) => Some(id_in(&self.chunks, note.at)),
            Act::Marks => None,
        }
    }

    /// Whether the entry at a place writes this id.
    pub(crate) fn is_write_of(&self, place: usize, id: &str) -> bool
        requires { place < length self.now.entries }
        ensures { (d : _) → result
            ≡ is_write_of id.now (slice_index_or self.now.entries place d).kind }
    {
        match self.written_id(place) {
            Some(other) => id == other,
            None => false,
        }
    }

    /// Whether the entry at a place is a delivery from this source under this id.
    pub(crate) fn is_delivery(&self, place: usize, src: &str, id: &str) -> bool
        requires { place < length self.now.entries }
        ensures { (d : _) → result
            ≡ is_delivery src.now id.now (slice_index_or self.now.entries place d).kind }
    {
        let note = &self.notes[place];
        match &note.act {
            Act::Delivers(origin) => {
                src == origin.src.as_str() && id == id_in(&self.chunks, note.at)
            }
            Act::Puts => false,
            Act::Deletes(_) => false,
            Act::Marks => false,
        }
    }

    /// The entries once more.
    pub(crate) fn entries(&self, alloc: Global) -> Result<Step, Memory>
        ensures { IfOk result (λ entries. entries ≡ self.now.entries) }
    {
        let mut entries = Step::new(alloc);
        for k in 0..self.len() {
            entries.push(self.entry(alloc, k)?)?;
        }
        Ok(entries)
    }

    // The entry at a place once more.
    fn entry(&self, alloc: Global, place: usize) -> Result<Entry, Memory>
        requires { place < length self.now.entries }
        ensures { IfOk result (λ entry.
            entry ≡ slice_index_or self.now.entries place entry) }
    {
        let note = &self.notes[place];
        let kind = kind_at(alloc, &self.chunks, note)?;
        Ok(Entry { by: note.by, kind })
    }

    /// Whether the entry at a place leaves a document.
    pub(crate) fn has_document(&self, place: usize) -> bool
        requires { place < length self.now.entries }
        ensures { (d : _) → result
            ≡ is_some (left_of (slice_index_or self.now.entries place d).kind) }
    {
        match &self.notes[place].act {
            Act::Puts => true,
            Act::Deletes(_) => false,
            Act::Delivers(_) => true,
            Act::Marks => false,
        }
    }
}

// What an entry does, with a copy of its document.
fn kind_at(alloc: Global, chunks: &Chunks, note: &Note) -> Result<Kind, Memory>
    ensures { IfOk result (λ kind. kind ≡ kind_in chunks.now.slots note.now.at note.now.act) }
{
    match &note.act {
        Act::Puts => Ok(Kind::Put(bare_at(alloc, chunks, note.at)?)),
        Act::Deletes(id) => Ok(Kind::Del(id.copy(alloc)?)),
        Act::Delivers(origin) => {
            let src = origin.src.copy(alloc)?;
            let document = bare_at(alloc, chunks, note.at)?;
            Ok(Kind::Sent {
                src,
                version: origin.version,
                document,
            })
        }
        Act::Marks => Ok(Kind::Mark),
    }
}

// The document of the slot at a place as it was written, empty where there is none.
fn bare_at(alloc: Global, chunks: &Chunks, at: usize) -> Result<Tuple, Memory>
    ensures { IfOk result (λ tuple. tuple ≡ bare_at chunks.now.slots at) }
{
    if at as u64 >= chunks.len() {
        return Ok(Tuple::empty(alloc));
    }
    match &chunks.get(at as u64).document {
        Some(document) => {
            let mut tuple = document.tuple().copy(alloc)?;
            tuple.remove("_version_");
            Ok(tuple)
        }
        None => Ok(Tuple::empty(alloc)),
    }
}

/// The version of the last slot, and 0 where there is none.
pub(crate) fn last_of(chunks: &Chunks) -> u64
    ensures { result ≡ last_stored 0 chunks.now.slots }
{
    let count = chunks.len();
    if count == 0 {
        return 0;
    }
    chunks.get(count - 1).version
}

// Adds a slot where there is one.
pub(crate) fn push_slot(chunks: &mut Chunks, slot: Option<Slot>)
    requires { 0 < chunks.old.room }
    ensures slots { chunks.new.slots ≡ chunks.old.slots ++ option_to_list slot }
    ensures room { chunks.old.room ≤ chunks.new.room + 1 }
{
    match slot {
        Some(slot) => chunks.push(slot),
        None => {}
    }
}

// The id of the document of the slot at a place, and the empty text where it has none.
fn id_in(chunks: &Chunks, at: usize) -> &str
    requires { at < length chunks.now.slots }
    ensures { result.now ≡ id_of (bare_at chunks.now.slots at) }
{
    match &chunks.get(at as u64).document {
        Some(document) => id_of(document.tuple()),
        None => "",
    }
}

// A slot with the document in this version.
fn slot_with(
    alloc: Global,
    version: u64,
    document: &Tuple,
    other: Option<&Tuple>,
) -> Result<Slot, Memory>
    requires { version < 2 ^ 63 }
    ensures { IfOk result (λ slot. slot ≡ record {
      version = version;
      document = Some (with_version version document.now);
    }) }
{
    let tuple = with_version(alloc, document, version, other)?;
    let document = Some(Document::of(alloc, tuple)?);
    Ok(Slot { version, document })
}

/// The slot of a write in this version. Its document shares the name of the version's field with the
/// other one.
pub(crate) fn slot_for(
    alloc: Global,
    version: u64,
    kind: &Kind,
    other: Option<&Tuple>,
) -> Result<Option<Slot>, Memory>
    requires { version < 2 ^ 63 }
    ensures { IfOk result (λ slot.
        option_to_list slot ≡ map kept_slot (slot_of version kind.now)) }
{
    match kind {
        Kind::Put(document) => Ok(Some(slot_with(alloc, version, document, other)?)),
        Kind::Sent { document, .. } => Ok(Some(slot_with(alloc, version, document, other)?)),
        Kind::Del(_) => Ok(Some(Slot {
            version,
            document: None,
        })),
        Kind::Mark => Ok(None),
    }
}

// What an entry does, without its document.
fn act_of(alloc: Global, kind: &Kind) -> Result<Act, Memory>
    ensures { IfOk result (λ act. act_kind act ≡ bare_kind kind.now) }
{
    match kind {
        Kind::Put(_) => Ok(Act::Puts),
        Kind::Del(id) => Ok(Act::Deletes(Box::new(alloc, id.copy(alloc)?)?)),
        Kind::Sent { src, version, .. } => {
            let src = src.copy(alloc)?;
            let version = *version;
            Ok(Act::Delivers(Box::new(alloc, Origin { src, version })?))
        }
        Kind::Mark => Ok(Act::Marks),
    }
}

// An entry made ready, whose version is this one where it is a write.
fn made_of(
    alloc: Global,
    version: u64,
    entry: &Entry,
    other: Option<&Tuple>,
) -> Result<Made, Memory>
    requires version { version < 2 ^ 63 }
    requires storable { is_storable_kind entry.now.kind ≡ true }
    ensures entry { IfOk result (λ made. made_entry made ≡ entry.now) }
    ensures slot { IfOk result (λ made.
        option_to_list made.slot ≡ map kept_slot (slot_of version entry.now.kind)) }
{
    let slot = slot_for(alloc, version, &entry.kind, other)?;
    let act = act_of(alloc, &entry.kind)?;
    Ok(Made {
        by: entry.by,
        act,
        slot,
    })
}

// The document of the last of those that are made ready, where it has one.
fn last_document(made: &VecDeque<Made>) -> Option<&Tuple> {
    match made.back() {
        Some(
            Made {
                slot: Some(
                    Slot {
                        document: Some(document),
                        ..
                    },
                ),
                ..
            },
        ) => Some(document.tuple()),
        _ => None,
    }
}

/// A step made ready, whose writes follow the version `last`.
pub(crate) fn made_all(alloc: Global, last: u64, step: &[Entry]) -> Result<VecDeque<Made>, Memory>
    requires storable { AreStorable step.now }
    requires few { last + length step.now < 2 ^ 63 }
    ensures entries { IfOk result (λ all. map made_entry all.items ≡ step.now) }
    ensures made { IfOk result (λ all. AreMade last all.items) }
{
    let mut all = VecDeque::new(alloc);
    all.reserve_exact(step.len())?;
    let mut version = last;
    for entry in step {
        version = version_after(version, &entry.kind);
        let made = made_of(alloc, version, entry, last_document(&all))?;
        all.push_back(made)?;
    }
    Ok(all)
}
