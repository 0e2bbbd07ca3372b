// The state of a shard.
ghost use Rattle.std.specs.Prelude.{false, true, ◌≡◌, ◌+◌, ◌-◌, ◌<◌, ◌≤◌, ◌^◌, ◌++◌, ◌∷◌, ◌↔◌, [], length, min, IsErrOf, OnErr, OnOk, IfOk, List, if◌then◌else◌};
ghost use Rattle.shard_versions.specs.declared.entry.Entry.{Entry};
ghost use Rattle.shard_versions.specs.Histories.{is_mark, is_pending, settled, slots, last_version, top, current};
ghost use Rattle.shard_versions.specs.Stored.{stored, places_of};
ghost use Rattle.shard_versions.specs.Indexes.{nexts_of, stays_current};
ghost use Rattle.shard_versions.specs.Logs.{made_entry, IsMade};
ghost use Rattle.shard_versions.specs.Deliveries.{admits};
ghost use Rattle.shard_versions.specs.Fitness.{AreStorable};
ghost use Rattle.shard_versions.specs.Sizes.{entries_bytes};
ghost use Rattle.shard_versions.specs.Shards.{HasRoom};

use crate::index::{greatest_sent, is_replaced, note_delivery, note_write, relink};
use crate::log::{Log, Made, last_of, made_all};
use crate::size::{entries_bytes, kind_bytes};
use crate::snapshot::push_current;
use crate::tree::Tree;
use crate::{Entry, Kind, ShardFault, Snapshot, Step};
use std::alloc::Global;
use std::collections::VecDeque;
use std::marker::Model;
use std::mem;
use tuple_values::{Memory, Text};

/// A shard with its whole history. What it keeps beside the entries, it keeps by their places,
/// each counted from 1, with 0 for none: of each write the next one of its id, of each delivery
/// the greatest version so far of its source and id, and where the last Mark stands. Until a write
/// replaces or deletes a document it knows that all are current.
pub struct ShardState {
    log: Log,
    nexts: Vec<usize>,
    greatests: Vec<u64>,
    ids: Tree,
    sends: Tree,
    all_current: bool,
    closed: usize,
    bytes: u64,
    limit: u64,
    room: u64,
    ready: VecDeque<Made>,
}

impl Drop for ShardState {
    fn drop(self) {
        let ShardState {
            log,
            nexts,
            greatests,
            ids,
            sends,
            all_current: _,
            closed: _,
            bytes: _,
            limit: _,
            room: _,
            ready,
        } = self;
        drop(log);
        drop(nexts);
        drop(greatests);
        drop(ids);
        drop(sends);
        drop(ready);
    }
}

impl Model for ShardState {
    ghost use Rattle.shard_versions.specs.Shards.{Shard};

    ghost Value = { Shard };

    ghost use Rattle.shard_versions.specs.contracts.entry.Entry as entry;
    ghost use Rattle.std.specs.Coded.{codes};

    ghost coded = { Prim.hlevel (codes, entry.the_row.coded) };

    ghost use Rattle.shard_versions.specs.States.{shard_in, IsState};

    ghost view = { shard_in };

    ghost invariant = { IsState };
}

impl ShardState {
    /// The shard of no entry, with a limit on counted bytes.
    #[tactic(auto, using(crate::proofs::FindLemmas::finds_steps), unfolding(crate::specs::Indexes::nexts_of, crate::specs::Indexes::greatests_after, crate::specs::Histories::settled, crate::specs::Histories::slots, crate::specs::Histories::slots_after))]
    pub fn empty(alloc: Global, limit: u64) -> ShardState
        requires { limit ≤ 268435456 }
        ensures entries { result.entries ≡ [] }
        ensures limit { result.limit ≡ limit }
    {
        ShardState {
            log: Log::empty(alloc),
            nexts: Vec::new(alloc),
            greatests: Vec::new(alloc),
            ids: Tree::empty(alloc),
            sends: Tree::empty(alloc),
            all_current: true,
            closed: 0,
            bytes: 0,
            limit,
            room: 0,
            ready: VecDeque::new(alloc),
        }
    }

    /// How many entries there are. With those of a step that has room there are fewer than 2^63.
    #[tactic(auto, unfolding(crate::specs::Shards::HasRoom))]
    pub fn len(&self) -> u64
        ensures count { result ≡ length self.now.entries }
        ensures room { (step : List Entry) → HasRoom self.now step → result + length step < 2 ^ 63 }
    {
        self.log.len() as u64
    }

    /// The counted bytes of the entries, and `u64::MAX` where they are more.
    pub fn bytes(&self) -> u64
        ensures { result ≡ min (entries_bytes self.now.entries) (2 ^ 64 - 1) }
    {
        self.bytes
    }

    /// Whether a write stands after the last Mark.
    #[tactic(auto, using(crate::proofs::SettledLemmas::pending_tests))]
    pub fn pending(&self) -> bool
        ensures { result ≡ is_pending self.now.entries }
    {
        self.closed < self.log.len()
    }

    /// Whether a delivery from the source under the id is newer than all that there are.
    #[tactic(auto, using(crate::proofs::IndexLemmas::admits_tests), unfolding(crate::specs::Deliveries::admits))]
    pub fn admits_sent(&self, src: &Text, id: &Text, version: u64) -> bool
        ensures { result ≡ admits self.now.entries src.now id.now version }
    {
        match greatest_sent(
            &self.log,
            &self.greatests,
            &self.sends,
            src.as_str(),
            id.as_str(),
        ) {
            Some(greatest) => greatest < version,
            None => true,
        }
    }

    /// The shard as it is now. No document is copied.
    pub fn snapshot(&self, alloc: Global) -> Result<Snapshot, Memory>
        ensures top { IfOk result (λ s. s.top ≡ top self.now.entries) }
        ensures upto { IfOk result (λ s. s.upto ≡ length self.now.entries) }
        ensures documents { IfOk result (λ s. s.documents ≡ current self.now.entries) }
        ensures slots { IfOk result (λ s. s.slots ≡ stored self.now.entries) }
        ensures places { IfOk result (λ s. s.places ≡ places_of self.now.entries) }
    {
        let chunks = self.log.share(alloc, self.log.at(self.closed))?;
        let all_current = self.all_current;
        let places = kept_places(alloc, &self.log, &self.nexts, self.closed, all_current)?;
        Ok(Snapshot {
            reached: last_of(&chunks),
            seen: self.log.len() as u64,
            chunks,
            all_current,
            places,
        })
    }

    /// The entries alone. Their documents are copied out of the slots, which snapshots may share.
    pub fn into_entries(self, alloc: Global) -> Result<Step, Memory>
        ensures { IfOk result (λ entries. entries ≡ self.entries) }
    {
        let entries = self.log.entries(alloc)?;
        Ok(entries)
    }

    /// Whether the counted bytes pass the limit with those of the step. Takes no memory.
    pub fn is_over(&self, step: &Step) -> bool
        ensures { (result ≡ true)
            ↔ (self.now.limit < entries_bytes self.now.entries + entries_bytes step.now) }
    {
        self.bytes.saturating_add(entries_bytes(step.as_slice())) > self.limit
    }

    /// Makes room for one append of this step.
    #[tactic(auto, using(crate::proofs::FindLemmas::finds_steps), unfolding(crate::specs::Shards::HasRoom))]
    pub fn reserve(&mut self, step: &Step) -> Result<(), ShardFault>
        requires { AreStorable step.now }
        ensures entries { self.new.entries ≡ self.old.entries }
        ensures limit { self.new.limit ≡ self.old.limit }
        ensures room { OnOk result (HasRoom self.new step.now) }
        ensures exact { OnOk result (self.new.room ≡ length step.now) }
        ensures err { OnErr result (self.new ≡ self.old) }
        ensures shard_full { IsErrOf result ShardFault.ShardFull
            ↔ (self.old.limit < entries_bytes self.old.entries + entries_bytes step.now) }
    {
        let more = step.len();
        if self.is_over(step) {
            return Err(ShardFault::ShardFull);
        }
        self.log.reserve(more)?;
        self.nexts.reserve(more)?;
        self.greatests.reserve(more)?;
        self.ids.reserve(more)?;
        self.sends.reserve(more)?;
        let alloc = *self.nexts.allocator();
        // With so many entries versions are signed 64-bit numbers.
        let _count = self.log.len();
        self.ready = made_all(alloc, self.log.last(), step.as_slice())?;
        self.room = more as u64;
        Ok(())
    }

    /// Adds the step behind the entries. Takes no memory.
    #[tactic(auto, unfolding(crate::specs::Shards::HasRoom))]
    pub fn append(&mut self, step: Step)
        requires room { HasRoom self.old step }
        requires storable { AreStorable step }
        ensures entries { self.new.entries ≡ self.old.entries ++ step }
        ensures limit { self.new.limit ≡ self.old.limit }
    {
        let alloc = *self.nexts.allocator();
        let mut ready = mem::replace(&mut self.ready, VecDeque::new(alloc));
        for entry in step.as_slice() {
            let Some(made) = ready.pop_front() else {
                unreachable!();
            };
            self.push(entry, made);
        }
    }

    // Adds an entry as it is made ready.
    fn push(&mut self, entry: &Entry, made: Made)
        requires room { 0 < self.old.room }
        requires is { made_entry made ≡ entry.now }
        requires made { IsMade (last_version 0 (slots self.old.entries)) made }
        requires ready { self.old.ready ≡ [] }
        ensures entries { self.new.entries ≡ self.old.entries ++ entry.now ∷ [] }
        ensures limit { self.new.limit ≡ self.old.limit }
        ensures room { self.new.room + 1 ≡ self.old.room }
        ensures ready { self.new.ready ≡ [] }
    {
        let place = self.log.len() + 1;
        let before = note_write(&self.log, &mut self.ids, &entry.kind);
        let greatest = note_delivery(&self.log, &self.greatests, &mut self.sends, &entry.kind);
        relink(&mut self.nexts, before, place);
        self.all_current = stays_current(self.all_current, before, &entry.kind);
        self.nexts.push_reserved(0);
        self.greatests.push_reserved(greatest);
        self.closed = closed_with(self.closed, place, &entry.kind);
        self.bytes = self.bytes.saturating_add(kind_bytes(&entry.kind));
        self.room -= 1;
        self.log.push(made);
    }
}

// The places of the current ones among the slots of the writes, which are kept only where some write
// isn't current.
fn kept_places(
    alloc: Global,
    log: &Log,
    nexts: &[usize],
    closed: usize,
    all_current: bool,
) -> Result<Vec<u64>, Memory>
    requires nexts { nexts.now ≡ nexts_of 0 log.now.entries }
    requires closed { closed ≡ length (settled log.now.entries) }
    ensures { IfOk result (λ places.
        all_current ≡ false → places.items ≡ places_of log.now.entries) }
{
    if all_current {
        return Ok(Vec::new(alloc));
    }
    current_places(alloc, log, nexts, closed)
}

// The places, among the slots of the writes, of those whose documents are current.
fn current_places(
    alloc: Global,
    log: &Log,
    nexts: &[usize],
    closed: usize,
) -> Result<Vec<u64>, Memory>
    requires nexts { nexts.now ≡ nexts_of 0 log.now.entries }
    requires closed { closed ≡ length (settled log.now.entries) }
    ensures { IfOk result (λ places. places.items ≡ places_of log.now.entries) }
{
    let mut places = Vec::new(alloc);
    for place in 0..closed {
        let replaced = is_replaced(nexts[place], closed);
        push_current(
            &mut places,
            log.at(place) as u64,
            replaced,
            log.has_document(place),
        )?;
    }
    Ok(places)
}

// Whether each write is current with one more entry, where this is the place of the write before of
// its id.
fn stays_current(all_current: bool, before: usize, kind: &Kind) -> bool
    ensures { result ≡ stays_current all_current before kind.now }
{
    match kind {
        Kind::Put(_) => all_current && before == 0,
        Kind::Del(_) => false,
        Kind::Sent { .. } => all_current && before == 0,
        Kind::Mark => all_current,
    }
}

/// How many entries there are up to the last Mark, with one more entry at this place.
fn closed_with(closed: usize, place: usize, kind: &Kind) -> usize
    ensures { result ≡ (if is_mark kind.now then place else closed) }
{
    match kind {
        Kind::Mark => place,
        Kind::Put(_) => closed,
        Kind::Del(_) => closed,
        Kind::Sent { .. } => closed,
    }
}
