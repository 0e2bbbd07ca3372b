// The writes of an update and the items of a delivery, shard by shard.
ghost use Rattle.std.specs.Prelude.{◌≡◌, ◌<◌, ◌++◌, ◌∷◌, [], IfOk, OnOk, replicate, set, get_or, length, map, vec_len};
ghost use Rattle.tuple_values.specs.Keys.{shard_of};
ghost use Rattle.exchange_rules.specs.Deliveries.{sent_kinds};
ghost use Rattle.exchange_rules.specs.Steps.{kind_of, written_id};
ghost use Rattle.stream_site.specs.Shares.{AreRouted, AreShares};

use exchange_rules::Batch;
use shard_versions::{Entry, Step, id_of};
use std::alloc::Global;
use std::mem::replace;
use tuple_values::{Memory, Text, TryCopy, Write, Writes, shard_of};

/// The write as an entry under this number.
fn entry_of(writer: u64, write: Write) -> Entry
    ensures { result ≡ record { by = writer; kind = kind_of write } }
{
    match write {
        Write::Put(document) => Entry::put(writer, document),
        Write::Del(id) => Entry::del(writer, id),
    }
}

/// The shard that the write routes to.
fn home_of(write: &Write, shards: u16) -> u16
    requires { 0 < shards }
    ensures { result ≡ shard_of shards (written_id write.now) }
{
    match write {
        Write::Put(document) => shard_of(id_of(document), shards),
        Write::Del(id) => shard_of(id.as_str(), shards),
    }
}

/// The writes as entries under this number, a step for each of so many shards.
pub(crate) fn route(
    alloc: Global,
    writer: u64,
    shards: u16,
    writes: Writes,
) -> Result<Vec<Step>, Memory>
    requires { 0 < shards }
    ensures { IfOk result (λ steps. AreShares writer shards writes steps.items) }
{
    let mut steps = empty_steps(alloc, shards)?;
    for write in writes.into_vec() {
        let shard = home_of(&write, shards);
        add(&mut steps, shard, entry_of(writer, write))?;
    }
    Ok(steps)
}

/// The items as deliveries from this source under this number, a step for each of so many shards.
pub(crate) fn route_batch(
    alloc: Global,
    writer: u64,
    shards: u16,
    src: &Text,
    batch: Batch,
) -> Result<Vec<Step>, Memory>
    requires { 0 < shards }
    ensures { IfOk result (λ steps. AreRouted writer shards (sent_kinds src.now batch) steps.items) }
{
    let mut steps = empty_steps(alloc, shards)?;
    for item in batch.into_vec() {
        let shard = shard_of(id_of(&item.document), shards);
        let src = src.copy(alloc)?;
        let entry = Entry::sent(writer, src, item.version, item.document);
        add(&mut steps, shard, entry)?;
    }
    Ok(steps)
}

fn empty_steps(alloc: Global, count: u16) -> Result<Vec<Step>, Memory>
    ensures { IfOk result (λ steps. steps.items ≡ replicate count []) }
{
    let mut steps = Vec::new(alloc);
    for _ in 0..count {
        steps.push(Step::new(alloc))?;
    }
    Ok(steps)
}

/// Adds the entry to the step at this place.
fn add(steps: &mut Vec<Step>, place: u16, entry: Entry) -> Result<(), Memory>
    requires { place < vec_len steps.old }
    ensures { OnOk result (steps.new.items
        ≡ set steps.old.items place (get_or steps.old.items place [] ++ entry ∷ [])) }
{
    let step = &mut steps[place as usize];
    step.push(entry)
}

/// How many entries each step has.
pub(crate) fn counts_of(alloc: Global, steps: &[Step]) -> Result<Vec<usize>, Memory>
    ensures { IfOk result (λ counts. counts.items ≡ map length steps.now) }
{
    let mut counts = Vec::new(alloc);
    for step in steps {
        counts.push(step.len())?;
    }
    Ok(counts)
}

/// The step at this place, in whose stead an empty one is left.
pub(crate) fn take_step(alloc: Global, steps: &mut Vec<Step>, place: u16) -> Step
    requires { place < vec_len steps.old }
    ensures step { result ≡ get_or steps.old.items place [] }
    ensures rest { steps.new.items ≡ set steps.old.items place [] }
{
    let step = &mut steps[place as usize];
    replace(step, Step::new(alloc))
}
