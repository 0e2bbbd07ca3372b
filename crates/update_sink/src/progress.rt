// How far an update has come.
ghost use Rattle.std.specs.Prelude.{◌≡◌, ◌+◌, ◌<◌, ◌^◌, [], IfOk, OnErr, OnOk, pos, vec_capacity, vec_len};
ghost use Rattle.tuple_values.specs.Document.{long};
ghost use Rattle.tuple_values.specs.Views.{datum_of};
ghost use Rattle.exchange_rules.specs.Batches.{none_sunk, summary, told_summaries, with_batch};
ghost use Rattle.update_sink.specs.Progresses.{next_summary, sunk_of};

use std::alloc::Global;
use tuple_values::{Memory, Text, Tuple, Tuples, Value};

/// The summaries of the batches so far, how many tuples they delivered, and how many of their
/// writes stand.
#[derive(Drop)]
pub(crate) struct Progress {
    pub(crate) summaries: Vec<Tuple>,
    pub(crate) total: u64,
    pub(crate) stand: u64,
}

/// A number as a value.
pub(crate) fn number(n: u64) -> Result<Value, Memory>
    ensures { IfOk result (λ value. datum_of value ≡ long (pos n)) }
{
    match i64::try_from(n) {
        Ok(n) => Ok(Value::Long(n)),
        Err(_) => Err(Memory::OutOfMemory),
    }
}

/// The sum of two counts.
pub(crate) fn sum(a: u64, b: u64) -> Result<u64, Memory>
    ensures { IfOk result (λ n. n ≡ a + b) }
{
    match a.checked_add(b) {
        Some(n) => Ok(n),
        None => Err(Memory::OutOfMemory),
    }
}

// What is told of a batch.
fn summary(alloc: Global, indexed: u64, batch: u64, total: u64) -> Result<Tuple, Memory>
    ensures { IfOk result (λ told. told ≡ summary indexed batch total) }
{
    let mut told = Tuple::empty(alloc);
    told.put(Text::of(alloc, "batchIndexed")?, number(indexed)?)?;
    told.put(Text::of(alloc, "batchNumber")?, number(batch)?)?;
    told.put(Text::of(alloc, "totalIndexed")?, number(total)?)?;
    Ok(told)
}

impl Progress {
    /// Nothing was done yet.
    pub(crate) fn none(alloc: Global) -> Progress
        ensures { sunk_of result ≡ none_sunk }
    {
        Progress {
            summaries: Vec::new(alloc),
            total: 0,
            stand: 0,
        }
    }

    /// Makes the summary of one more batch of so many tuples, and room for it.
    pub(crate) fn prepare(&mut self, alloc: Global, tuples: u64) -> Result<Tuple, Memory>
        ensures same { sunk_of self.new ≡ sunk_of self.old }
        ensures told { IfOk result (λ told. told ≡ next_summary (sunk_of self.old) tuples) }
        ensures fits { OnOk result (self.old.total + tuples < 2 ^ 64) }
        ensures room { OnOk result (vec_len self.new.summaries < vec_capacity self.new.summaries) }
    {
        let total = sum(self.total, tuples)?;
        let batch = sum(self.summaries.len() as u64, 1)?;
        let told = summary(alloc, tuples, batch, total)?;
        self.summaries.reserve(1)?;
        Ok(told)
    }

    /// Adds a batch of so many tuples, which left so many writes, with its summary. Takes no memory.
    pub(crate) fn add_told(&mut self, told: Tuple, tuples: u64, writes: u64)
        requires told { told ≡ next_summary (sunk_of self.old) tuples }
        requires room { vec_len self.old.summaries < vec_capacity self.old.summaries }
        requires total { self.old.total + tuples < 2 ^ 64 }
        requires stand { self.old.stand + writes < 2 ^ 64 }
        ensures { sunk_of self.new ≡ with_batch (sunk_of self.old) tuples writes }
    {
        self.summaries.push_reserved(told);
        self.total += tuples;
        self.stand += writes;
    }

    /// Adds a batch of so many tuples, which left so many writes.
    pub(crate) fn add(&mut self, alloc: Global, tuples: u64, writes: u64) -> Result<(), Memory>
        ensures { OnOk result (sunk_of self.new ≡ with_batch (sunk_of self.old) tuples writes) }
    {
        let _stand = sum(self.stand, writes)?;
        let told = self.prepare(alloc, tuples)?;
        self.add_told(told, tuples, writes);
        Ok(())
    }
}

/// The summaries of an update; one of no tuples gives one summary, which alone takes memory.
pub(crate) fn told(alloc: Global, summaries: Vec<Tuple>) -> Result<Tuples, Memory>
    ensures told { IfOk result (λ told. told ≡ told_summaries summaries.items) }
    ensures err { OnErr result (summaries.items ≡ []) }
{
    let mut summaries = summaries;
    if summaries.is_empty() {
        summaries.push(summary(alloc, 0, 1, 0)?)?;
    }
    Ok(Tuples::from_vec(summaries))
}
