// Updates of tuples, in batches.
ghost use Rattle.std.specs.Prelude.{◌≡◌, ◌<◌, IfOk, Ok, length};
ghost use Rattle.topic_book.specs.Fitness.{shards_of};
ghost use Rattle.exchange_rules.specs.Calls.{Carried};
ghost use Rattle.exchange_rules.specs.Puts.{puts_of};
ghost use Rattle.exchange_rules.specs.Steps.{AreStorableWrites};
ghost use Rattle.exchange_rules.specs.Updates.{tuples_course};
ghost use Rattle.update_sink.specs.Progresses.{sunk_of};
ghost use Rattle.update_sink.specs.Steps.{IsTaken, batch_of, halt_of, halted};

use crate::parts::{behind, front};
use crate::progress::{Progress, sum, told};
use crate::put::puts_of;
use exchange_rules::{Ran, RunFault, SiteFault};
use std::alloc::Global;
use stream_site::{Turns, index_over};
use tuple_values::{Memory, Text, Tuple, Tuples, Writes};

/// Why an update stops in a batch, of which so many writes stand.
#[derive(Drop)]
pub(crate) struct Halt {
    stand: u64,
    fault: RunFault,
}

// Why an update stops in a batch that was refused, and none where memory was wanting. No site has logs
// yet: a log's fault ends it as want of memory does. It takes no memory, so neither can be told as the
// other.
fn halt_of(fault: SiteFault) -> Option<Halt>
    ensures { result ≡ halt_of fault }
{
    let stand = match &fault {
        SiteFault::ShardFull { stand, .. } => *stand,
        SiteFault::TopicBound { .. } | SiteFault::BookFull { .. } => 0,
        SiteFault::LogFault { .. } | SiteFault::CellClosed { .. } | SiteFault::OutOfMemory { .. } =>
            return None,
    };
    Some(Halt {
        stand,
        fault: RunFault::Site(fault),
    })
}

// What an update did that stops.
fn stopped(progress: Progress, halt: Halt) -> Result<Ran, Memory>
    ensures { IfOk result (λ ran. ran ≡ halted (sunk_of progress) halt) }
{
    match progress.stand.checked_add(halt.stand) {
        Some(stand) => Ok(Ran {
            summaries: Tuples::from_vec(progress.summaries),
            stand,
            fault: Some(halt.fault),
        }),
        None => Err(Memory::OutOfMemory),
    }
}

// The writes of a batch of so many tuples.
fn write_batch<T: Turns>(
    alloc: Global,
    site: &mut T,
    dest: &Text,
    tuples: u64,
    writes: Writes,
    progress: &mut Progress,
) -> Result<Option<Halt>, Memory>
    requires known { 0 < shards_of (T.layout site.old).names dest.now }
    requires storable { AreStorableWrites writes }
    ensures course { IsTaken (T.writer site.old) (T.writer site.new)
        (batch_of (T.layout site.old) dest.now tuples (sunk_of progress.old) (Ok writes))
        (sunk_of progress.new) result }
    ensures layout { T.layout site.new ≡ T.layout site.old }
    ensures home { T.home site.new ≡ T.home site.old }
{
    match index_over(alloc, site, dest, writes, true) {
        Ok(written) => {
            progress.add(alloc, tuples, written)?;
            Ok(None)
        }
        Err(fault) => match halt_of(fault) {
            Some(halt) => Ok(Some(halt)),
            None => Err(Memory::OutOfMemory),
        },
    }
}

// A batch: an update with a commit, unless a tuple in it asks for no write.
fn run_batch<T: Turns>(
    alloc: Global,
    site: &mut T,
    dest: &Text,
    batch: &[Tuple],
    progress: &mut Progress,
) -> Result<Option<Halt>, Memory>
    requires known { 0 < shards_of (T.layout site.old).names dest.now }
    ensures course { IsTaken (T.writer site.old) (T.writer site.new)
        (batch_of (T.layout site.old) dest.now (length batch.now) (sunk_of progress.old)
        (puts_of (sunk_of progress.old).total batch.now))
        (sunk_of progress.new) result }
    ensures layout { T.layout site.new ≡ T.layout site.old }
    ensures home { T.home site.new ≡ T.home site.old }
{
    let _end = sum(progress.total, batch.len() as u64)?;
    match puts_of(alloc, progress.total, batch)? {
        Ok(writes) => write_batch(alloc, site, dest, batch.len() as u64, writes, progress),
        Err(fault) => Ok(Some(Halt { stand: 0, fault })),
    }
}

// All batches.
fn run_batches<T: Turns>(
    alloc: Global,
    site: &mut T,
    dest: &Text,
    batch_size: u64,
    tuples: &[Tuple],
) -> Result<Ran, Memory>
    requires known { 0 < shards_of (T.layout site.old).names dest.now }
    requires size { 0 < batch_size }
    ensures course { Carried (T.writer site.old) (T.writer site.new)
        (tuples_course (T.layout site.old) dest.now batch_size tuples.now) result }
    ensures layout { T.layout site.new ≡ T.layout site.old }
    ensures home { T.home site.new ≡ T.home site.old }
{
    let mut progress = Progress::none(alloc);
    let mut rest = tuples;
    while !rest.is_empty() {
        let batch = front(rest, batch_size);
        if let Some(halt) = run_batch(alloc, site, dest, batch, &mut progress)? {
            return stopped(progress, halt);
        }
        rest = behind(rest, batch_size);
    }
    let stand = progress.stand;
    let summaries = told(alloc, progress.summaries)?;
    Ok(Ran {
        summaries,
        stand,
        fault: None,
    })
}

/// Writes tuples to a collection, in batches of so many. A batch is tested whole before any of it is
/// written; its documents are the tuples without reserved fields, each value in the kind of its
/// name, and it is an update with a commit. What is told: a summary of each whole batch, how many
/// writes stand, and why it stopped, if it did. After an `Err` whole steps stand. The writer has no
/// turn afterwards.
pub fn run_update<T: Turns>(
    alloc: Global,
    site: &mut T,
    dest: &Text,
    batch_size: u64,
    tuples: Tuples,
) -> Result<Ran, Memory>
    requires known { 0 < shards_of (T.layout site.old).names dest.now }
    requires size { 0 < batch_size }
    ensures course { Carried (T.writer site.old) (T.writer site.new)
        (tuples_course (T.layout site.old) dest.now batch_size tuples) result }
    ensures free { T.free site.new }
    ensures layout { T.layout site.new ≡ T.layout site.old }
    ensures home { T.home site.new ≡ T.home site.old }
{
    let tuples = tuples.into_vec();
    let result = run_batches(alloc, site, dest, batch_size, &tuples);
    site.leave();
    result
}
