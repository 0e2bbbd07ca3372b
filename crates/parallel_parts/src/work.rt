// The work of a parallel, part by part.
ghost use Rattle.std.specs.Prelude.{◌≡◌, ◌<◌, List, IfOk, Ok, Some, map};
ghost use Rattle.std.specs.List.{range_with_len};
ghost use Rattle.tuple_values.specs.Document.{ByteList};
ghost use Rattle.expr_types.specs.Lists.{list_of};
ghost use Rattle.expr_check.specs.Views.{tree_of, part_tree};
ghost use Rattle.expr_check.specs.Walk.{keys_of};
ghost use Rattle.source_streams.specs.Cuts.{documents_of};
ghost use Rattle.source_streams.specs.Parts.{part_of};
ghost use Rattle.part_laws.specs.Parted.{all_parts};
ghost use Rattle.part_laws.specs.Splits.{IsSplit};

use expr_check::ParallelPart;
use io_edge::{Gate, Point};
use shard_versions::Cut;
use source_streams::Part;
use std::alloc::Global;
use std::thread::{Threads, map_vec};
use stream_engine::{Feeds, drain, open_stream};
use tuple_values::{Memory, Tuples};

// What one worker does: its part, counted from 0, and where it takes memory.
#[derive(Drop)]
struct Job {
    alloc: Global,
    index: u16,
}

// The jobs of so many workers, one a part, in the parts' order.
fn jobs_among(alloc: Global, workers: u16) -> Result<Vec<Job>, Memory>
    ensures { IfOk result (λ jobs. map (λ j. j.index) jobs.items ≡ range_with_len 0 workers) }
{
    let mut jobs = Vec::with_capacity(alloc, workers as usize)?;
    for index in 0..workers {
        jobs.push(Job { alloc, index })?;
    }
    Ok(jobs)
}

// The tuples of one part, counted from 0.
fn tuples_of<R: Threads + Sync>(
    rt: &R,
    alloc: Global,
    part: &ParallelPart,
    cut: &Cut,
    index: u16,
) -> Result<Tuples, Memory>
    requires in_range { index < part.now.workers }
    requires split { IsSplit (part_tree part.now) }
    ensures { (keys : List ByteList) → keys_of (tree_of part.now.checked) ≡ Some keys
        → IfOk result (λ tuples. tuples ≡ part_of index part.now.workers keys
        (list_of (λ c. documents_of c cut.now) (tree_of part.now.checked))) }
{
    let of = Part {
        index,
        of: part.workers,
    };
    let stream = open_stream(rt, alloc, &part.checked, cut, Feeds::new(alloc), of)?;
    drain(alloc, stream)
}

// The work of one worker: it opens the stream of its part, drains it and drops it.
fn work_part<R: Threads + Sync, G: Gate>(
    rt: &R,
    job: Job,
    part: &ParallelPart,
    cut: &Cut,
    gate: &G,
) -> Result<Tuples, Memory>
    requires in_range { job.index < part.now.workers }
    requires split { IsSplit (part_tree part.now) }
    ensures { (keys : List ByteList) → keys_of (tree_of part.now.checked) ≡ Some keys
        → IfOk result (λ tuples. tuples ≡ part_of job.index part.now.workers keys
        (list_of (λ c. documents_of c cut.now) (tree_of part.now.checked))) }
{
    let Job { alloc, index } = job;
    gate.at(Point::WorkerStarts { part: index });
    let tuples = tuples_of(rt, alloc, part, cut, index);
    gate.at(Point::WorkerEnds { part: index });
    tuples
}

// The lists of all parts, where no worker wanted memory.
fn all_given(alloc: Global, results: Vec<Result<Tuples, Memory>>) -> Result<Vec<Tuples>, Memory>
    ensures { IfOk result (λ lists. map Ok lists.items ≡ results.items) }
{
    let mut lists = Vec::new(alloc);
    for tuples in results {
        lists.push(tuples?)?;
    }
    Ok(lists)
}

/// The lists of all parts of a parallel's work over a cut, in their order. Each worker does its part
/// in a thread of its own; where no thread can be started the caller does that work.
pub(crate) fn worked<R: Threads + Sync, G: Gate>(
    rt: &R,
    alloc: Global,
    part: &ParallelPart,
    cut: &Cut,
    gate: &G,
) -> Result<Vec<Tuples>, Memory>
    requires { IsSplit (part_tree part.now) }
    ensures { (keys : List ByteList) → keys_of (tree_of part.now.checked) ≡ Some keys
        → IfOk result (λ lists. lists.items ≡ all_parts part.now.workers keys
        (list_of (λ c. documents_of c cut.now) (tree_of part.now.checked))) }
{
    let jobs = jobs_among(alloc, part.workers)?;
    let results = map_vec(
        rt,
        jobs,
        &|job: Job| -> Result<Tuples, Memory>
            requires { (job.index < part.now.workers) × IsSplit (part_tree part.now) }
            ensures { (keys : List ByteList) → keys_of (tree_of part.entry.now.checked) ≡ Some keys
                → IfOk result (λ tuples. tuples ≡ part_of job.index part.entry.now.workers keys
                (list_of (λ c. documents_of c cut.entry.now) (tree_of part.entry.now.checked))) }
        { work_part(rt, job, part, cut, gate) },
    )?;
    all_given(alloc, results)
}
