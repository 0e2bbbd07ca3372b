// Expressions, evaluated.
ghost use Rattle.std.specs.Prelude.{◌≡◌, false, IfOk, map};
ghost use Rattle.std.specs.List.{AllByRecursion};
ghost use Rattle.expr_types.specs.Lists.{list_of};
ghost use Rattle.expr_types.specs.Plain.{IsPlain};
ghost use Rattle.expr_check.specs.Views.{tree_of, part_tree};
ghost use Rattle.source_streams.specs.Cuts.{documents_of};
ghost use Rattle.stream_engine.specs.Fed.{lists_split};
ghost use Rattle.part_laws.specs.Splits.{IsSplit};

use crate::work::worked;
use expr_check::{Checked, ParallelPart};
use io_edge::Gate;
use shard_versions::Cut;
use source_streams::Part;
use std::alloc::Global;
use std::thread::Threads;
use stream_engine::{Feeds, Stream, drain, merge_lists, open_stream};
use tuple_values::{Memory, Tuples};

/// The stream of the tuples that an expression which only reads gives over a cut, which holds each
/// shard of its collections. Its searches are made here, and the work of each `parallel` is done
/// here: it is split among its workers, each in a thread of its own where one can be started; the
/// gate is told in the worker where it begins and ends. What functions do with their inputs is done
/// as tuples are read.
pub fn open_eval<R: Threads + Sync, G: Gate>(
    rt: &R,
    alloc: Global,
    checked: &Checked,
    cut: &Cut,
    gate: &G,
) -> Result<Stream, Memory>
    requires { IsPlain (tree_of checked.now) }
    ensures list { IfOk result (λ stream. stream.0
        ≡ list_of (λ c. documents_of c cut.now) (tree_of checked.now)) }
    ensures lives { IfOk result (λ stream. stream.2 ≡ false) }
{
    let _expr = checked.expr();
    let feeds = fed_lists(rt, alloc, checked.parallels(), cut, gate)?;
    open_stream(rt, alloc, checked, cut, feeds, Part::whole())
}

/// The tuples that an expression which only reads gives over a cut: those of its stream.
pub fn eval<R: Threads + Sync, G: Gate>(
    rt: &R,
    alloc: Global,
    checked: &Checked,
    cut: &Cut,
    gate: &G,
) -> Result<Tuples, Memory>
    requires { IsPlain (tree_of checked.now) }
    ensures { IfOk result (λ tuples. tuples
        ≡ list_of (λ c. documents_of c cut.now) (tree_of checked.now)) }
{
    let stream = open_eval(rt, alloc, checked, cut, gate)?;
    drain(alloc, stream)
}

// The lists that parallels give, in their order.
fn fed_lists<R: Threads + Sync, G: Gate>(
    rt: &R,
    alloc: Global,
    parts: &[ParallelPart],
    cut: &Cut,
    gate: &G,
) -> Result<Feeds, Memory>
    requires { AllByRecursion IsSplit (map part_tree parts.now) }
    ensures { IfOk result (λ feeds. feeds.items
        ≡ lists_split (λ c. documents_of c cut.now) (map part_tree parts.now)) }
{
    let mut feeds = Feeds::new(alloc);
    for part in parts {
        feeds.push(fed_list(rt, alloc, part, cut, gate)?)?;
    }
    Ok(feeds)
}

// The list that a parallel gives: the merge of its workers' lists by its sort.
fn fed_list<R: Threads + Sync, G: Gate>(
    rt: &R,
    alloc: Global,
    part: &ParallelPart,
    cut: &Cut,
    gate: &G,
) -> Result<Tuples, Memory>
    requires { IsSplit (part_tree part.now) }
    ensures { IfOk result (λ tuples. tuples
        ≡ list_of (λ c. documents_of c cut.now) (tree_of part.now.checked)) }
{
    let lists = worked(rt, alloc, part, cut, gate)?;
    let merged = merge_lists(alloc, lists, &part.sort)?;
    drain(alloc, merged)
}
