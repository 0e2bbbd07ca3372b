// Updates of what an expression gives.
ghost use Rattle.std.specs.Prelude.{◌≡◌, ◌<◌, IfOk, Some, length, option_map};
ghost use Rattle.exchange_rules.specs.Calls.{Carried};
ghost use Rattle.expr_check.specs.Roots.{IsFeedOf};
ghost use Rattle.expr_check.specs.Views.{tree_of};
ghost use Rattle.expr_types.specs.ExprTree.{operator_in};
ghost use Rattle.expr_types.specs.Plain.{IsPlain};
ghost use Rattle.root_runs.specs.Deeds.{deed_of};
ghost use Rattle.root_runs.specs.Dones.{ran_over, read_by};
ghost use Rattle.root_runs.specs.Runs.{put_course, reads_then, update_by, update_over};
ghost use Rattle.root_runs.specs.Texts.{run_told};
ghost use Rattle.topic_book.specs.Fitness.{shards_of};
ghost use Rattle.root_runs.specs.Stays.{Stays};

use crate::following::run_delivery;
use crate::reading::run_plain;
use crate::texts::run_told;
use crate::there::is_there;
use crate::{Docs, Done};
use exchange_rules::{Ran, RunFault};
use expr_check::{Feed, UpdateRoot};
use io_edge::Gate;
use std::alloc::Global;
use std::thread::Threads;
use stream_site::Turns;
use tuple_values::{Memory, Text, Tuples};
use update_sink::{Delivery, run_update};

// How many tuples an update read, where it has no fault.
fn read_by(tuples: u64, fault: Option<&RunFault>) -> u64
    ensures { result ≡ read_by tuples (option_map (λ f. f.now) fault.entry) }
{
    match fault {
        Some(_) => 0,
        None => tuples,
    }
}

// What is told of the fault of an update, where it has one.
fn fault_told(alloc: Global, stand: u64, fault: Option<&RunFault>) -> Result<Option<Text>, Memory>
    ensures { IfOk result (λ text.
        text ≡ option_map (run_told stand) (option_map (λ f. f.now) fault.entry)) }
{
    match fault {
        Some(fault) => Ok(Some(run_told(alloc, stand, fault)?)),
        None => Ok(None),
    }
}

// An update of so many tuples that ran so.
fn ran_over(alloc: Global, tuples: u64, ran: Ran) -> Result<Done, Memory>
    ensures { IfOk result (λ done. done ≡ ran_over tuples ran) }
{
    let exception = fault_told(alloc, ran.stand, ran.fault.as_ref())?;
    let read = read_by(tuples, ran.fault.as_ref());
    Ok(Done {
        docs: Docs::listed(ran.summaries),
        exception,
        read,
        stand: ran.stand,
    })
}

// An update of these tuples.
fn put_docs<T: Turns>(
    alloc: Global,
    site: &mut T,
    update: &UpdateRoot<'_>,
    docs: Tuples,
) -> Result<Done, Memory>
    requires known { 0 < shards_of (T.layout site.old).names update.now.dest.now }
    requires size { 0 < update.now.batch_size }
    ensures course { Carried (T.writer site.old) (T.writer site.new)
        (put_course (T.layout site.old) update.now.dest.now update.now.batch_size docs) result }
    ensures stays { Stays T.layout T.home T.free site.old site.new }
{
    let tuples = docs.count() as u64;
    let ran = run_update(alloc, site, update.dest, update.batch_size, docs)?;
    ran_over(alloc, tuples, ran)
}

// An update of what an expression gives that only reads.
fn put_plain<T: Turns, R: Threads + Sync, G: Gate>(
    rt: &R,
    alloc: Global,
    site: &mut T,
    update: &UpdateRoot<'_>,
    gate: &G,
) -> Result<Done, Memory>
    requires known { 0 < shards_of (T.layout site.old).names update.now.dest.now }
    requires size { 0 < update.now.batch_size }
    requires plain { IsPlain (tree_of update.now.input.now) }
    ensures course { Carried (T.writer site.old) (T.writer site.new)
        (reads_then (T.layout site.old) (tree_of update.now.input.now)
        (put_course (T.layout site.old) update.now.dest.now update.now.batch_size)) result }
    ensures stays { Stays T.layout T.home T.free site.old site.new }
{
    let docs = run_plain(rt, alloc, site, update.input, gate)?;
    put_docs(alloc, site, update, docs)
}

// An update of what its input gives, to a collection that is there.
fn update_input<T: Turns, R: Threads + Sync, G: Gate>(
    rt: &R,
    alloc: Global,
    site: &mut T,
    update: &UpdateRoot<'_>,
    gate: &G,
) -> Result<Done, Memory>
    requires filled { 0 < update.now.batch_size }
    requires fed { IsFeedOf update.now.dest.now (tree_of update.now.input.now) update.now.feed }
    requires known { 0 < shards_of (T.layout site.old).names update.now.dest.now }
    ensures course { Carried (T.writer site.old) (T.writer site.new)
        (update_by (T.layout site.old) update.now.dest.now update.now.batch_size
        (tree_of update.now.input.now) (deed_of (operator_in (tree_of update.now.input.now))))
        result }
    ensures stays { Stays T.layout T.home T.free site.old site.new }
{
    match update.feed {
        Feed::Reads => put_plain(rt, alloc, site, update, gate),
        Feed::Topic(topic) => {
            let delivery = Delivery {
                topic,
                input: update.input,
                dest: update.dest,
                batch_size: update.batch_size,
            };
            run_delivery(alloc, site, &delivery, gate)
        }
    }
}

/// An update, as an expression is one.
pub(crate) fn run_update_of<T: Turns, R: Threads + Sync, G: Gate>(
    rt: &R,
    alloc: Global,
    site: &mut T,
    update: &UpdateRoot<'_>,
    gate: &G,
) -> Result<Done, Memory>
    requires filled { 0 < update.now.batch_size }
    requires fed { IsFeedOf update.now.dest.now (tree_of update.now.input.now) update.now.feed }
    ensures course { Carried (T.writer site.old) (T.writer site.new)
        (update_over (T.layout site.old) update.now.dest.now update.now.batch_size
        (Some (tree_of update.now.input.now))) result }
    ensures stays { Stays T.layout T.home T.free site.old site.new }
{
    if !is_there(site, update.dest) {
        return Done::unknown(alloc, update.dest);
    }
    update_input(rt, alloc, site, update, gate)
}
