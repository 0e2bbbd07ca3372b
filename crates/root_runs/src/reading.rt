// The tuples of expressions that only read.
ghost use Rattle.std.specs.Prelude.{◌≡◌, IfOk};
ghost use Rattle.expr_check.specs.Views.{tree_of};
ghost use Rattle.expr_types.specs.Plain.{IsPlain};
ghost use Rattle.exchange_rules.specs.Calls.{Carried};
ghost use Rattle.root_runs.specs.Lists.{list_over};
ghost use Rattle.root_runs.specs.Runs.{list_course};
ghost use Rattle.root_runs.specs.Stays.{Stays};

use crate::Docs;
use expr_check::Checked;
use io_edge::Gate;
use parallel_parts::open_eval;
use shard_versions::Cut;
use std::alloc::Global;
use std::thread::Threads;
use stream_site::{Turns, take_cut_over};
use tuple_values::{Memory, Tuples};

// The tuples that an expression gives over a cut of its collections.
fn evaluate<R: Threads + Sync, G: Gate>(
    rt: &R,
    alloc: Global,
    checked: &Checked,
    cut: &Cut,
    gate: &G,
) -> Result<Docs, Memory>
    requires { IsPlain (tree_of checked.now) }
    ensures { IfOk result (λ docs. docs ≡ list_over (tree_of checked.now) cut.now) }
{
    let stream = open_eval(rt, alloc, checked, cut, gate)?;
    Ok(Docs::streamed(stream))
}

/// The tuples that an expression which only reads gives at the site, over a cut of its collections,
/// one after another. The writer has no turn afterwards.
pub fn open_plain<T: Turns, R: Threads + Sync, G: Gate>(
    rt: &R,
    alloc: Global,
    site: &mut T,
    checked: &Checked,
    gate: &G,
) -> Result<Docs, Memory>
    requires { IsPlain (tree_of checked.now) }
    ensures course { Carried (T.writer site.old) (T.writer site.new)
        (list_course (T.layout site.old) (tree_of checked.now)) result }
    ensures stays { Stays T.layout T.home T.free site.old site.new }
    ensures free { T.free site.new }
{
    match take_cut_over(alloc, site, checked.collections()) {
        Ok(cut) => evaluate(rt, alloc, checked, &cut, gate),
        Err(_) => Err(Memory::OutOfMemory),
    }
}

/// The same tuples, as a list.
pub fn run_plain<T: Turns, R: Threads + Sync, G: Gate>(
    rt: &R,
    alloc: Global,
    site: &mut T,
    checked: &Checked,
    gate: &G,
) -> Result<Tuples, Memory>
    requires { IsPlain (tree_of checked.now) }
    ensures course { Carried (T.writer site.old) (T.writer site.new)
        (list_course (T.layout site.old) (tree_of checked.now)) result }
    ensures stays { Stays T.layout T.home T.free site.old site.new }
    ensures free { T.free site.new }
{
    let docs = open_plain(rt, alloc, site, checked, gate)?;
    docs.gathered(alloc)
}
