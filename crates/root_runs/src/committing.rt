// Commits round what an expression does.
ghost use Rattle.std.specs.Prelude.{◌≡◌, IfOk, Err, Some};
ghost use Rattle.exchange_rules.specs.Calls.{Carried};
ghost use Rattle.exchange_rules.specs.Courses.{ends};
ghost use Rattle.expr_check.specs.Roots.{IsInnerOf};
ghost use Rattle.expr_check.specs.Views.{tree_of};
ghost use Rattle.expr_types.specs.ExprTree.{operator_in};
ghost use Rattle.expr_types.specs.Plain.{IsPlain};
ghost use Rattle.root_runs.specs.Deeds.{deed_of, gives_summaries};
ghost use Rattle.root_runs.specs.Dones.{committed, passed};
ghost use Rattle.root_runs.specs.Runs.{commit_over, inner_by, reads_then, then_commits};
ghost use Rattle.root_runs.specs.Texts.{Told};
ghost use Rattle.root_runs.specs.Stays.{Stays};

use crate::reading::run_plain;
use crate::texts::site_told;
use crate::updating::run_update_of;
use crate::{Docs, Done};
use exchange_rules::SiteFault;
use expr_check::{Checked, CommitRoot, Inner};
use io_edge::Gate;
use std::alloc::Global;
use std::thread::Threads;
use stream_site::Turns;
use tuple_values::{Memory, Tuples};
use update_sink::run_commit;

// Whether what a commit passes on are summaries of what was written.
fn gives_summaries(commit: &CommitRoot<'_>) -> bool
    requires { IsInnerOf (tree_of commit.now.input.now) commit.now.inner }
    ensures { result ≡ gives_summaries (deed_of (operator_in (tree_of commit.now.input.now))) }
{
    match commit.inner {
        Inner::Reads => false,
        Inner::Update(_) => true,
    }
}

// What stands after a commit was refused.
fn refused(alloc: Global, summaries: bool, done: Done, fault: &SiteFault) -> Result<Done, Memory>
    ensures { IfOk result (λ left.
        Told fault.now (left ≡ committed summaries done (Err fault.now))) }
{
    let Done { docs, stand, .. } = done;
    let text = site_told(alloc, stand, fault)?;
    let docs = if summaries {
        docs
    } else {
        Docs::listed(Tuples::empty(alloc))
    };
    Ok(Done {
        docs,
        exception: Some(text),
        read: 0,
        stand,
    })
}

// The commits round what was done, unless it has a fault.
fn commit_round<T: Turns>(
    alloc: Global,
    site: &mut T,
    commit: &CommitRoot<'_>,
    summaries: bool,
    done: Done,
) -> Result<Done, Memory>
    ensures course { Carried (T.writer site.old) (T.writer site.new)
        (then_commits (T.layout site.old) commit.now.dest.now commit.now.batch_size summaries done)
        result }
    ensures stays { Stays T.layout T.home T.free site.old site.new }
{
    if done.exception.is_some() {
        return Ok(done);
    }
    let Done {
        docs,
        exception,
        read,
        stand,
    } = done;
    let docs = docs.gathered(alloc)?;
    let answer = run_commit(
        alloc,
        site,
        commit.dest,
        commit.batch_size,
        &docs,
        summaries,
    );
    let done = Done {
        docs: Docs::listed(docs),
        exception,
        read,
        stand,
    };
    match answer {
        Ok(()) => Ok(done),
        Err(fault) => refused(alloc, summaries, done, &fault),
    }
}

// What a commit passes on of an expression that only reads.
fn pass_plain<T: Turns, R: Threads + Sync, G: Gate>(
    rt: &R,
    alloc: Global,
    site: &mut T,
    input: &Checked,
    gate: &G,
) -> Result<Done, Memory>
    requires { IsPlain (tree_of input.now) }
    ensures course { Carried (T.writer site.old) (T.writer site.new)
        (reads_then (T.layout site.old) (tree_of input.now) (λ docs. ends (passed docs))) result }
    ensures stays { Stays T.layout T.home T.free site.old site.new }
{
    let docs = run_plain(rt, alloc, site, input, gate)?;
    Ok(Done::passed(docs))
}

// What a commit has round it.
fn run_inner<T: Turns, R: Threads + Sync, G: Gate>(
    rt: &R,
    alloc: Global,
    site: &mut T,
    commit: &CommitRoot<'_>,
    gate: &G,
) -> Result<Done, Memory>
    requires { IsInnerOf (tree_of commit.now.input.now) commit.now.inner }
    ensures course { Carried (T.writer site.old) (T.writer site.new)
        (inner_by (T.layout site.old) (tree_of commit.now.input.now)
        (deed_of (operator_in (tree_of commit.now.input.now)))) result }
    ensures stays { Stays T.layout T.home T.free site.old site.new }
{
    match &commit.inner {
        Inner::Reads => pass_plain(rt, alloc, site, commit.input, gate),
        Inner::Update(update) => run_update_of(rt, alloc, site, update, gate),
    }
}

/// The commit that an expression is, round its input.
pub(crate) fn run_commit_of<T: Turns, R: Threads + Sync, G: Gate>(
    rt: &R,
    alloc: Global,
    site: &mut T,
    commit: &CommitRoot<'_>,
    gate: &G,
) -> Result<Done, Memory>
    requires { IsInnerOf (tree_of commit.now.input.now) commit.now.inner }
    ensures course { Carried (T.writer site.old) (T.writer site.new)
        (commit_over (T.layout site.old) commit.now.dest.now commit.now.batch_size
        (Some (tree_of commit.now.input.now))) result }
    ensures stays { Stays T.layout T.home T.free site.old site.new }
{
    let summaries = gives_summaries(commit);
    let done = run_inner(rt, alloc, site, commit, gate)?;
    commit_round(alloc, site, commit, summaries, done)
}
