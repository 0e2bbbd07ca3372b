// Expressions, carried out at a site.
ghost use Rattle.std.specs.Prelude.{◌≡◌, IfOk, IfErr};
ghost use Rattle.exchange_rules.specs.Calls.{Carried};
ghost use Rattle.exchange_rules.specs.Courses.{ends};
ghost use Rattle.exchange_rules.specs.Following.{Begins, cleared};
ghost use Rattle.expr_check.specs.Views.{tree_of};
ghost use Rattle.expr_types.specs.Plain.{IsPlain};
ghost use Rattle.root_runs.specs.Dones.{given};
ghost use Rattle.root_runs.specs.Rooted.{IsRun};
ghost use Rattle.root_runs.specs.Runs.{reads_then, root_course};
ghost use Rattle.root_runs.specs.Stays.{Stays};

use crate::Done;
use crate::committing::run_commit_of;
use crate::following::run_follow;
use crate::reading::open_plain;
use crate::record::take_record_over;
use crate::updating::run_update_of;
use expr_check::{Checked, Root};
use io_edge::Gate;
use shard_versions::{CutMarks, OwnMarks};
use std::alloc::Global;
use std::thread::Threads;
use stream_site::Turns;
use tuple_values::{Memory, Text, Tuples};

// What an expression gives that only reads.
fn give_plain<T: Turns, R: Threads + Sync, G: Gate>(
    rt: &R,
    alloc: Global,
    site: &mut T,
    checked: &Checked,
    gate: &G,
) -> Result<Done, Memory>
    requires { IsPlain (tree_of checked.now) }
    ensures course { Carried (T.writer site.old) (T.writer site.new)
        (reads_then (T.layout site.old) (tree_of checked.now) (λ docs. ends (given docs))) result }
    ensures stays { Stays T.layout T.home T.free site.old site.new }
{
    let docs = open_plain(rt, alloc, site, checked, gate)?;
    Ok(Done::given(docs))
}

/// What an expression does at the site. A daemon stands on a board and isn't carried out itself. After
/// an `Err` a beginning of it was done.
pub fn run_deed<T: Turns, R: Threads + Sync, G: Gate>(
    rt: &R,
    alloc: Global,
    site: &mut T,
    checked: &Checked,
    gate: &G,
) -> Result<Done, Memory>
    ensures course { Carried (T.writer site.old) (T.writer site.new)
        (root_course (T.layout site.old) (tree_of checked.now)) result }
    ensures stays { Stays T.layout T.home T.free site.old site.new }
{
    match checked.root() {
        Root::Reads => give_plain(rt, alloc, site, checked, gate),
        Root::Topic(topic) => run_follow(alloc, site, &topic, checked),
        Root::Update(update) => run_update_of(rt, alloc, site, &update, gate),
        Root::Commit(commit) => run_commit_of(rt, alloc, site, &commit, gate),
        Root::Daemon(_) => Done::misplaced(alloc, checked.expr()),
    }
}

/// What an expression did, and its looks and own steps, each in order. `read` is how many tuples it
/// read to write or to pass them on; 0 with an exception, and for other roots than update and
/// commit.
#[derive(Drop)]
pub struct RootRun {
    pub docs: Tuples,
    pub exception: Option<Text>,
    pub read: u64,
    pub marks: CutMarks,
    pub own: OwnMarks,
}

/// Carries out an expression at the site. The site's record begins anew, and is the run's at the end.
/// Where memory is wanting, what was done so far stands in the record. The writer has no turn
/// afterwards.
pub fn run_root<T: Turns, R: Threads + Sync, G: Gate>(
    rt: &R,
    alloc: Global,
    site: &mut T,
    checked: &Checked,
    gate: &G,
) -> Result<RootRun, Memory>
    ensures ok { IfOk result (IsRun (T.layout site.old) (T.writer site.old) (T.writer site.new)
        (tree_of checked.now)) }
    ensures err { IfErr result (λ _. Begins (cleared (T.writer site.old)) (T.writer site.new)
        (root_course (T.layout site.old) (tree_of checked.now))) }
    ensures stays { Stays T.layout T.home T.free site.old site.new }
    ensures free { T.free site.new }
{
    let _ = take_record_over(site);
    let done = run_deed(rt, alloc, site, checked, gate)?;
    let Done {
        docs,
        exception,
        read,
        ..
    } = done;
    let docs = docs.gathered(alloc)?;
    let record = take_record_over(site);
    Ok(RootRun {
        docs,
        exception,
        read,
        marks: record.marks,
        own: record.own,
    })
}
