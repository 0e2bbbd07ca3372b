// The runs of expressions.
ghost use Rattle.std.specs.Prelude.{◌≡◌, IfErr, IfOk};
ghost use Rattle.daemon_steps.specs.Runs.{IsFollowed};
ghost use Rattle.daemon_steps.specs.Steps.{once_course};
ghost use Rattle.exchange_rules.specs.Following.{Begins, cleared};
ghost use Rattle.expr_check.specs.Parts.{input_of};
ghost use Rattle.expr_check.specs.Views.{tree_of};
ghost use Rattle.root_runs.specs.Rooted.{IsRun};
ghost use Rattle.root_runs.specs.Runs.{root_course};
ghost use Rattle.running_site.specs.Passes.{number_of, writer_of};
ghost use Rattle.running_site.specs.Sites.{layout_at, IsPassAt};

use daemon_steps::Once;
use expr_check::Checked;
use io_edge::Gate;
use root_runs::RootRun;
use running_site::{Pass, Site};
use std::alloc::Global;
use std::sync::Wait;
use std::thread::Threads;
use tuple_values::Memory;

/// Carries out an expression at the site, at this time. The pass's record begins anew, and is the
/// run's at the end. Where memory is wanting, what was done so far stands in the record.
pub fn run_root<R: Threads + Wait + Sync, G: Gate>(
    rt: &R,
    alloc: Global,
    site: &Site,
    pass: &mut Pass,
    checked: &Checked,
    now: u64,
    gate: &G,
) -> Result<RootRun, Memory>
    requires { IsPassAt site.now pass.old }
    ensures own { IsPassAt site.now pass.new }
    ensures number { number_of pass.new ≡ number_of pass.old }
    ensures now { pass.new.now ≡ now }
    ensures ok { IfOk result (IsRun (layout_at site.now) (writer_of pass.old) (writer_of pass.new)
        (tree_of checked.now)) }
    ensures err { IfErr result (λ _. Begins (cleared (writer_of pass.old)) (writer_of pass.new)
        (root_course (layout_at site.now) (tree_of checked.now))) }
{
    pass.set_now(now);
    let mut visit = site.visit(rt, pass);
    let result = root_runs::run_root(rt, alloc, &mut visit, checked, gate);
    visit.end(pass);
    result
}

/// Runs the input of a daemon's expression once, as `run_once` of `daemon_steps`: the pass's record
/// begins anew, and is empty at the end. Where memory is wanting, what was done so far stands in it.
pub fn run_once<R: Threads + Wait + Sync, G: Gate>(
    rt: &R,
    alloc: Global,
    site: &Site,
    pass: &mut Pass,
    checked: &Checked,
    gate: &G,
) -> Result<Once, Memory>
    requires { IsPassAt site.now pass.old }
    ensures own { IsPassAt site.now pass.new }
    ensures number { number_of pass.new ≡ number_of pass.old }
    ensures now { pass.new.now ≡ pass.old.now }
    ensures ok { IfOk result (IsFollowed (writer_of pass.old) (writer_of pass.new)
        (once_course (layout_at site.now) (input_of (tree_of checked.now)))) }
    ensures err { IfErr result (λ _. Begins (cleared (writer_of pass.old)) (writer_of pass.new)
        (once_course (layout_at site.now) (input_of (tree_of checked.now)))) }
{
    let mut visit = site.visit(rt, pass);
    let result = daemon_steps::run_once(rt, alloc, &mut visit, checked, gate);
    visit.end(pass);
    result
}
