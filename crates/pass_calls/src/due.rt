// The daemons of a board that are due.
ghost use Rattle.std.specs.Prelude.{◌≡◌};
ghost use Rattle.expr_check.specs.Views.{tree_of};
ghost use Rattle.daemon_steps.specs.Steps.{unknown_run};
ghost use Rattle.running_site.specs.Passes.{number_of, writer_of};
ghost use Rattle.running_site.specs.Sites.{layout_at, IsPassAt};
ghost use Rattle.pass_calls.specs.Due.{IsRunOf, IsTurn};

use crate::running::run_once;
use daemon_board::{Claim, Daemons};
use daemon_steps::Once;
use io_edge::Gate;
use running_site::{Pass, Site};
use server_edge::Clock;
use std::alloc::Global;
use std::sync::Wait;
use std::thread::Threads;

// A run of which nothing is known.
fn unknown_run() -> Once
    ensures { result ≡ unknown_run }
{
    Once {
        read: 1,
        fault: None,
    }
}

// Runs the expression of a claim, where it stands on the site's collections. A run that wants
// memory counts as one of which nothing is known, and so does none.
fn run_claim<R: Threads + Wait + Sync, G: Gate>(
    rt: &R,
    alloc: Global,
    site: &Site,
    pass: &mut Pass,
    claim: &Claim,
    gate: &G,
) -> Once
    requires { IsPassAt site.now pass.old }
    ensures own { IsPassAt site.now pass.new }
    ensures number { number_of pass.new ≡ number_of pass.old }
    ensures now { pass.new.now ≡ pass.old.now }
    ensures run { IsRunOf (layout_at site.now) (writer_of pass.old) (writer_of pass.new)
        (tree_of claim.now.checked) result }
{
    if !claim.checked.stands_on(site.names()) {
        return unknown_run();
    }
    match run_once(rt, alloc, site, pass, &claim.checked, gate) {
        Ok(run) => run,
        Err(_) => unknown_run(),
    }
}

/// Runs the daemon of the board that is due and whose time is least, and gives it back to the board
/// with what it read and its fault; answers whether there was one. A run that wants memory is
/// counted with one tuple and no fault, and so is one of an expression that has no input or doesn't
/// stand on the site's collections. The clock is asked before the claim, and where there is one once
/// more after the run.
pub fn run_due<D: Daemons, R: Threads + Wait + Sync, C: Clock, G: Gate>(
    rt: &R,
    alloc: Global,
    site: &Site,
    pass: &mut Pass,
    board: &mut D,
    clock: &C,
    gate: &G,
) -> bool
    requires { IsPassAt site.now pass.old }
    ensures own { IsPassAt site.now pass.new }
    ensures number { number_of pass.new ≡ number_of pass.old }
    ensures now { pass.new.now ≡ pass.old.now }
    ensures turn { IsTurn (C.tells clock.now) (layout_at site.now) (writer_of pass.old)
        (writer_of pass.new) (D.shown board.old) (D.shown board.new) result }
    ensures answers { D.answers board.new ≡ D.answers board.old }
{
    let Some(claim) = board.claim_due(clock.now_ms()) else {
        return false;
    };
    let Once { read, fault } = run_claim(rt, alloc, site, pass, &claim, gate);
    board.finish(claim, read, fault, clock.now_ms());
    true
}
