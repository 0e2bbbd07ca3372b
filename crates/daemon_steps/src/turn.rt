// The turn of one daemon of a board.
ghost use Rattle.std.specs.Prelude.{◌≡◌, IfOk, OnErr};
ghost use Rattle.daemon_board.specs.Rising.{IsResting};
ghost use Rattle.daemon_steps.specs.Runs.{HasTurn, IsTurnCut};
ghost use Rattle.root_runs.specs.Stays.{Stays};

use crate::once::{Once, run_once};
use daemon_board::{Board, Daemons};
use io_edge::Gate;
use std::alloc::Global;
use std::thread::Threads;
use stream_site::Turns;
use tuple_values::Memory;

/// Runs the first running daemon that was put on the board after the one with a number, and answers
/// its number. After an `Err` its run is counted with one tuple and no fault.
pub(crate) fn run_next<T: Turns, R: Threads + Sync, G: Gate>(
    rt: &R,
    alloc: Global,
    site: &mut T,
    board: &mut Board,
    after: u64,
    gate: &G,
) -> Result<Option<u64>, Memory>
    requires { IsResting board.old.shown }
    ensures ok { IfOk result (HasTurn (T.layout site.old) (T.writer site.old) (T.writer site.new)
        board.old.shown board.new.shown after) }
    ensures err { OnErr result (IsTurnCut (T.layout site.old) (T.writer site.old)
        (T.writer site.new) board.old.shown board.new.shown after) }
    ensures answers { board.new.answers ≡ board.old.answers }
    ensures stays { Stays T.layout T.home T.free site.old site.new }
{
    let Some(claim) = board.claim_next(after) else {
        return Ok(None);
    };
    let number = claim.number;
    match run_once(rt, alloc, site, &claim.checked, gate) {
        Ok(Once { read, fault }) => {
            board.finish(claim, read, fault, 0);
            Ok(Some(number))
        }
        Err(memory) => {
            board.finish(claim, 1, None, 0);
            Err(memory)
        }
    }
}
