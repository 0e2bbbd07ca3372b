// All daemons of a board, each run once.
ghost use Rattle.std.specs.Prelude.{◌≡◌, OnOk, OnErr};
ghost use Rattle.daemon_board.specs.Rising.{IsKept};
ghost use Rattle.daemon_board.specs.Tickets.{tickets_of};
ghost use Rattle.daemon_steps.specs.Stepped.{IsCutShort, IsStepped};
ghost use Rattle.root_runs.specs.Stays.{Stays};

use crate::turn::run_next;
use daemon_board::Board;
use io_edge::Gate;
use root_runs::take_record_over;
use std::alloc::Global;
use std::thread::Threads;
use stream_site::Turns;
use tuple_values::Memory;

/// Runs each running daemon of the board once, at the time 0, in the order in which they were put
/// on it. The site's record begins anew, and is empty at the end. Where memory is wanting, the run
/// that was begun is counted with one tuple and no fault, and stands in the record. The writer has
/// no turn afterwards.
pub fn run_daemons<T: Turns, R: Threads + Sync, G: Gate>(
    rt: &R,
    alloc: Global,
    site: &mut T,
    board: &mut Board,
    gate: &G,
) -> Result<(), Memory>
    requires { IsKept board.old.shown }
    ensures ok { OnOk result (IsStepped (T.layout site.old) (T.writer site.old) (T.writer site.new)
        (tickets_of board.old.shown) (tickets_of board.new.shown)) }
    ensures err { OnErr result (IsCutShort (T.layout site.old) (T.writer site.old)
        (T.writer site.new) (tickets_of board.old.shown) (tickets_of board.new.shown)) }
    ensures kept { IsKept board.new.shown }
    ensures answers { board.new.answers ≡ board.old.answers }
    ensures stays { Stays T.layout T.home T.free site.old site.new }
    ensures free { T.free site.new }
{
    let _ = take_record_over(site);
    let mut after = 0;
    loop {
        let Some(number) = run_next(rt, alloc, site, board, after, gate)? else {
            return Ok(());
        };
        after = number;
    }
}
