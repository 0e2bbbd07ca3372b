// The answers to requests.
ghost use Rattle.std.specs.Prelude.{◌≡◌, IfErr, IfOk};
ghost use Rattle.stream_handler.specs.Boards.{board_state};
ghost use Rattle.stream_handler.specs.Exchanges.{IsAnswered, IsBroken};
ghost use Rattle.running_site.specs.Passes.{number_of, writer_of};
ghost use Rattle.running_site.specs.Sites.{layout_at, IsPassAt};

use daemon_board::Daemons;
use form_request::Request;
use io_edge::Gate;
use running_site::{Pass, Site};
use server_edge::Clock;
use std::alloc::Global;
use std::sync::Wait;
use std::thread::Threads;
use stream_handler::Answered;
use tuple_values::Memory;

/// Carries out a request, which is dropped. The pass's record begins anew, and is the exchange's at
/// the end. Where memory was wanting, what was done so far stands in the record, and the board is
/// as it was. The clock is asked as `answer` of `stream_handler` says.
pub fn answer<D: Daemons, R: Threads + Wait + Sync, C: Clock, G: Gate>(
    rt: &R,
    alloc: Global,
    site: &Site,
    pass: &mut Pass,
    board: &mut D,
    request: Request,
    clock: &C,
    gate: &G,
) -> Result<Answered, Memory>
    requires { IsPassAt site.now pass.old }
    ensures own { IsPassAt site.now pass.new }
    ensures number { number_of pass.new ≡ number_of pass.old }
    ensures now { pass.new.now ≡ pass.old.now }
    ensures ok { IfOk result (IsAnswered (C.tells clock.now) (layout_at site.now)
        (writer_of pass.old) (writer_of pass.new)
        (board_state (D.shown board.old) (D.answers board.old))
        (board_state (D.shown board.new) (D.answers board.new)) request) }
    ensures err { IfErr result (λ _. IsBroken (layout_at site.now)
        (writer_of pass.old) (writer_of pass.new)
        (board_state (D.shown board.old) (D.answers board.old))
        (board_state (D.shown board.new) (D.answers board.new)) request) }
{
    let mut visit = site.visit(rt, pass);
    let result = stream_handler::answer(rt, alloc, &mut visit, board, request, clock, gate);
    visit.end(pass);
    result
}
