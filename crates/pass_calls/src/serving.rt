// The serving of connections.
ghost use Rattle.std.specs.Prelude.{◌≡◌};
ghost use Rattle.form_request.specs.Streams.{begun};
ghost use Rattle.stream_handler.specs.Boards.{board_state};
ghost use Rattle.stream_handler.specs.Sessions.{wire, IsConnection, IsOneEnd, RecordsSteps};
ghost use Rattle.running_site.specs.Passes.{number_of, writer_of};
ghost use Rattle.running_site.specs.Sites.{layout_at, IsPassAt};

use daemon_board::Daemons;
use form_request::Requests;
use io_edge::{Gate, Sink, Source};
use running_site::{Pass, Site};
use server_edge::Clock;
use std::alloc::Global;
use std::sync::Wait;
use std::thread::Threads;
use stream_handler::{OneEnd, SessionEnd};

/// Serves the next request of a connection. The pass's record begins anew. What is held of the
/// stream and what is taken from the source is read as one.
pub fn serve_one<D: Daemons, R: Threads + Wait + Sync, S: Source, K: Sink, C: Clock, G: Gate>(
    rt: &R,
    alloc: Global,
    site: &Site,
    pass: &mut Pass,
    board: &mut D,
    requests: &mut Requests,
    source: &mut S,
    sink: &mut K,
    clock: &C,
    gate: &G,
) -> OneEnd
    requires { IsPassAt site.now pass.old }
    ensures own { IsPassAt site.now pass.new }
    ensures number { number_of pass.new ≡ number_of pass.old }
    ensures now { pass.new.now ≡ pass.old.now }
    ensures served { IsOneEnd (C.tells clock.now) (layout_at site.now)
        (wire requests.old (S.left source.old) (S.faults source.old) (K.written sink.old)
        (K.faults sink.old) (board_state (D.shown board.old) (D.answers board.old)))
        (wire requests.new (S.left source.new) (S.faults source.new) (K.written sink.new)
        (K.faults sink.new) (board_state (D.shown board.new) (D.answers board.new)))
        (writer_of pass.old) (writer_of pass.new) result }
{
    let mut visit = site.visit(rt, pass);
    let result = stream_handler::serve_one(
        rt, alloc, &mut visit, board, requests, source, sink, clock, gate,
    );
    visit.end(pass);
    result
}

/// Serves a connection to its end. At most 10,000 requests are answered.
pub fn serve_connection<
    D: Daemons,
    R: Threads + Wait + Sync,
    S: Source,
    K: Sink,
    C: Clock,
    G: Gate,
>(
    rt: &R,
    alloc: Global,
    site: &Site,
    pass: &mut Pass,
    board: &mut D,
    source: &mut S,
    sink: &mut K,
    clock: &C,
    gate: &G,
) -> SessionEnd
    requires { IsPassAt site.now pass.old }
    ensures own { IsPassAt site.now pass.new }
    ensures number { number_of pass.new ≡ number_of pass.old }
    ensures now { pass.new.now ≡ pass.old.now }
    ensures session { IsConnection (C.tells clock.now) (layout_at site.now)
        (wire begun (S.left source.old) (S.faults source.old) (K.written sink.old)
        (K.faults sink.old) (board_state (D.shown board.old) (D.answers board.old)))
        (S.left source.new) (S.faults source.new) (K.written sink.new) (K.faults sink.new)
        (board_state (D.shown board.new) (D.answers board.new))
        (writer_of pass.old) (writer_of pass.new) result }
    ensures recorded { RecordsSteps (writer_of pass.old) (writer_of pass.new) result }
{
    let mut visit = site.visit(rt, pass);
    let result = stream_handler::serve_connection(
        rt, alloc, &mut visit, board, source, sink, clock, gate,
    );
    visit.end(pass);
    result
}
