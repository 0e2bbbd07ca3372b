// The serving of a connection, a message at a time.
ghost use Rattle.std.specs.Prelude.{◌≡◌};
ghost use Rattle.stream_handler.specs.Boards.{board_state};
ghost use Rattle.stream_handler.specs.Sessions.{IsOneEnd, wire};
ghost use Rattle.stream_handler.specs.Serving.{IsReplied, sunk};
ghost use Rattle.root_runs.specs.Stays.{Stays};

use crate::reply::write_reply;
use crate::waiting::next_request;
use crate::{Answered, End, OneEnd, answer};
use daemon_board::Daemons;
use form_request::{Request, Requests};
use io_edge::{Gate, Sink, Source};
use root_runs::take_record_over;
use server_edge::Clock;
use std::alloc::Global;
use std::thread::Threads;
use stream_site::Turns;

// Carries out a request and writes its reply.
fn reply_to<T: Turns, D: Daemons, R: Threads + Sync, K: Sink, C: Clock, G: Gate>(
    rt: &R,
    alloc: Global,
    site: &mut T,
    board: &mut D,
    request: Request,
    sink: &mut K,
    clock: &C,
    gate: &G,
) -> OneEnd
    ensures replied { IsReplied (C.tells clock.now)
        (T.layout site.old) (T.writer site.old) (T.writer site.new)
        (board_state (D.shown board.old) (D.answers board.old))
        (board_state (D.shown board.new) (D.answers board.new)) request
        (sunk (K.written sink.old) (K.written sink.new) (K.faults sink.old) (K.faults sink.new))
        result }
    ensures stays { Stays T.layout T.home T.free site.old site.new }
    ensures free { T.free site.new }
{
    let closes = request.closes;
    let Ok(answered) = answer(rt, alloc, site, board, request, clock, gate) else {
        return OneEnd::Over {
            end: End::OutOfMemory,
            unfinished: None,
        };
    };
    let Answered { reply, exchange } = answered;
    match write_reply(alloc, reply, sink) {
        None if closes => OneEnd::Last(exchange),
        None => OneEnd::Served(exchange),
        Some(end) => OneEnd::Over {
            end,
            unfinished: Some(exchange),
        },
    }
}

/// Serves the next request of a connection. The site's record begins anew. What is held of the
/// stream and what is taken from the source is read as one.
pub fn serve_one<T: Turns, D: Daemons, R: Threads + Sync, S: Source, K: Sink, C: Clock, G: Gate>(
    rt: &R,
    alloc: Global,
    site: &mut T,
    board: &mut D,
    requests: &mut Requests,
    source: &mut S,
    sink: &mut K,
    clock: &C,
    gate: &G,
) -> OneEnd
    ensures served { IsOneEnd (C.tells clock.now) (T.layout site.old)
        (wire requests.old (S.left source.old) (S.faults source.old) (K.written sink.old)
        (K.faults sink.old) (board_state (D.shown board.old) (D.answers board.old)))
        (wire requests.new (S.left source.new) (S.faults source.new) (K.written sink.new)
        (K.faults sink.new) (board_state (D.shown board.new) (D.answers board.new)))
        (T.writer site.old) (T.writer site.new) result }
    ensures stays { Stays T.layout T.home T.free site.old site.new }
    ensures free { T.free site.new }
{
    let _ = take_record_over(site);
    match next_request(alloc, site.names(), requests, source, sink) {
        Ok(request) => reply_to(rt, alloc, site, board, request, sink, clock, gate),
        Err(end) => OneEnd::Over {
            end,
            unfinished: None,
        },
    }
}
