// The serving of a whole connection.
ghost use Rattle.std.specs.Prelude.{◌≡◌, ◌<◌, ◌++◌, vec_capacity, vec_len};
ghost use Rattle.form_request.specs.Streams.{begun};
ghost use Rattle.stream_handler.specs.Boards.{board_state};
ghost use Rattle.stream_handler.specs.Sessions.{IsBounded, IsConnection, RecordsSteps, nothing, record_of, wire};
ghost use Rattle.stream_handler.specs.Serving.{end_of, exchanges_in};
ghost use Rattle.root_runs.specs.Stays.{Stays};

use crate::{End, Exchange, Exchanges, OneEnd, SessionEnd, serve_one};
use daemon_board::Daemons;
use form_request::Requests;
use io_edge::{Gate, Sink, Source};
use root_runs::take_record_over;
use server_edge::Clock;
use std::alloc::Global;
use std::thread::Threads;
use stream_site::Turns;

/// How many requests of a connection are answered at most.
const MOST: u64 = 10_000;

// Keeps the exchange of a message that was served, and says whether the connection is over.
fn keep(exchanges: &mut Vec<Exchange>, one: OneEnd) -> Option<End>
    requires { vec_len exchanges.old < vec_capacity exchanges.old }
    ensures items { exchanges.new.items ≡ exchanges.old.items ++ exchanges_in one }
    ensures end { result ≡ end_of one }
{
    match one {
        OneEnd::Served(exchange) => {
            exchanges.push_reserved(exchange);
            None
        }
        OneEnd::Last(exchange) => {
            exchanges.push_reserved(exchange);
            Some(End::Closed)
        }
        OneEnd::Over { end, unfinished } => {
            if let Some(exchange) = unfinished {
                exchanges.push_reserved(exchange);
            }
            Some(end)
        }
    }
}

// Serves the requests of a connection until it is over, or as many as it has at most.
fn serve_all<T: Turns, D: Daemons, R: Threads + Sync, S: Source, K: Sink, C: Clock, G: Gate>(
    rt: &R,
    alloc: Global,
    site: &mut T,
    board: &mut D,
    requests: &mut Requests,
    source: &mut S,
    sink: &mut K,
    clock: &C,
    gate: &G,
) -> (Vec<Exchange>, End)
    requires { record_of (T.writer site.old) ≡ nothing }
    ensures served { IsBounded (C.tells clock.now) (T.layout site.old)
        (wire requests.old (S.left source.old) (S.faults source.old) (K.written sink.old)
        (K.faults sink.old) (board_state (D.shown board.old) (D.answers board.old)))
        (wire requests.new (S.left source.new) (S.faults source.new) (K.written sink.new)
        (K.faults sink.new) (board_state (D.shown board.new) (D.answers board.new)))
        (T.writer site.old) (T.writer site.new) result.0.items
        (record_of (T.writer site.new)) result.1 }
    ensures stays { Stays T.layout T.home T.free site.old site.new }
{
    let mut exchanges = Vec::new(alloc);
    for _ in 0..MOST {
        if exchanges.reserve(1).is_err() {
            return (exchanges, End::OutOfMemory);
        }
        let one = serve_one(rt, alloc, site, board, requests, source, sink, clock, gate);
        if let Some(end) = keep(&mut exchanges, one) {
            return (exchanges, end);
        }
    }
    (exchanges, End::Closed)
}

/// Serves a connection to its end. At most 10,000 requests are answered.
pub fn serve_connection<
    T: Turns,
    D: Daemons,
    R: Threads + Sync,
    S: Source,
    K: Sink,
    C: Clock,
    G: Gate,
>(
    rt: &R,
    alloc: Global,
    site: &mut T,
    board: &mut D,
    source: &mut S,
    sink: &mut K,
    clock: &C,
    gate: &G,
) -> SessionEnd
    ensures session { IsConnection (C.tells clock.now) (T.layout site.old)
        (wire begun (S.left source.old) (S.faults source.old) (K.written sink.old)
        (K.faults sink.old) (board_state (D.shown board.old) (D.answers board.old)))
        (S.left source.new) (S.faults source.new) (K.written sink.new) (K.faults sink.new)
        (board_state (D.shown board.new) (D.answers board.new))
        (T.writer site.old) (T.writer site.new) result }
    ensures recorded { RecordsSteps (T.writer site.old) (T.writer site.new) result }
    ensures stays { Stays T.layout T.home T.free site.old site.new }
    ensures free { T.free site.new }
{
    let _ = take_record_over(site);
    let mut requests = Requests::begin(alloc);
    let (exchanges, end) = serve_all(
        rt,
        alloc,
        site,
        board,
        &mut requests,
        source,
        sink,
        clock,
        gate,
    );
    SessionEnd {
        exchanges: Exchanges::from_vec(exchanges),
        end,
        rest: take_record_over(site),
    }
}
