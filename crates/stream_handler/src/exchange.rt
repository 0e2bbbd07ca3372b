// What requests did, and the answer to one.
ghost use Rattle.std.specs.Prelude.{◌≡◌, IfOk, IfErr};
ghost use Rattle.stream_handler.specs.Boards.{board_state};
ghost use Rattle.stream_handler.specs.Exchanges.{IsAnswered, IsBroken, IsResponded};
ghost use Rattle.root_runs.specs.Stays.{Stays};

use crate::question::prepare;
use crate::request::request_question;
use crate::{Framing, Reply};
use daemon_board::Daemons;
use form_request::Request;
use io_edge::Gate;
use root_runs::take_record_over;
use server_edge::{Clock, since};
use shard_versions::{CutMarks, OwnMarks};
use std::alloc::Global;
use std::thread::Threads;
use stream_site::Turns;
use tuple_values::{Memory, Sequence};

/// What one request did: its looks and its own steps, each in order, and how many milliseconds it
/// took.
#[derive(Drop)]
pub struct Exchange {
    pub marks: CutMarks,
    pub own: OwnMarks,
    pub millis: u64,
}

/// Exchanges, in their order.
pub type Exchanges = Sequence<Exchange>;

/// A response that is still to be written, and what its request did.
#[derive(Drop)]
pub struct Answered {
    pub reply: Reply,
    pub exchange: Exchange,
}

// Carries out a request, and gives the response to it and how many milliseconds that took. All
// responses that there may be are made before the board is asked, at the time of the beginning.
fn respond<T: Turns, D: Daemons, R: Threads + Sync, C: Clock, G: Gate>(
    rt: &R,
    alloc: Global,
    site: &mut T,
    board: &mut D,
    request: &Request,
    clock: &C,
    gate: &G,
) -> Result<(Reply, u64), Memory>
    ensures responded { IsResponded (C.tells clock.now)
        (T.layout site.old) (T.writer site.old) (T.writer site.new)
        (board_state (D.shown board.old) (D.answers board.old))
        (board_state (D.shown board.new) (D.answers board.new)) request.now result }
    ensures stays { Stays T.layout T.home T.free site.old site.new }
{
    let now = clock.now_ms();
    let question = request_question(rt, alloc, site, request, gate)?;
    let prepared = prepare(alloc, board, question)?;
    let millis = since(clock, now);
    let replies = prepared.replies(alloc, Framing::of(request), millis)?;
    let reply = replies.ask(alloc, board, now)?;
    Ok((reply, millis))
}

/// Carries out a request, which is dropped. The site's record begins anew, and is the exchange's at
/// the end. Where memory was wanting, what was done so far stands in the record, and the board is
/// as it was. The clock is asked at the beginning, and the board is told that time; it is asked
/// once more before the reply is made, which tells how long it took.
pub fn answer<T: Turns, D: Daemons, R: Threads + Sync, C: Clock, G: Gate>(
    rt: &R,
    alloc: Global,
    site: &mut T,
    board: &mut D,
    request: Request,
    clock: &C,
    gate: &G,
) -> Result<Answered, Memory>
    ensures ok { IfOk result (IsAnswered (C.tells clock.now) (T.layout site.old) (T.writer site.old)
        (T.writer site.new) (board_state (D.shown board.old) (D.answers board.old))
        (board_state (D.shown board.new) (D.answers board.new)) request) }
    ensures err { IfErr result (λ _. IsBroken (T.layout site.old) (T.writer site.old)
        (T.writer site.new) (board_state (D.shown board.old) (D.answers board.old))
        (board_state (D.shown board.new) (D.answers board.new)) request) }
    ensures stays { Stays T.layout T.home T.free site.old site.new }
    ensures free { T.free site.new }
{
    let _ = take_record_over(site);
    let (reply, millis) = respond(rt, alloc, site, board, &request, clock, gate)?;
    let record = take_record_over(site);
    let exchange = Exchange {
        marks: record.marks,
        own: record.own,
        millis,
    };
    Ok(Answered { reply, exchange })
}
