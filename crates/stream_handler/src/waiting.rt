// What is done until the next request of a connection is whole.
ghost use Rattle.std.specs.Prelude.{◌≡◌, Bool, Some};
ghost use Rattle.stream_handler.specs.Boards.{BoardState};
ghost use Rattle.stream_handler.specs.Sessions.{Wire, wire};
ghost use Rattle.stream_handler.specs.Waiting.{Continues, IsWaiting, Reads, ReadsCount, Refuses, TurnsTo, WaitsFor, WritesCount, turn_of};

use crate::End;
use crate::refusal::refusal_reply;
use form_request::{Request, Requests, Step100};
use io_edge::{Put, Sink, Source, Taken};
use std::alloc::Global;
use tuple_values::Names;

/// Where one answer of a stream of requests leads.
#[derive(Drop)]
pub(crate) enum Turn {
    /// A request is whole.
    Whole(Request),
    /// None will be.
    Over(End),
    /// More is to be read.
    Onward,
}

// Takes the next bytes of the source. What comes behind the last of them ends it.
fn read_more<S: Source>(requests: &mut Requests, source: &mut S) -> Option<End>
    ensures reads { Reads requests.old requests.new (S.left source.old) (S.left source.new) result }
    ensures counts { ReadsCount (S.faults source.old) (S.faults source.new) result }
{
    let mut room = [0; 4096];
    match source.take(&mut room) {
        Taken::Got(n) => match requests.feed(&room[..n]) {
            Ok(()) => None,
            Err(_) => Some(End::OutOfMemory),
        },
        Taken::Ended => match requests.held() {
            0 => Some(End::Ended),
            held => Some(End::Cut { held }),
        },
        Taken::Failed => Some(End::ReadFault),
    }
}

// Writes the response to a message that is refused.
fn refuse<K: Sink>(alloc: Global, status: u16, sink: &mut K) -> End
    ensures writes { Refuses status (K.written sink.old) (K.written sink.new) result }
    ensures counts { WritesCount (K.faults sink.old) (K.faults sink.new) (Some result) }
{
    let Ok(reply) = refusal_reply(alloc, status) else {
        return End::OutOfMemory;
    };
    match sink.put(reply.as_slice()) {
        Put::All => End::Refused { status },
        Put::Failed => End::WriteFault,
    }
}

// Says that the body of a message may come (RFC 9110, section 10.1.1).
fn say_continue<K: Sink>(sink: &mut K) -> Option<End>
    ensures writes { Continues (K.written sink.old) (K.written sink.new) result }
    ensures counts { WritesCount (K.faults sink.old) (K.faults sink.new) result }
{
    match sink.put(b"HTTP/1.1 100 Continue\r\n\r\n") {
        Put::All => None,
        Put::Failed => Some(End::WriteFault),
    }
}

// Goes on unless it is over.
fn onward(end: Option<End>) -> Turn
    ensures { result ≡ turn_of end }
{
    match end {
        Some(end) => Turn::Over(end),
        None => Turn::Onward,
    }
}

// One more answer of the stream, and what is done at it.
fn make_turn<S: Source, K: Sink>(
    alloc: Global,
    names: &Names,
    requests: &mut Requests,
    source: &mut S,
    sink: &mut K,
) -> Turn
    ensures { (start : Wire) (told : Bool)
        → IsWaiting names.now start (wire requests.old (S.left source.old) (S.faults source.old)
        (K.written sink.old) (K.faults sink.old) start.board) told
        → TurnsTo names.now start (wire requests.new (S.left source.new) (S.faults source.new)
        (K.written sink.new) (K.faults sink.new) start.board) result }
{
    match requests.next(names) {
        Ok(Step100::Whole(request)) => Turn::Whole(request),
        Ok(Step100::Refused { status }) => Turn::Over(refuse(alloc, status, sink)),
        Ok(Step100::Continue) => onward(say_continue(sink)),
        Ok(Step100::Wants) => onward(read_more(requests, source)),
        Err(_) => Turn::Over(End::OutOfMemory),
    }
}

/// The next request of a connection, or why none is whole. Of a message that asks for it, it is said
/// that its body may come; a message that is refused is told so.
pub(crate) fn next_request<S: Source, K: Sink>(
    alloc: Global,
    names: &Names,
    requests: &mut Requests,
    source: &mut S,
    sink: &mut K,
) -> Result<Request, End>
    ensures { (board : BoardState)
        → WaitsFor names.now (wire requests.old (S.left source.old) (S.faults source.old)
        (K.written sink.old) (K.faults sink.old) board)
        (wire requests.new (S.left source.new) (S.faults source.new) (K.written sink.new)
        (K.faults sink.new) board) result }
{
    for _ in 0..u64::MAX {
        match make_turn(alloc, names, requests, source, sink) {
            Turn::Whole(request) => return Ok(request),
            Turn::Over(end) => return Err(end),
            Turn::Onward => {}
        }
    }
    Err(End::OutOfMemory)
}
