// The command `script`: requests over collections and a board of daemons that begin empty.
ghost use Rattle.std.specs.Prelude.{◌≡◌, Some};
ghost use Rattle.command_words.specs.declared.command.Command.TheVariants.{Script};
ghost use Rattle.daemon_board.specs.Rising.{IsKept};
ghost use Rattle.daemon_board.specs.Tickets.{tickets_of};
ghost use Rattle.site_laws.specs.SiteCells.{IsLawful};
ghost use Rattle.stream_handler.specs.Sessions.{wire};
ghost use Rattle.stream_commands.specs.Endings.{HasRisen, IsEndingOf, Writes};
ghost use Rattle.stream_commands.specs.Serving.{HasRound, HasRun, HasServed, ending_of, state_of};

use crate::ending::Ending;
use crate::eval::SHARD_LIMIT;
use daemon_board::Board;
use daemon_steps::run_daemons;
use form_request::Requests;
use io_edge::{Gate, Sink, Source};
use running_site::Site;
use server_edge::NoClock;
use std::alloc::Global;
use std::sync::Wait;
use std::thread::Threads;
use stream_handler::{End, OneEnd, serve_one};
use stream_site::Turns;
use tuple_values::Names;

// How the run ends where the serving of its input ended so.
fn ending_of(end: End) -> Ending
    ensures { result ≡ ending_of end }
{
    match end {
        End::Ended | End::Closed => Ending::Done,
        End::Cut { .. } => Ending::InputCut,
        End::Refused { status } => Ending::MessageRefused { status },
        End::ReadFault => Ending::InputFailed,
        End::WriteFault => Ending::OutputFailed,
        End::OutOfMemory => Ending::OutOfMemory,
    }
}

// Runs every running daemon once. The serving goes on as it would have, unless memory was wanting.
// No other writer is there, so the law holds of all that was seen.
fn run_board<T: Turns, R: Threads + Sync, G: Gate>(
    rt: &R,
    alloc: Global,
    site: &mut T,
    board: &mut Board,
    gate: &G,
    next: Option<End>,
) -> Option<End>
    requires lone { T.lone (T.home site.old) }
    requires kept { IsKept board.old.shown }
    ensures ran { HasRun (T.layout site.old) (T.writer site.old) (T.writer site.new)
        (tickets_of board.old.shown) (tickets_of board.new.shown) next result }
    ensures kept { IsKept board.new.shown }
    ensures lawful { IsLawful (T.layout site.new).names (T.writer site.new).seen }
    ensures layout { T.layout site.new ≡ T.layout site.old }
    ensures home { T.home site.new ≡ T.home site.old }
{
    let ran = run_daemons(rt, alloc, site, board, gate);
    site.watch();
    match ran {
        Ok(()) => next,
        Err(_) => Some(End::OutOfMemory),
    }
}

// Serves one message, and then runs the daemons. Answers how the serving ends, unless it goes on.
fn serve_round<T: Turns, R: Threads + Sync, I: Source, O: Sink, G: Gate>(
    rt: &R,
    alloc: Global,
    site: &mut T,
    board: &mut Board,
    requests: &mut Requests,
    input: &mut I,
    output: &mut O,
    gate: &G,
) -> Option<End>
    requires lone { T.lone (T.home site.old) }
    requires kept { IsKept board.old.shown }
    ensures round { HasRound (T.layout site.old)
        (wire requests.old (I.left input.old) (I.faults input.old) (O.written output.old)
        (O.faults output.old) (state_of board.old))
        (wire requests.new (I.left input.new) (I.faults input.new) (O.written output.new)
        (O.faults output.new) (state_of board.new)) (T.writer site.old) (T.writer site.new)
        board.old board.new result }
    ensures kept { result ≡ None → IsKept board.new.shown }
    ensures layout { T.layout site.new ≡ T.layout site.old }
    ensures home { T.home site.new ≡ T.home site.old }
{
    match serve_one(
        rt, alloc, site, board, requests, input, output, &NoClock, gate,
    ) {
        OneEnd::Served(_) => run_board(rt, alloc, site, board, gate, None),
        OneEnd::Last(_) => run_board(rt, alloc, site, board, gate, Some(End::Closed)),
        OneEnd::Over { end, .. } => Some(end),
    }
}

// Serves the messages of input until it is over.
fn serve<T: Turns, R: Threads + Sync, I: Source, O: Sink, G: Gate>(
    rt: &R,
    alloc: Global,
    site: &mut T,
    board: &mut Board,
    requests: &mut Requests,
    input: &mut I,
    output: &mut O,
    gate: &G,
) -> End
    requires lone { T.lone (T.home site.old) }
    requires kept { IsKept board.old.shown }
    ensures served { HasServed (T.layout site.old)
        (wire requests.old (I.left input.old) (I.faults input.old) (O.written output.old)
        (O.faults output.old) (state_of board.old))
        (wire requests.new (I.left input.new) (I.faults input.new) (O.written output.new)
        (O.faults output.new) (state_of board.new)) (T.writer site.old) (T.writer site.new)
        board.old board.new result }
    ensures home { T.home site.new ≡ T.home site.old }
{
    for _ in 0..u64::MAX {
        match serve_round(rt, alloc, site, board, requests, input, output, gate) {
            Some(end) => return end,
            None => {}
        }
    }
    End::OutOfMemory
}

/// Carries out the requests that input holds, over these collections, and writes their replies.
/// After each whole request every running daemon runs once.
pub fn script<R: Threads + Wait + Sync, I: Source, O: Sink, G: Gate>(
    rt: &R,
    alloc: Global,
    names: Names,
    input: &mut I,
    output: &mut O,
    gate: &G,
) -> Ending
    ensures writes { Writes result (Some (Script names))
        (I.left input.old) (I.left input.new) (O.written output.old) (O.written output.new) }
    ensures ending { IsEndingOf (Script names) result }
    ensures risen { HasRisen result (record {
      input_old = I.faults input.old;
      input_new = I.faults input.new;
      output_old = O.faults output.old;
      output_new = O.faults output.new;
    }) }
{
    let Ok((site, mut pass)) = Site::start_alone(alloc, names, SHARD_LIMIT) else {
        return Ending::OutOfMemory;
    };
    let mut board = Board::empty(alloc);
    let mut requests = Requests::begin(alloc);
    let mut visit = site.visit(rt, &mut pass);
    let end = serve(
        rt,
        alloc,
        &mut visit,
        &mut board,
        &mut requests,
        input,
        output,
        gate,
    );
    visit.watch();
    visit.leave();
    visit.end(&mut pass);
    ending_of(end)
}
