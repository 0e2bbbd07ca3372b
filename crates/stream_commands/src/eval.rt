// The command `eval`: one expression over collections that are empty.
ghost use Rattle.std.specs.Prelude.{◌≡◌, IfOk, Some};
ghost use Rattle.command_words.specs.declared.command.Command.TheVariants.{Eval};
ghost use Rattle.stream_commands.specs.Endings.{HasRisen, IsEndingOf, Writes};
ghost use Rattle.stream_commands.specs.Evaluations.{ending_of};
ghost use Rattle.stream_commands.specs.Replies.{alone_outcome, meaning, outcome_of};

use crate::ending::Ending;
use crate::input::{ReadFault, read_input};
use io_edge::{Gate, Put, Sink, Source};
use running_site::Site;
use std::alloc::Global;
use std::sync::Wait;
use std::thread::Threads;
use stream_handler::{Outcome, run_plain_expression};
use stream_site::Turns;
use tuple_values::{Memory, Names};

/// The greatest number of bytes that the entries of a shard may count.
pub const SHARD_LIMIT: u64 = 268_435_456;

// How the run ends where the reply is written: an exception is a fault of the expression.
fn ending_of(outcome: &Outcome) -> Ending
    ensures { result ≡ ending_of outcome.now }
{
    match outcome {
        Outcome::ResultSet {
            exception: Some(_),
            ..
        } => Ending::Faulty,
        Outcome::ResultSet { .. } | Outcome::Indexed | Outcome::Refused { .. } => Ending::Done,
    }
}

// What the bytes of an expression give over these collections, which are made empty. It is what the
// expression's course answers alone, since no other pass is at the site, and what the bytes mean.
fn evaluate<R: Threads + Wait + Sync, G: Gate>(
    rt: &R,
    alloc: Global,
    names: Names,
    bytes: &[u8],
    gate: &G,
) -> Result<Outcome, Memory>
    ensures alone { IfOk result (λ outcome. outcome ≡ alone_outcome names bytes.now) }
    ensures meant { IfOk result (λ outcome. outcome ≡ outcome_of (meaning names bytes.now)) }
{
    let (site, mut pass) = Site::start_alone(alloc, names, SHARD_LIMIT)?;
    let mut visit = site.visit(rt, &mut pass);
    let outcome = run_plain_expression(rt, alloc, &mut visit, bytes, gate);
    visit.watch();
    visit.end(&mut pass);
    outcome
}

/// Answers the expression that input holds, over these collections.
pub fn eval<R: Threads + Wait + Sync, I: Source, O: Sink, G: Gate>(
    rt: &R,
    alloc: Global,
    names: Names,
    input: &mut I,
    output: &mut O,
    gate: &G,
) -> Ending
    ensures writes { Writes result (Some (Eval names))
        (I.left input.old) (I.left input.new) (O.written output.old) (O.written output.new) }
    ensures ending { IsEndingOf (Eval names) result }
    ensures risen { HasRisen result (record {
      input_old = I.faults input.old;
      input_new = I.faults input.new;
      output_old = O.faults output.old;
      output_new = O.faults output.new;
    }) }
{
    let bytes = match read_input(alloc, input) {
        Ok(bytes) => bytes,
        Err(ReadFault::Failed) => return Ending::InputFailed,
        Err(ReadFault::OutOfMemory) => return Ending::OutOfMemory,
    };
    let Ok(outcome) = evaluate(rt, alloc, names, &bytes, gate) else {
        return Ending::OutOfMemory;
    };
    let ending = ending_of(&outcome);
    let Ok(reply) = outcome.body(alloc, 0) else {
        return Ending::OutOfMemory;
    };
    match output.put(reply.as_slice()) {
        Put::All => ending,
        Put::Failed => Ending::OutputFailed,
    }
}
