// The top call.
ghost use Rattle.std.specs.Prelude.{◌≡◌, ◌⊎◌, ℕ, List, Option, IfSome, None, Some, false, map};
ghost use Rattle.io_edge.specs.Edge.{Appends, AppendsPrefix, Rose};
ghost use Rattle.command_words.specs.Commands.{command_of};
ghost use Rattle.command_words.specs.Program.{MayShow};
ghost use Rattle.command_words.specs.declared.command.Command.TheVariants.{Load};
ghost use Rattle.load_rules.specs.Summary.{load_text};
ghost use Rattle.stream_commands.specs.Commands.{IsCommand, IsAnswered, IsRefused, IsBegun, IsShort};
ghost use Rattle.stream_commands.specs.Endings.{HasCause, HasCounted, HasOneRisen, IsCompletion};
ghost use Rattle.stream_commands.specs.Endings.{IsToldEnding, TellsLoad, Writes};
ghost use Rattle.stream_commands.specs.Lines.{SaysLine, status_of};
ghost use Rattle.stream_commands.specs.Servers.{HasServedRow, LeavesRow};
ghost use Rattle.site_server.specs.Doors.{doors};

use crate::door_row::DoorRow;
use crate::ending::Ending;
use crate::eval::eval;
use crate::load::load;
use crate::script::script;
use crate::server::serve;
use command_words::{Command, WordsFault, read_command};
use io_edge::{Gate, Put, Sink, Source};
use server_edge::{Clock, Door};
use std::alloc::Global;
use std::sync::Wait;
use std::thread::Threads;
use std::time::Clock as SystemClock;
use stream_handler::SessionEnd;
use tuple_values::{Text, Words};

// Writes the text that words ask for which are no command. Nothing is read from input.
fn show<O: Sink>(text: &Text, output: &mut O) -> Ending
    ensures writes { (had : Option (List ℕ)) → Writes result None had had
        (O.written output.old) (O.written output.new) }
    ensures shown { result ≡ Ending.Shown
        → Appends (O.written output.old) (O.written output.new) text.now }
    ensures ending { (result ≡ Ending.Shown) ⊎ (result ≡ Ending.OutputFailed) }
    ensures risen { result ≡ Ending.OutputFailed
        → Rose (O.faults output.old) (O.faults output.new) }
{
    match output.put(text.as_str().as_bytes()) {
        Put::All => Ending::Shown,
        Put::Failed => Ending::OutputFailed,
    }
}

// Carries out the command that the words give, or tells why there is none.
fn run<
    R: Threads + Wait + SystemClock + Sync,
    I: Source,
    O: Sink,
    L: Door<Note = SessionEnd>,
    C: Clock,
    G: Gate,
>(
    rt: &R,
    alloc: Global,
    words: &Words,
    input: &mut I,
    output: &mut O,
    row: &mut DoorRow<L>,
    clock: &C,
    gate: &G,
) -> Ending
    requires begun { row.old.ended ≡ None }
    ensures writes { Writes result (command_of words.now)
        (I.left input.old) (I.left input.new) (O.written output.old) (O.written output.new) }
    ensures loaded { TellsLoad (command_of words.now) result
        (O.written output.old) (O.written output.new) }
    ensures silent { status_of result ≡ 2 → O.written output.new ≡ O.written output.old }
    ensures cause { HasCause result words.now (record {
      input_old = I.faults input.old;
      input_new = I.faults input.new;
      output_old = O.faults output.old;
      output_new = O.faults output.new;
    }) }
    ensures left { LeavesRow (doors L.told L.faults L.deaf L.In.left L.In.faults L.Out.written
        L.Out.faults) (C.tells clock.now) (command_of words.now) row.old.doors row.new result }
    ensures counted { HasCounted result (map L.faults row.old.doors)
        (map L.faults row.new.doors) }
{
    match read_command(alloc, words) {
        Ok(Command::Eval { names }) => eval(rt, alloc, names, input, output, gate),
        Ok(Command::Script { names }) => script(rt, alloc, names, input, output, gate),
        Ok(Command::Serve { settings, names }) => {
            serve(rt, alloc, settings, names, row, clock, gate)
        }
        Ok(Command::Load { n }) => load(rt, alloc, n, output, clock, gate),
        Err(WordsFault::Shown { text }) => show(&text, output),
        Err(WordsFault::RefusedBy { text }) => Ending::WordsTold { text },
        Err(WordsFault::Refused) => Ending::WordsRefused,
        Err(WordsFault::OutOfMemory) => Ending::OutOfMemory,
    }
}

/// Runs the command that the words after the program's name give, and answers the status of the
/// process. What is said below of output holds where the input tells its bytes. Of the row a server
/// alone serves doors; the clock and the pause of its runners are its own too.
pub fn run_words<
    R: Threads + Wait + SystemClock + Sync,
    I: Source,
    O: Sink,
    E: Sink,
    L: Door<Note = SessionEnd>,
    C: Clock,
    G: Gate,
>(
    rt: &R,
    alloc: Global,
    words: &Words,
    input: &mut I,
    output: &mut O,
    errors: &mut E,
    row: &mut DoorRow<L>,
    clock: &C,
    gate: &G,
) -> u8
    // 2 comes exactly where the words are no command, unless they ask for help or the version, which
    // is shown with 0. At 2 nothing is written.
    ensures words { result ≡ 2 → ¬ (IsCommand words.now) }
    ensures no_command { ¬ (IsCommand words.now) → ¬ (MayShow words.now) → result ≡ 2 }
    ensures silent { result ≡ 2 → O.written output.new ≡ O.written output.old }

    // At 0 what answers the command is written, at 3 what tells its first fault, and at each status a
    // first part of the one or the other.
    ensures done { result ≡ 0 → IfSome (I.left input.old) (λ all.
        IsAnswered (command_of words.now) all (I.left input.new)
        (O.written output.old) (O.written output.new)) }
    ensures refused { result ≡ 3 → IfSome (I.left input.old) (λ all.
        IsRefused (command_of words.now) all (I.left input.new)
        (O.written output.old) (O.written output.new)) }
    ensures begun { IfSome (I.left input.old) (λ all.
        IsBegun (command_of words.now) all (I.left input.new)
        (O.written output.old) (O.written output.new)) }

    // The strongest sentence about threads. A load is made by eight of them, which come to its one site
    // in any order; yet what is written is the summary that the number of its documents alone gives:
    // at 0 all of it, at each status a first part. That holds of any input.
    ensures loaded { (n : ℕ) → command_of words.now ≡ Some (Load n)
        → (result ≡ 0 → Appends (O.written output.old) (O.written output.new) (load_text n))
        × AppendsPrefix (O.written output.old) (O.written output.new) (load_text n) }

    // At 5 all that a script is to write is written, and its input ends inside a message or has one
    // that is refused.
    ensures short { result ≡ 5 → IfSome (I.left input.old)
        (λ all. IsShort (command_of words.now) all (I.left input.new)
        (O.written output.old) (O.written output.new)) }

    // 1 comes only where input, output or a door failed; where none did, a command is answered.
    ensures fault { result ≡ 1
        → Rose (I.faults input.old) (I.faults input.new)
        ⊎ Rose (O.faults output.old) (O.faults output.new)
        ⊎ HasOneRisen (map L.faults row.old.doors) (map L.faults row.new.doors) }
    ensures complete { IsCommand words.now → ¬ (Rose (I.faults input.old) (I.faults input.new))
        → ¬ (Rose (O.faults output.old) (O.faults output.new))
        → ¬ (HasOneRisen (map L.faults row.old.doors) (map L.faults row.new.doors))
        → IsCompletion (command_of words.now) result }

    // At 0 a server has served the first doors of the row, none of which failed, and its site was
    // closed with lawful histories; the row of any other command is as it was.
    ensures served { result ≡ 0 → HasServedRow (doors L.told L.faults L.deaf L.In.left L.In.faults
        L.Out.written L.Out.faults) (C.tells clock.now) (command_of words.now) false
        row.old.doors row.new }
    ensures still { result ≡ 0 → map L.faults row.new.doors ≡ map L.faults row.old.doors }

    // The line on errors names the cause; what is left of the row is of the ending too.
    ensures told { IsToldEnding result words.now (record {
      input_old = I.faults input.old;
      input_new = I.faults input.new;
      output_old = O.faults output.old;
      output_new = O.faults output.new;
    })
        (SaysLine (E.written errors.old) (E.written errors.new)
        (E.faults errors.old) (E.faults errors.new))
        (λ ending. Writes ending (command_of words.now) (I.left input.old) (I.left input.new)
        (O.written output.old) (O.written output.new))
        (λ ending. LeavesRow (doors L.told L.faults L.deaf L.In.left L.In.faults L.Out.written
        L.Out.faults) (C.tells clock.now) (command_of words.now) row.old.doors row.new ending
        × HasCounted ending (map L.faults row.old.doors) (map L.faults row.new.doors)) }
{
    row.begin();
    let ending = run(rt, alloc, words, input, output, row, clock, gate);
    let status = ending.status();
    ending.say(errors);
    status
}
