// The command `load`: a load of documents in memory, by threads at one site.
ghost use Rattle.std.specs.Prelude.{ℕ, List, Option, Some};
ghost use Rattle.command_words.specs.declared.command.Command.TheVariants.{Load};
ghost use Rattle.stream_commands.specs.Endings.{HasRisen, IsEndingOf, TellsLoad, Writes};

use crate::ending::Ending;
use io_edge::{Gate, Put, Sink};
use load_laws::loads_are_told;
use load_mix::run_load;
use load_rules::summary_text;
use server_edge::Clock;
use std::alloc::Global;
use std::sync::Wait;
use std::thread::Threads;

/// Makes a load of `n` documents, and writes the summary of its histories. Nothing is read from input.
pub(crate) fn load<R: Threads + Wait + Sync, O: Sink, C: Clock, G: Gate>(
    rt: &R,
    alloc: Global,
    n: u32,
    output: &mut O,
    clock: &C,
    gate: &G,
) -> Ending
    ensures writes { (had : Option (List ℕ)) → Writes result (Some (Load n)) had had
        (O.written output.old) (O.written output.new) }
    ensures loaded { TellsLoad (Some (Load n)) result
        (O.written output.old) (O.written output.new) }
    ensures ending { IsEndingOf (Load n) result }
    ensures risen { (count : ℕ) → HasRisen result (record {
      input_old = count;
      input_new = count;
      output_old = O.faults output.old;
      output_new = O.faults output.new;
    }) }
{
    loads_are_told();
    let Ok(histories) = run_load(rt, alloc, u64::from(n), clock, gate) else {
        return Ending::OutOfMemory;
    };
    let Ok(summary) = summary_text(alloc, &histories) else {
        return Ending::OutOfMemory;
    };
    match output.put(summary.as_slice()) {
        Put::All => Ending::Done,
        Put::Failed => Ending::OutputFailed,
    }
}
