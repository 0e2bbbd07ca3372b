// The command `serve`: the connections of doors, over collections and a board of daemons that begin
// empty.
ghost use Rattle.std.specs.Prelude.{◌≡◌, None, Some, map};
ghost use Rattle.command_words.specs.Commands.{IsRanged};
ghost use Rattle.command_words.specs.declared.command.Command.TheVariants.{Serve};
ghost use Rattle.site_server.specs.Doors.{doors};
ghost use Rattle.stream_commands.specs.Endings.{HasCounted, IsEndingOf};
ghost use Rattle.stream_commands.specs.Servers.{LeavesRow, ending_by, serving_of};

use crate::door_row::DoorRow;
use crate::ending::Ending;
use crate::eval::SHARD_LIMIT;
use command_words::Settings;
use io_edge::Gate;
use server_edge::{Clock, Door};
use site_server::{Served, Serving};
use std::alloc::Global;
use std::sync::Wait;
use std::thread::Threads;
use std::time::Clock as SystemClock;
use stream_handler::SessionEnd;
use tuple_values::Names;

// How the words say that it is served, with the limit of a shard.
fn serving_of(settings: Settings) -> Serving
    ensures { result ≡ serving_of settings }
{
    Serving {
        port: settings.port,
        workers: u64::from(settings.workers),
        runners: u64::from(settings.runners),
        limit: SHARD_LIMIT,
    }
}

// How the run ends where a door failed, or none did.
fn ending_by(failed: bool) -> Ending
    ensures { result ≡ ending_by failed }
{
    if failed {
        Ending::DoorsFailed
    } else {
        Ending::Done
    }
}

/// Serves the first doors of the row, one worker each, beside the runners, until all workers have
/// ended. Nothing is read from input and nothing written to output.
pub(crate) fn serve<
    L: Door<Note = SessionEnd>,
    R: Threads + Wait + SystemClock + Sync,
    C: Clock,
    G: Gate,
>(
    rt: &R,
    alloc: Global,
    settings: Settings,
    names: Names,
    row: &mut DoorRow<L>,
    clock: &C,
    gate: &G,
) -> Ending
    requires ranged { IsRanged (Serve settings names) }
    requires begun { row.old.ended ≡ None }
    ensures left { LeavesRow (doors L.told L.faults L.deaf L.In.left L.In.faults L.Out.written
        L.Out.faults) (C.tells clock.now) (Some (Serve settings names)) row.old.doors row.new
        result }
    ensures ending { IsEndingOf (Serve settings names) result }
    ensures counted { HasCounted result (map L.faults row.old.doors)
        (map L.faults row.new.doors) }
{
    let serving = serving_of(settings);
    let served = site_server::serve(rt, alloc, names, &mut row.doors, &serving, clock, gate);
    match served {
        Ok(Served { histories, failed }) => {
            row.ended = Some(histories);
            ending_by(failed)
        }
        Err(_) => Ending::OutOfMemory,
    }
}
