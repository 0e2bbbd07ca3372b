// The tuples that list daemons.
ghost use Rattle.std.specs.Prelude.{◌≡◌, [], IfOk, OnOk, map, string_bytes};
ghost use Rattle.daemon_board.specs.Finding.{shown_entries};
ghost use Rattle.daemon_board.specs.Listed.{row_of, state_text, with_fault};
ghost use Rattle.tuple_values.specs.Document.{put, text};

use crate::finding::Kept;
use crate::{Daemon, State};
use std::alloc::Global;
use tuple_values::{Memory, Text, Tuple, Tuples, Value};

fn state_text(state: State) -> &'static str
    ensures { result.now ≡ state_text state }
{
    match state {
        State::Running => "RUNNING",
        State::Stopped => "STOPPED",
        State::Ended => "ENDED",
    }
}

fn put_text(alloc: Global, tuple: &mut Tuple, name: &str, value: &str) -> Result<(), Memory>
    ensures { OnOk result (tuple.new ≡ put name.now (text value.now) tuple.old) }
{
    tuple.put(Text::of(alloc, name)?, Value::Text(Text::of(alloc, value)?))
}

// The tuple of the text of a fault, where there is one.
fn fault_row(alloc: Global, fault: &Option<Text>) -> Result<Tuple, Memory>
    ensures { IfOk result (λ tuple. tuple ≡ with_fault fault.now []) }
{
    let mut tuple = Tuple::empty(alloc);
    match fault {
        None => Ok(tuple),
        Some(told) => {
            put_text(alloc, &mut tuple, "fault", told.as_str())?;
            Ok(tuple)
        }
    }
}

// The tuple that lists a daemon.
fn row(alloc: Global, id: &str, daemon: &Daemon) -> Result<Tuple, Memory>
    ensures { IfOk result (λ tuple. tuple ≡ row_of (record { id = id.now; daemon = daemon.now })) }
{
    let mut tuple = fault_row(alloc, &daemon.fault)?;
    put_text(alloc, &mut tuple, "id", id)?;
    let runs = daemon.runs.min(i64::MAX as u64) as i64;
    tuple.put(Text::of(alloc, "iterations")?, Value::Long(runs))?;
    put_text(alloc, &mut tuple, "state", state_text(daemon.state))?;
    Ok(tuple)
}

/// One tuple for each daemon, in order.
pub(crate) fn list(alloc: Global, daemons: &Kept) -> Result<Tuples, Memory>
    ensures { IfOk result (λ tuples. tuples ≡ map row_of (shown_entries (string_bytes) daemons.now.entries)) }
{
    let mut tuples = Tuples::empty(alloc);
    for place in 0..daemons.len() {
        if let Some((id, daemon)) = daemons.get_index(place) {
            tuples.push(row(alloc, id.as_str(), daemon)?)?;
        }
    }
    Ok(tuples)
}
