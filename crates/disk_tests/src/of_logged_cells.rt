// Tests of a cell with its log, whose disk fails at some calls.
use crate::logs::{NEW, ONE, disk, mark};
use commit_log::Log;
use disk_edge::MemoryDisk;
use logged_cells::{LoggedCell, LoggedRefusal, Made};
use shard_versions::{ShardState, are_storable};
use site_cells::CellValue;
use site_laws::Sealing;
use std::alloc::Global;
use std::test::Fail;
use tuple_values::Names;
use turn_table::CellState;

/// What became of a step.
#[derive(Clone, Copy, Debug, PartialEq, Eq)]
enum Outcome {
    Clean,
    Broke,
    Lost,
}

/// A Mark of the writer 5, put into the cell of a shard with no entry, where its log takes it. The log is a new
/// file on a disk of which these calls fail; opening it takes the calls 0 to 4.
fn put(alloc: Global, failing: &[u64]) -> Result<(Outcome, LoggedCell<MemoryDisk>), Fail> {
    let attached = match Log::attach(alloc, disk(alloc, &NEW, failing)?) {
        Ok(attached) => attached,
        Err(refused) => return Err(refused.fault)?,
    };
    let step = mark(alloc, 5)?;
    if attached.history.len() > 0 || !are_storable(&step) {
        return Err("no new file, or no Mark".into());
    }
    let names = Names::new(alloc);
    let shard = CellValue::Shard(ShardState::empty(alloc, 1_000));
    let mut cell = LoggedCell::logged(alloc, &names, shard, attached.log);
    let sealing = Sealing::Shard(step);
    match cell.reserve(5, &sealing) {
        Ok(made) => {
            cell.append(5, sealing);
            Ok((outcome_of(made), cell))
        }
        Err(LoggedRefusal::LogFault) => Ok((Outcome::Lost, cell)),
        Err(LoggedRefusal::NoRoom(_)) => Err("no room".into()),
    }
}

fn outcome_of(made: Made) -> Outcome {
    match made {
        Made::Clean => Outcome::Clean,
        Made::Broke => Outcome::Broke,
    }
}

/// Whether a step meets this end, with so many entries in the cell, a log that is shut or not, and this file.
fn ends(
    alloc: Global,
    failing: &[u64],
    outcome: Outcome,
    entries: u64,
    shut: bool,
    file: &[u8],
) -> Result<bool, Fail> {
    let (met, cell) = put(alloc, failing)?;
    let told = met == outcome
        && cell.len() == entries
        && cell.shut() == shut
        && cell.faults() == failing.len() as u64;
    let (_, log) = cell.into_parts();
    match log {
        Some(log) => Ok(told && log.into_disk().bytes() == file),
        None => Ok(false),
    }
}

// The calls 5 to 8 are those of an append: write, sync, write and sync.
#[test]
fn a_step_is_in_the_cell_where_it_stands_in_the_file(rt: HostRuntime) -> Result<(), Fail> {
    let alloc = rt.alloc();
    assert!(rt; ends(alloc, &[], Outcome::Clean, 1, false, &ONE)?);
    assert!(rt; ends(alloc, &[5], Outcome::Lost, 0, false, &NEW)?);
    assert!(rt; ends(alloc, &[6], Outcome::Lost, 0, false, &NEW)?);
    assert!(rt; ends(alloc, &[7], Outcome::Lost, 0, false, &NEW)?);
    assert!(rt; ends(alloc, &[8], Outcome::Broke, 1, false, &ONE)?);
    Ok(())
}

// Behind a write that failed a reopening syncs first, call 6.
#[test]
fn a_log_whose_reopening_fails_is_shut(rt: HostRuntime) -> Result<(), Fail> {
    let (met, cell) = put(rt.alloc(), &[5, 6])?;
    assert!(rt; met == Outcome::Lost && cell.len() == 0 && cell.shut() && cell.faults() == 2);
    Ok(())
}
