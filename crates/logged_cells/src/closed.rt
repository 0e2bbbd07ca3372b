// What the cells of a site held that has ended, and their logs.
ghost use Rattle.std.specs.Prelude.{◌≡◌, ◌++◌, IfOk, OnOk, map, option_to_list};
ghost use Rattle.logged_cells.specs.Cells.{logs_in, value_of};

use crate::LoggedCell;
use commit_log::Log;
use disk_edge::Disk;
use site_cells::CellValues;
use std::alloc::Global;
use tuple_values::{Memory, Sequence};
use turn_table::Cells;

/// The logs of cells, in the order of cells.
pub type Logs<D> = Sequence<Log<D>>;

/// What cells held, and the logs of those that had one.
#[derive(Drop)]
pub struct CellsClosed<D> {
    pub values: CellValues,
    pub logs: Logs<D>,
}

/// The log behind the others, where there is one.
fn keep<D: Drop>(logs: &mut Logs<D>, log: Option<Log<D>>) -> Result<(), Memory>
    ensures { OnOk result (logs.new ≡ logs.old ++ option_to_list log) }
{
    match log {
        Some(log) => logs.push(log),
        None => Ok(()),
    }
}

/// What these cells hold, and the logs of those that have one.
pub fn into_parts<D: Disk>(
    alloc: Global,
    cells: Cells<LoggedCell<D>>,
) -> Result<CellsClosed<D>, Memory>
    ensures values { IfOk result (λ closed. closed.values ≡ map value_of cells) }
    ensures logs { IfOk result (λ closed. closed.logs ≡ logs_in cells) }
{
    let mut values = CellValues::new(alloc);
    let mut logs = Logs::new(alloc);
    for cell in cells.into_vec() {
        let (value, log) = cell.into_parts();
        values.push(value)?;
        keep(&mut logs, log)?;
    }
    Ok(CellsClosed { values, logs })
}
