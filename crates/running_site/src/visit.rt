// A pass at its site, as a writer by turns.
ghost use Rattle.std.specs.Prelude.{◌≡◌, None, Some};
ghost use Rattle.turn_table.specs.Calls.{known, table_of};
ghost use Rattle.running_site.specs.Passes.{IsOpened};
ghost use Rattle.running_site.specs.Visits.{IsNoted, IsSound, IsVisit};

use crate::SiteOn;
use crate::pass::TablePass;
use disk_edge::Disk;
use logged_cells::LoggedCell;
use shard_versions::{CutMark, OwnMark};
use std::alloc::Global;
use turn_table::{CellState, Turn};

/// A pass at its site for some calls, with the turn that it has, if any, and its record. It works
/// by turns (`Turns`), so the calls that are written over these can be made with it. Once it has no
/// turn, `end` gives the pass back.
pub struct Visit<'a, R, D: Disk>
where
    LoggedCell<D>: CellState,
{
    pub(crate) rt: &'a R,
    pub(crate) alloc: Global,
    pub(crate) site: &'a SiteOn<D>,
    pub(crate) pass: TablePass<D>,
    pub(crate) turn: Option<Turn<LoggedCell<D>>>,
    pub(crate) marks: Vec<CutMark>,
    pub(crate) own: Vec<OwnMark>,
    ghost seated: { table_of pass ≡ site.now.table.board.shared.table_id },
    ghost numbered: { (known pass).numbers ≡ site.now.table.board.shared.key.numbers.value },
    ghost opened: { IsOpened site.now.names site.now.limit site.now.table.board.shared.key.cells.value },
    ghost visit: { IsVisit site.now.names site.now.limit (known pass) turn },
    ghost noted: { IsNoted D.faults pass turn },
    ghost sound: { IsSound D.seen D.may_leave turn },
}
