// The law between any two steps on the cells of a site.
ghost use Rattle.turn_table.specs.Moments.{IsLawBetweenSteps};
ghost use Rattle.site_cells.specs.Values.{law_of};
ghost use Rattle.logged_cells.specs.Cells.{about_in, faults_of, is_closed, log_of_cell, IsSettled};

use crate::LoggedCell;
use atomic_table::TableRule;
use disk_edge::Disk;
use exchange_rules::LogEntry;
use site_laws::CellAbout;
use turn_table::{Opening, Turns, View, law_between_steps};

/// Between any two steps on the table of a site the core's law holds of the histories in its cells,
/// and its words and slots fit them.
pub fn site_law_between_steps<D: Disk>()
    ensures { IsLawBetweenSteps about_in log_of_cell law_of (IsSettled D.seen D.may_leave) is_closed
        (faults_of D.faults)
        ⟦<Turns<LoggedCell<D>> as TableRule<Option<LoggedCell<D>>, View<CellAbout, LogEntry>, Opening<LoggedCell<D>>>>⟧.holds }
{
    law_between_steps::<LoggedCell<D>>();
}
