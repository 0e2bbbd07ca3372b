// Why a cell with a log takes no step.
use site_cells::CellRefusal;

/// Why a step isn't appended.
#[derive(Drop)]
pub enum LoggedRefusal {
    /// The cell has no room for it. The cell and its log are as they were.
    NoRoom(CellRefusal),
    /// The log's disk failed: the step doesn't stand in the file, or the log is shut.
    LogFault,
}
