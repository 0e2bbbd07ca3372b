// A site on one table of turns.
ghost use Rattle.std.specs.Prelude.{◌≡◌, ◌+◌, ◌<◌};
ghost use Rattle.topic_book.specs.Cells.{cells_in};
ghost use Rattle.running_site.specs.Passes.{numbers_to};

use disk_edge::MemoryDisk;
use logged_cells::LoggedCell;
use tuple_values::Names;
use turn_table::{CellState, TurnTable};

/// Histories in memory that several passes look at and write to, each by turns. It names the kind of
/// its cells, so that threads can share it wherever they can share those.
#[derive(Drop)]
pub struct SiteOf<C: CellState> {
    pub(crate) table: TurnTable<C>,
    pub(crate) names: Names,
    pub(crate) limit: u64,
    // How many passes were made. Their numbers are those from 1 on.
    pub(crate) passes: u64,
    ghost sized: { table.cells ≡ cells_in names + 1 },
    ghost some: { 0 < passes },
    ghost numbered: { table.board.shared.key.numbers.value ≡ numbers_to passes },
}

/// A site of shards and a book, whose cells may have logs on such disks.
pub type SiteOn<D> = SiteOf<LoggedCell<D>>;

/// A site without logs. Its disks, of which it has none, would be in memory.
pub type Site = SiteOn<MemoryDisk>;
