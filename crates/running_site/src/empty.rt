// The cells of a site with no entry.
ghost use Rattle.std.specs.Prelude.{◌≡◌, ◌≤◌, None, All, IfOk, map};
ghost use Rattle.site_cells.specs.Cells.{abouts_of, no_logs};
ghost use Rattle.logged_cells.specs.Cells.{about_in, log_of_cell};

use disk_edge::Disk;
use logged_cells::LoggedCell;
use site_cells::CellValue;
use std::alloc::Global;
use stream_site::empty_shards;
use topic_book::BookState;
use tuple_values::{Memory, Names};
use turn_table::Cells;

/// A cell for each shard of the collections, with this limit on counted bytes, and the book's. None
/// has an entry.
pub(crate) fn empty_cells<D: Disk>(
    alloc: Global,
    names: &Names,
    limit: u64,
) -> Result<Cells<LoggedCell<D>>, Memory>
    requires { limit ≤ 268435456 }
    ensures abouts { IfOk result (λ cells. map about_in cells ≡ abouts_of names.now limit) }
    ensures empty { IfOk result (λ cells. map log_of_cell cells ≡ no_logs names.now) }
    ensures alone { IfOk result (λ cells. All (λ cell. cell.log ≡ None) cells) }
{
    let mut cells = Cells::new(alloc);
    for shard in empty_shards(alloc, names.as_slice(), limit)? {
        cells.push(LoggedCell::alone(alloc, names, CellValue::Shard(shard)))?;
    }
    let book = CellValue::Book(BookState::empty(alloc));
    cells.push(LoggedCell::alone(alloc, names, book))?;
    Ok(cells)
}
