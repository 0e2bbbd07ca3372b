// Where a collection's cells are.
ghost use Rattle.std.specs.Prelude.{◌≡◌, ◌<◌, ◌^◌, length};
ghost use Rattle.topic_book.specs.Cells.{cells_in, cell_of};
ghost use Rattle.topic_book.specs.Fitness.{shards_of};
ghost use Rattle.exchange_rules.specs.Bindings.{book_cell};
ghost use Rattle.exchange_rules.specs.Rows.{HasCell};
ghost use Rattle.stream_site.specs.Spots.{IsSpot};

use crate::Turns;
use crate::spot::Spot;
use tuple_values::{Names, Text};

/// How many shards the collection has, and 0 where there is none of this name.
pub fn shards_of(names: &Names, collection: &str) -> u16
    ensures { result ≡ shards_of names.now collection.now }
{
    match names.find(collection.as_bytes()) {
        Some(found) => found.shards,
        None => 0,
    }
}

/// The cell of the collection's first shard.
pub(crate) fn first_cell(names: &Names, collection: &str) -> u32
    requires { cells_in names.now < 2 ^ 32 }
    ensures { result ≡ cell_of names.now collection.now 0 }
{
    let mut cell: u32 = 0;
    for entry in names.as_slice() {
        if entry.name.as_str() == collection {
            return cell;
        }
        cell += u32::from(entry.shards);
    }
    cell
}

/// How many shards the collection has, as a writer of the site finds it.
pub(crate) fn width<T: Turns>(site: &T, collection: &Text) -> u16
    ensures { result ≡ shards_of (T.layout site.now).names collection.now }
{
    shards_of(site.names(), collection.as_str())
}

/// A call at the collection's shard, as a writer of the site finds it.
pub(crate) fn locate<'a, T: Turns>(
    site: &T,
    collection: &'a Text,
    shard: u16,
    stand: u64,
) -> Spot<'a>
    requires { shard < shards_of (T.layout site.now).names collection.now }
    ensures spot { IsSpot (T.layout site.now).names collection.now shard stand result }
    ensures here { HasCell (T.layout site.now) (T.writer site.now) result.cell }
{
    let first = first_cell(site.names(), collection.as_str());
    Spot {
        collection,
        shard,
        cell: first + u32::from(shard),
        stand,
    }
}

/// How many cells the collections' shards have.
fn count_cells(names: &Names) -> u32
    requires { cells_in names.now < 2 ^ 32 }
    ensures { result ≡ cells_in names.now }
{
    let mut cells: u32 = 0;
    for entry in names.as_slice() {
        cells += u32::from(entry.shards);
    }
    cells
}

/// The cell of the book, as a writer of the site finds it.
pub(crate) fn find_book<T: Turns>(site: &T) -> u32
    ensures cell { result ≡ book_cell (T.layout site.now).names }
    ensures here { result < length (T.writer site.now).seen }
{
    count_cells(site.names())
}
