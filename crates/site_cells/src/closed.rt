// The histories in what the cells of a site hold.
ghost use Rattle.std.specs.Prelude.{ℕ, ◌≡◌, ◌+◌, IfOk, List, length, map};
ghost use Rattle.tuple_values.specs.declared.names.NameShards.{NameShards};
ghost use Rattle.topic_book.specs.Cells.{cells_in};
ghost use Rattle.exchange_rules.specs.Cells.{book_in, history_in};
ghost use Rattle.site_laws.specs.SiteCells.{histories_in};
ghost use Rattle.site_cells.specs.Values.{log_in};

use crate::{CellValue, CellValues};
use once_core::{Histories, ShardHistories};
use shard_versions::Step;
use std::alloc::Global;
use topic_book::BookEntries;
use tuple_values::Memory;

/// The entries of a shard, and none of the book.
fn history_of(alloc: Global, value: CellValue) -> Result<Step, Memory>
    ensures { IfOk result (λ history. history ≡ history_in (log_in value)) }
{
    match value {
        CellValue::Shard(shard) => shard.into_entries(alloc),
        CellValue::Book(_) => Ok(Step::new(alloc)),
    }
}

/// The entries of the book, and none of a shard.
fn book_of(alloc: Global, value: CellValue) -> BookEntries
    ensures { result ≡ book_in (log_in value) }
{
    match value {
        CellValue::Shard(_) => BookEntries::new(alloc),
        CellValue::Book(book) => book.into_entries(),
    }
}

/// The histories in these cells, of which the last is the book's.
pub fn into_histories(alloc: Global, values: CellValues) -> Result<Histories, Memory>
    ensures { IfOk result (λ histories. (names : List NameShards)
        → length values ≡ cells_in names + 1
        → histories ≡ histories_in names (map log_in values)) }
{
    let mut values = values.into_vec();
    let book = match values.pop() {
        Some(value) => book_of(alloc, value),
        None => BookEntries::new(alloc),
    };
    let mut shards = ShardHistories::new(alloc);
    for value in values {
        shards.push(history_of(alloc, value)?)?;
    }
    Ok(Histories { shards, book })
}
