// The summary of a load.
ghost use Rattle.std.specs.Prelude.{◌≡◌, ◌≤◌, ◌^◌, IfOk};
ghost use Rattle.load_rules.specs.Summary.{summary_of};
ghost use Rattle.load_rules.specs.Walks.{AreBelow, IsCount, tally_at, tally_from};

use crate::counts::Counts;
use crate::walk::counts_of;
use once_core::{Histories, ShardHistories};
use std::alloc::Global;
use tuple_values::{Bytes, Memory};

/// The summary of the histories that a load left: of the source its current documents and its
/// writes, of the destination its current documents and the sums of their amounts and revisions.
pub fn summary_text(alloc: Global, histories: &Histories) -> Result<Bytes, Memory>
    ensures { IfOk result (λ text. text ≡ summary_of histories.now) }
{
    let src = counts_from(alloc, &histories.shards, 0)?;
    let dest = counts_from(alloc, &histories.shards, 4)?;
    let (documents, writes) = (src.documents, src.writes);
    let (delivered, amounts, revisions) = (dest.documents, dest.amounts, dest.revisions);
    let text = format!(in alloc;
        "src docs={documents} writes={writes}\ndest docs={delivered} sum_a={amounts} sum_rev={revisions}\n"
    )?;
    Ok(Bytes::from_vec(text.into_bytes()))
}

// What is counted of the four shards whose cells begin with this one.
fn counts_from(alloc: Global, cells: &ShardHistories, first: usize) -> Result<Counts, Memory>
    requires { first ≤ 4 }
    ensures { IfOk result (IsCount (tally_from cells.now first)) }
{
    let low = counts_at(alloc, cells, first)?.plus(counts_at(alloc, cells, first + 1)?);
    let high = counts_at(alloc, cells, first + 2)?.plus(counts_at(alloc, cells, first + 3)?);
    Ok(low.plus(high))
}

// What is counted of a cell's shard. A cell that isn't there has no entry.
fn counts_at(alloc: Global, cells: &ShardHistories, cell: usize) -> Result<Counts, Memory>
    ensures counts { IfOk result (IsCount (tally_at cells.now cell)) }
    ensures low { IfOk result (AreBelow (2 ^ 126)) }
{
    match cells.get(cell) {
        Some(history) => counts_of(alloc, history.as_slice()),
        None => Ok(Counts::none()),
    }
}
