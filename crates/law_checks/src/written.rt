// A history whose writes are found by their versions.
ghost use Rattle.std.specs.Prelude.{◌≡◌, [], IfOk, get_or, option_copied, unwrap_or};
ghost use Rattle.tuple_values.specs.Keys.{shard_of};
ghost use Rattle.topic_book.specs.Fitness.{shards_of};
ghost use Rattle.shard_versions.specs.Histories.{slots, top, write_at};
ghost use Rattle.shard_versions.specs.Readings.{left_under};
ghost use Rattle.once_core.specs.Cells.{cell_of};

use crate::cells::{cell_of, home_shard, shards_of};
use crate::kinds::{is_mark, left_under};
use shard_versions::{Entry, Step, top_of};
use std::alloc::Global;
use std::marker::Model;
use tuple_values::{Memory, NameShards, Tuple};

/// A history whose writes are found by their versions.
pub(crate) struct Written<'a> {
    history: &'a [Entry],
    writes: Vec<&'a Entry>,
    top: u64,
}

impl Drop for Written<'_> {
    fn drop(self) {
        let Written {
            history: _,
            writes,
            top: _,
        } = self;
        drop(writes);
    }
}

impl<'a> Model for Written<'a> {
    ghost use Rattle.std.specs.Prelude.{List};
    ghost use Rattle.shard_versions.specs.declared.entry.Entry.{Entry};

    ghost Value = { List Entry };

    ghost use Rattle.shard_versions.specs.contracts.entry.Entry as entry;
    ghost use Rattle.std.specs.Coded.{codes};

    ghost coded = { Prim.hlevel (codes, entry.the_row.coded) };

    ghost use Rattle.law_checks.specs.Written.{IsWritten};

    ghost view = { λ w. w.history.now };

    ghost invariant = { IsWritten };
}

impl<'a> Written<'a> {
    /// The history with its writes.
    pub(crate) fn of(alloc: Global, history: &'a [Entry]) -> Result<Written<'a>, Memory>
        ensures { IfOk result (λ written. written ≡ history.now) }
    {
        let mut writes = Vec::new(alloc);
        for entry in history {
            if !is_mark(&entry.kind) {
                writes.push(entry)?;
            }
        }
        Ok(Written {
            history,
            writes,
            top: top_of(history),
        })
    }

    /// The version of the last committed write, and 0 where there is none.
    pub(crate) fn top(&self) -> u64
        ensures { result ≡ top self.now }
    {
        self.top
    }

    /// The document that the write of this version left under this id.
    pub(crate) fn document(&self, version: u64, id: &str) -> Option<&'a Tuple>
        ensures { option_copied result ≡ left_under id.now (write_at version (slots self.now)) }
    {
        if version == 0 {
            return None;
        }
        match self.writes.get((version - 1) as usize) {
            Some(entry) => left_under(&entry.kind, id),
            None => None,
        }
    }
}

/// The histories with their writes.
pub(crate) fn written_of<'a>(alloc: Global, shards: &'a [Step]) -> Result<Vec<Written<'a>>, Memory>
    ensures { IfOk result (λ written. written.items ≡ shards.now) }
{
    let mut written = Vec::new(alloc);
    for history in shards {
        written.push(Written::of(alloc, history.as_slice())?)?;
    }
    Ok(written)
}

/// The history of the collection's shard to which the id routes; none where there is no such cell.
pub(crate) fn home<'b, 'a>(
    shards: &'b [Written<'a>],
    names: &[NameShards],
    collection: &str,
    id: &str,
) -> Option<&'b Written<'a>>
    ensures { unwrap_or (option_copied result) []
        ≡ get_or shards.now (cell_of names.now collection.now
        (shard_of (shards_of names.now collection.now) id.now)) [] }
{
    let home = home_shard(shards_of(names, collection), id);
    shards.get(cell_of(names, collection, home) as usize)
}
