// A history as its coverage is checked.
ghost use Rattle.std.specs.Prelude.{◌≡◌, [], IfOk, get_or, option_copied, unwrap_or};
ghost use Rattle.shard_versions.specs.Deliveries.{admits};
ghost use Rattle.shard_versions.specs.Histories.{top, current};
ghost use Rattle.once_core.specs.Cells.{cell_of};
ghost use Rattle.law_checks.specs.Judged.{AreSentUpTo};
ghost use Rattle.law_checks.specs.Walks.{turned};

use crate::cells::cell_of;
use crate::greatest::Greatest;
use crate::judging::{is_above, tell};
use crate::walk::{Shown, shown_in};
use shard_versions::{Entry, Step, top_of};
use std::alloc::Global;
use std::marker::Model;
use tuple_values::{Memory, NameShards};

/// A history with its top, its current documents, and the greatest version that it sent of each source
/// and id.
pub(crate) struct Sight<'a> {
    history: &'a [Entry],
    top: u64,
    shown: Vec<Shown<'a>>,
    sent: Greatest<'a>,
}

impl Drop for Sight<'_> {
    fn drop(self) {
        let Sight {
            history: _,
            top: _,
            shown,
            sent,
        } = self;
        drop(shown);
        drop(sent);
    }
}

impl<'a> Model for Sight<'a> {
    ghost use Rattle.std.specs.Prelude.{List};
    ghost use Rattle.shard_versions.specs.declared.entry.Entry.{Entry};

    ghost Value = { List Entry };

    ghost use Rattle.shard_versions.specs.contracts.entry.Entry as entry;
    ghost use Rattle.std.specs.Coded.{codes};

    ghost coded = { Prim.hlevel (codes, entry.the_row.coded) };

    ghost use Rattle.law_checks.specs.Sights.{IsSight};

    ghost view = { λ s. s.history.now };

    ghost invariant = { IsSight };
}

impl<'a> Sight<'a> {
    /// The history as its coverage is checked. Takes n log n steps for n entries.
    pub(crate) fn of(alloc: Global, history: &'a [Entry]) -> Result<Sight<'a>, Memory>
        ensures { IfOk result (λ sight. sight ≡ history.now) }
    {
        let shown = shown_in(alloc, history)?;
        let sent = sent_in(alloc, history)?;
        Ok(Sight {
            history,
            top: top_of(history),
            shown,
            sent,
        })
    }

    /// The version of the last committed write, and 0 where there is none.
    pub(crate) fn top(&self) -> u64
        ensures { result ≡ top self.now }
    {
        self.top
    }

    /// The current documents, the last one first.
    pub(crate) fn shown(&self) -> &[Shown<'a>]
        ensures { turned result.now [] ≡ current self.now }
    {
        &self.shown
    }

    /// Whether each version that was sent of the source and id is below this one.
    pub(crate) fn admits(&self, src: &'a str, id: &'a str, version: u64) -> bool
        ensures { result ≡ admits self.now src.now id.now version }
    {
        is_above(&self.sent, src, id, version)
    }
}

// The greatest version that the history sent of each source and id.
fn sent_in<'a>(alloc: Global, history: &'a [Entry]) -> Result<Greatest<'a>, Memory>
    ensures { IfOk result (λ sent. AreSentUpTo sent history.now) }
{
    let mut sent = Greatest::none(alloc);
    for entry in history {
        tell(&mut sent, &entry.kind)?;
    }
    Ok(sent)
}

/// The histories as their coverage is checked.
pub(crate) fn sights_of<'a>(alloc: Global, shards: &'a [Step]) -> Result<Vec<Sight<'a>>, Memory>
    ensures { IfOk result (λ sights. sights.items ≡ shards.now) }
{
    let mut sights = Vec::new(alloc);
    for history in shards {
        sights.push(Sight::of(alloc, history.as_slice())?)?;
    }
    Ok(sights)
}

/// The history of the collection's shard; none where there is no such cell.
pub(crate) fn sight_at<'b, 'a>(
    sights: &'b [Sight<'a>],
    names: &[NameShards],
    collection: &str,
    shard: u32,
) -> Option<&'b Sight<'a>>
    ensures { unwrap_or (option_copied result) []
        ≡ get_or sights.now (cell_of names.now collection.now shard) [] }
{
    sights.get(cell_of(names, collection, shard) as usize)
}
