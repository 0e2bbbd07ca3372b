// The current documents of a history, by a walk from its end.
ghost use Rattle.std.specs.Prelude.{◌≡◌, ◌++◌, ◌∷◌, [], IfOk, OnOk, option_copied};
ghost use Rattle.shard_versions.specs.declared.entry.Entry.{Entry};
ghost use Rattle.shard_versions.specs.Histories.{History, current};
ghost use Rattle.law_checks.specs.Walks.{turned, shown_with, IsWalked};

use crate::id_set::IdSet;
use crate::judging::settled;
use crate::kinds::{left, written_id};
use shard_versions::{Entry, top_of};
use std::alloc::Global;
use tuple_values::{Memory, Tuple};

/// A current document, as it stands in its entry, and its version.
#[derive(Clone, Copy)]
pub(crate) struct Shown<'a> {
    pub(crate) version: u64,
    pub(crate) document: &'a Tuple,
}

/// A walk over committed writes, from the last one on: the version of the next one, the ids that it
/// came by, and the documents that are current.
#[derive(Drop)]
struct Walk<'a> {
    version: u64,
    ids: IdSet<'a>,
    shown: Vec<Shown<'a>>,
}

/// The current documents of a history, the last one first. Takes n log n steps for n entries.
pub(crate) fn shown_in<'a>(alloc: Global, history: &'a [Entry]) -> Result<Vec<Shown<'a>>, Memory>
    ensures { IfOk result (λ shown. turned shown.items [] ≡ current history.now) }
{
    let entries = settled(history);
    let mut walk = Walk {
        version: top_of(history),
        ids: IdSet::new(alloc),
        shown: Vec::new(alloc),
    };
    for at in (0..entries.len()).rev() {
        walk.take(&entries[at])?;
    }
    let Walk {
        version: _,
        ids,
        shown,
    } = walk;
    drop(ids);
    Ok(shown)
}

impl<'a> Walk<'a> {
    // Takes the entry before those that were taken.
    fn take(&mut self, entry: &'a Entry) -> Result<(), Memory>
        ensures { OnOk result ((before rest : History)
            → IsWalked self.old (before ++ entry.now ∷ []) rest
            → IsWalked self.new before (entry.now ∷ rest)) }
    {
        match written_id(&entry.kind) {
            Some(id) => {
                let new = self.ids.add(id)?;
                show(&mut self.shown, new, self.version, left(&entry.kind))?;
                self.version = self.version.saturating_sub(1);
                Ok(())
            }
            None => Ok(()),
        }
    }
}

// Notes the document that a write in this version left, where no later one is of its id.
fn show<'a>(
    shown: &mut Vec<Shown<'a>>,
    new: bool,
    version: u64,
    left: Option<&'a Tuple>,
) -> Result<(), Memory>
    ensures { OnOk result (turned shown.new.items []
        ≡ shown_with new (option_copied left.entry) version ++ turned shown.old.items []) }
{
    if !new {
        return Ok(());
    }
    match left {
        Some(document) => {
            shown.push(Shown { version, document })?;
            Ok(())
        }
        None => Ok(()),
    }
}
