// A walk over a history, from its end.
ghost use Rattle.std.specs.Prelude.{◌≡◌, ◌+◌, ◌<◌, ◌^◌, [], drop, length, option_copied, IfOk, OnOk};
ghost use Rattle.shard_versions.specs.Indexes.{left_of, written_id};
ghost use Rattle.load_rules.specs.Summary.{tally_of};
ghost use Rattle.load_rules.specs.Walks.{AreBelow, IsCount, IsLow, IsWalked, Notes};

use crate::counts::Counts;
use shard_versions::{Entry, Kind, id_of};
use std::alloc::Global;
use std::collections::BTreeSet;
use tuple_values::{Memory, Tuple};

/// What a walk has counted, with the ids of the committed writes that it came by.
#[derive(Drop)]
struct Walk<'a> {
    counts: Counts,
    marked: bool,
    ids: BTreeSet<&'a str>,
}

/// What is counted of a shard with this history.
pub(crate) fn counts_of(alloc: Global, history: &[Entry]) -> Result<Counts, Memory>
    ensures counts { IfOk result (IsCount (tally_of history.now)) }
    ensures low { IfOk result (AreBelow (2 ^ 126)) }
{
    let mut walk = Walk::new(alloc);
    for at in (0..history.len()).rev() {
        walk.take(history, at)?;
    }
    // A set has fewer than 2^63 ids, so the sums of four shards fit.
    let _ = walk.ids.len();
    Ok(walk.counts)
}

impl<'a> Walk<'a> {
    // No entry was taken.
    fn new(alloc: Global) -> Self
        ensures low { IsLow result }
        ensures walked { IsWalked result [] }
    {
        Walk {
            counts: Counts::none(),
            marked: false,
            ids: BTreeSet::new(alloc),
        }
    }

    // Takes the entry before those that were taken.
    fn take(&mut self, history: &'a [Entry], at: usize) -> Result<(), Memory>
        requires within { at < length history.now }
        requires few { length history.now < 2 ^ 64 }
        requires low { IsLow self.old }
        requires walked { IsWalked self.old (drop (at + 1) history.now) }
        ensures low { OnOk result (IsLow self.new) }
        ensures walked { OnOk result (IsWalked self.new (drop at history.now)) }
    {
        let kind = &history[at].kind;
        match written_id(kind) {
            None => self.marked = true,
            Some(id) => {
                self.counts.writes += 1;
                if self.marked {
                    self.note(id, left(kind))?;
                }
            }
        }
        Ok(())
    }

    // Notes a committed write of this id, which counts where no later one is of its id.
    fn note(&mut self, id: &'a str, left: Option<&Tuple>) -> Result<(), Memory>
        requires { IsLow self.old }
        ensures low { OnOk result (IsLow self.new) }
        ensures noted { OnOk result (Notes id.now (option_copied left.entry) self.old self.new) }
    {
        // A set has fewer than 2^63 ids, so the sums fit.
        let _ = self.ids.len();
        if !self.ids.insert(id)? {
            return Ok(());
        }
        if let Some(document) = left {
            self.counts.add(document);
        }
        Ok(())
    }
}

// The id that the entry writes.
fn written_id(kind: &Kind) -> Option<&str>
    ensures { option_copied result ≡ written_id kind.now }
{
    match kind {
        Kind::Put(document) => Some(id_of(document)),
        Kind::Del(id) => Some(id.as_str()),
        Kind::Sent { document, .. } => Some(id_of(document)),
        Kind::Mark => None,
    }
}

// The document that the entry leaves at its id.
fn left(kind: &Kind) -> Option<&Tuple>
    ensures { option_copied result ≡ left_of kind.now }
{
    match kind {
        Kind::Put(document) => Some(document),
        Kind::Sent { document, .. } => Some(document),
        Kind::Del(_) => None,
        Kind::Mark => None,
    }
}
