// Which steps may be made in a cell.
ghost use Rattle.std.specs.Prelude.{◌≡◌, Decides};
ghost use Rattle.std.specs.List.{AllByRecursion};
ghost use Rattle.shard_versions.specs.Deliveries.{is_plain, is_sent_of, ArePlain, AreSentsOf};
ghost use Rattle.once_core.specs.Cells.{place_of};
ghost use Rattle.once_core.specs.Law.{IsFitCell};
ghost use Rattle.once_core.specs.Allowed.{IsStep, IsElsewhere};

use crate::Histories;
use crate::cells::place_of;
use shard_versions::{Entry, Kind, Step, are_fit};
use tuple_values::NameShards;

// Whether each entry carries the actor's number.
#[tactic(auto, using(crate::proofs::StepLemmas::own_steps))]
fn are_by(entries: &[Entry], actor: u64) -> bool
    ensures { Decides result (AllByRecursion (λ e. e.by ≡ actor) entries.now) }
{
    for entry in entries {
        if entry.by != actor {
            return false;
        }
    }
    true
}

// Whether the cell is at a place that may have the step.
#[tactic(auto, unfolding(crate::specs::Law::IsFitCell))]
fn fits_cell(names: &[NameShards], cell: u32, step: &Step) -> bool
    ensures { Decides result (IsFitCell names.now cell step.now) }
{
    match place_of(names, cell) {
        Some(place) => are_fit(step, place.collection.shards, place.shard),
        None => step.len() == 0,
    }
}

/// Whether the actor may make the step in the cell, but for what its entries do.
pub(crate) fn is_step(
    names: &[NameShards],
    histories: &Histories,
    actor: u64,
    cell: u32,
    step: &Step,
) -> bool
    ensures { Decides result (IsStep names.now histories.now actor cell step.now) }
{
    step.len() > 0
        && (cell as usize) < histories.shards.len()
        && fits_cell(names, cell, step)
        && are_by(step.as_slice(), actor)
}

fn is_plain(kind: &Kind) -> bool
    ensures { result ≡ is_plain kind.now }
{
    match kind {
        Kind::Sent { .. } => false,
        Kind::Put(_) => true,
        Kind::Del(_) => true,
        Kind::Mark => true,
    }
}

/// Whether none of the entries is a delivery.
#[tactic(auto, using(shard_versions::proofs::FitLemmas::each_steps), unfolding(shard_versions::specs::Deliveries::ArePlain))]
pub(crate) fn are_plain(entries: &[Entry]) -> bool
    ensures { Decides result (ArePlain entries.now) }
{
    for entry in entries {
        if !is_plain(&entry.kind) {
            return false;
        }
    }
    true
}

fn is_sent_of(kind: &Kind, src: &str) -> bool
    ensures { result ≡ is_sent_of src.now kind.now }
{
    match kind {
        Kind::Sent { src: from, .. } => src == from.as_str(),
        Kind::Put(_) => false,
        Kind::Del(_) => false,
        Kind::Mark => false,
    }
}

/// Whether each of the entries is a delivery from this source.
#[tactic(auto, using(shard_versions::proofs::FitLemmas::each_steps), unfolding(shard_versions::specs::Deliveries::AreSentsOf))]
pub(crate) fn are_sents_of(entries: &[Entry], src: &str) -> bool
    ensures { Decides result (AreSentsOf src.now entries.now) }
{
    for entry in entries {
        if !is_sent_of(&entry.kind, src) {
            return false;
        }
    }
    true
}

/// Whether the cell isn't one of this collection.
pub(crate) fn is_elsewhere(names: &[NameShards], cell: u32, collection: &str) -> bool
    ensures { Decides result (IsElsewhere (place_of names.now cell) collection.now) }
{
    match place_of(names, cell) {
        Some(place) => place.collection.name.as_str() != collection,
        None => true,
    }
}
