// The first breach of the law.
ghost use Rattle.std.specs.Prelude.{IfOk};
ghost use Rattle.law_checks.specs.Breaches.{IsFirstBreach, BreachesExcludeTheLaw};
ghost use Rattle.law_checks.specs.Plausible.{ArePlausible};

use crate::{Breach, first_bad_sent, first_uncovered};
use once_core::Histories;
use std::alloc::Global;
use tuple_values::{Memory, Names};

/// Where the histories break the law first: at a Sent, by cells and then by places, and where no Sent
/// breaks it at a checkpoint, in the order in which topics are bound and then by shards. Takes the
/// steps and the memory of `first_bad_sent` and of `first_uncovered`, one after the other.
pub fn first_breach(
    alloc: Global,
    names: &Names,
    histories: &Histories,
) -> Result<Option<Breach>, Memory>
    requires fit { ArePlausible names.now histories.now }
    ensures { IfOk result (λ breach. IsFirstBreach names.now histories.now breach) }
{
    match first_bad_sent(alloc, names, histories)? {
        Some((cell, entry)) => Ok(Some(Breach::BadSent { cell, entry })),
        None => match first_uncovered(alloc, names, histories)? {
            Some((key, shard, upto)) => Ok(Some(Breach::Uncovered { key, shard, upto })),
            None => Ok(None),
        },
    }
}

/// Where a breach is found the law doesn't hold.
pub fn breaches_exclude_the_law()
    ensures { BreachesExcludeTheLaw }
{}
