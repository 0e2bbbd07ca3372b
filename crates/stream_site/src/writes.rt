// Tests of what an update writes.
ghost use Rattle.std.specs.Prelude.{◌≡◌, Decides};
ghost use Rattle.shard_versions.specs.Fitness.{is_storable_kind};
ghost use Rattle.exchange_rules.specs.Steps.{AreStorableWrites, kind_of};

use shard_versions::is_storable;
use tuple_values::{Write, Writes};

fn is_storable_write(write: &Write) -> bool
    ensures { result ≡ is_storable_kind (kind_of write.now) }
{
    match write {
        Write::Put(document) => is_storable(document),
        Write::Del(_) => true,
    }
}

/// Whether each document of the writes has an id, no group and no version of its own.
#[tactic(auto, using(crate::proofs::WriteLemmas::write_steps))]
pub fn are_storable_writes(writes: &Writes) -> bool
    ensures { Decides result (AreStorableWrites writes.now) }
{
    for write in writes.as_slice() {
        if !is_storable_write(write) {
            return false;
        }
    }
    true
}
