// The refusals of a shard.
ghost use Rattle.std.specs.Prelude.{◌≡◌};
ghost use Rattle.shard_versions.specs.declared.fault.ShardFault.TheVariants.{OutOfMemory};

use std::alloc::{AllocError, AllocFailed};
use thiserror::Error;
use tuple_values::Memory;

/// Why a step has no room. The history is then as it was.
#[derive(Clone, Copy, Debug, PartialEq, Eq, Error)]
pub enum ShardFault {
    /// The counted bytes with this step's would pass the limit.
    #[error("ShardFull")]
    ShardFull,
    /// An allocation was refused.
    #[error("out of memory")]
    OutOfMemory,
}

impl From<Memory> for ShardFault {
    ghost from_gives = { λ _ fault. fault ≡ OutOfMemory };

    fn from(_: Memory) -> Self {
        ShardFault::OutOfMemory
    }
}

impl From<AllocError> for ShardFault {
    ghost from_gives = { λ _ fault. fault ≡ OutOfMemory };

    fn from(_: AllocError) -> Self {
        ShardFault::OutOfMemory
    }
}

impl<T: Drop> From<AllocFailed<T>> for ShardFault {
    ghost from_gives = { λ _ fault. fault ≡ OutOfMemory };

    fn from(_: AllocFailed<T>) -> Self {
        ShardFault::OutOfMemory
    }
}
