// The refusal of a call that can only want memory.
ghost use Rattle.std.specs.Prelude.{◌≡◌};
ghost use Rattle.tuple_values.specs.declared.memory.Memory.TheVariants.{OutOfMemory};

use std::alloc::{AllocError, AllocFailed};
use thiserror::Error;

/// Why a call that takes memory didn't answer.
#[derive(Clone, Copy, Debug, PartialEq, Eq, Error)]
pub enum Memory {
    /// An allocation was refused.
    #[error("out of memory")]
    OutOfMemory,
}

impl From<AllocError> for Memory {
    ghost from_gives = { λ _ fault. fault ≡ OutOfMemory };

    fn from(_: AllocError) -> Self {
        Memory::OutOfMemory
    }
}

impl<T: Drop> From<AllocFailed<T>> for Memory {
    ghost from_gives = { λ _ fault. fault ≡ OutOfMemory };

    fn from(_: AllocFailed<T>) -> Self {
        Memory::OutOfMemory
    }
}
