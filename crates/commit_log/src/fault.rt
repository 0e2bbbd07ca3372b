// Why a log refused.
ghost use Rattle.std.specs.Prelude.{◌≡◌};
ghost use Rattle.commit_log.specs.declared.fault.LogFault.TheVariants.{DiskFault, OutOfMemory};

use disk_edge::DiskFailed;
use std::alloc::{AllocError, AllocFailed};
use thiserror::Error;
use tuple_values::Memory;

/// Why a log refused.
#[derive(Clone, Copy, Debug, PartialEq, Eq, Error)]
pub enum LogFault {
    /// The disk failed in this call.
    #[error("disk fault")]
    DiskFault,
    /// At this place of the file, in bytes from 0, no step can be read.
    #[error("damaged at {at}")]
    Damaged { at: u64 },
    /// An allocation was refused.
    #[error("out of memory")]
    OutOfMemory,
}

impl From<DiskFailed> for LogFault {
    ghost from_gives = { λ _ fault. fault ≡ DiskFault };

    fn from(_: DiskFailed) -> Self {
        LogFault::DiskFault
    }
}

impl From<Memory> for LogFault {
    ghost from_gives = { λ _ fault. fault ≡ OutOfMemory };

    fn from(_: Memory) -> Self {
        LogFault::OutOfMemory
    }
}

impl From<AllocError> for LogFault {
    ghost from_gives = { λ _ fault. fault ≡ OutOfMemory };

    fn from(_: AllocError) -> Self {
        LogFault::OutOfMemory
    }
}

impl<T: Drop> From<AllocFailed<T>> for LogFault {
    ghost from_gives = { λ _ fault. fault ≡ OutOfMemory };

    fn from(_: AllocFailed<T>) -> Self {
        LogFault::OutOfMemory
    }
}
