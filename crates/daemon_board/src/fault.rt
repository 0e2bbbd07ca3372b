// The refusals of a board.
ghost use Rattle.std.specs.Prelude.{◌≡◌};
ghost use Rattle.daemon_board.specs.declared.fault.BoardFault.TheVariants.{OutOfMemory};

use std::alloc::{AllocError, AllocFailed};
use thiserror::Error;
use tuple_values::{Memory, Text};

/// Why a call of a board did nothing. The board is then as it was.
#[derive(Debug, Drop, Error)]
pub enum BoardFault {
    /// There is a daemon with this id.
    #[error("DaemonTaken")]
    DaemonTaken { id: Text },
    /// No daemon has the id.
    #[error("UnknownDaemon")]
    UnknownDaemon,
    /// There are 256 daemons, or 2^64-1 were put on the board.
    #[error("BoardFull")]
    BoardFull,
    /// An allocation was refused.
    #[error("out of memory")]
    OutOfMemory,
}

impl From<Memory> for BoardFault {
    ghost from_gives = { λ _ fault. fault ≡ OutOfMemory };

    fn from(_: Memory) -> Self {
        BoardFault::OutOfMemory
    }
}

impl From<AllocError> for BoardFault {
    ghost from_gives = { λ _ fault. fault ≡ OutOfMemory };

    fn from(_: AllocError) -> Self {
        BoardFault::OutOfMemory
    }
}

impl<T: Drop> From<AllocFailed<T>> for BoardFault {
    ghost from_gives = { λ _ fault. fault ≡ OutOfMemory };

    fn from(_: AllocFailed<T>) -> Self {
        BoardFault::OutOfMemory
    }
}
