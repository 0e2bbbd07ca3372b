// Why words aren't read.
ghost use Rattle.std.specs.Prelude.{◌≡◌};
ghost use Rattle.command_words.specs.declared.fault.WordsFault.TheVariants.{OutOfMemory};

use thiserror::Error;
use tuple_values::{Memory, Text};

/// Why words aren't read.
#[derive(Debug, Drop, Error)]
pub enum WordsFault {
    /// The words ask for this text, of help or of the version.
    #[error("a text is shown")]
    Shown { text: Text },
    /// The words say nothing, and this text tells why.
    #[error("words refused")]
    RefusedBy { text: Text },
    /// The words say nothing.
    #[error("words refused")]
    Refused,
    /// An allocation was refused.
    #[error("out of memory")]
    OutOfMemory,
}

impl From<Memory> for WordsFault {
    ghost from_gives = { λ _ fault. fault ≡ OutOfMemory };

    fn from(_: Memory) -> Self {
        WordsFault::OutOfMemory
    }
}
