// Why an expression isn't evaluated.
ghost use Rattle.std.specs.Prelude.{◌≡◌};
ghost use Rattle.expr_text.specs.declared.fault.TextFault.TheVariants.{OutOfMemory};

use thiserror::Error;
use tuple_values::{Memory, Text};

/// Why an expression isn't evaluated.
#[derive(Debug, Drop, Error)]
pub enum TextFault {
    /// It has a fault, of which a reply says this.
    #[error("the expression has a fault")]
    Told(Text),
    /// An allocation was refused.
    #[error("out of memory")]
    OutOfMemory,
}

impl From<Memory> for TextFault {
    ghost from_gives = { λ _ fault. fault ≡ OutOfMemory };

    fn from(_: Memory) -> Self {
        TextFault::OutOfMemory
    }
}
