// Why an expression isn't read.
ghost use Rattle.std.specs.Prelude.{◌≡◌, IfOk};
ghost use Rattle.expr_reader.specs.declared.fault.ExprFault.TheVariants.{OutOfMemory};

use std::alloc::Global;
use thiserror::Error;
use tuple_values::{Memory, Text};

/// Why bytes aren't read as an expression. A place counts bytes from 0.
#[derive(Clone, Copy, Debug, PartialEq, Eq, Error)]
pub enum ExprFault {
    /// There are more than 65,536 bytes, or the longest front with which some expression begins
    /// has 25 calls open at some place, or 201 calls in all.
    #[error("TooLarge")]
    TooLarge,
    /// The bytes are no expression. No expression begins with more of them than those before `at`.
    #[error("Syntax at {at}")]
    Syntax { at: u64 },
    /// An allocation was refused.
    #[error("out of memory")]
    OutOfMemory,
}

impl From<Memory> for ExprFault {
    ghost from_gives = { λ _ fault. fault ≡ OutOfMemory };

    fn from(_: Memory) -> Self {
        ExprFault::OutOfMemory
    }
}

impl ExprFault {
    ghost use Rattle.expr_reader.specs.Fault.{fault_text};

    /// What a reply says of the fault.
    pub fn text(&self, alloc: Global) -> Result<Text, Memory>
        ensures { IfOk result (λ text. text ≡ fault_text self.now) }
    {
        let text = match self {
            ExprFault::TooLarge => String::from_str(alloc, "TooLarge")?,
            ExprFault::Syntax { at } => format!(in alloc; "Syntax at {at}")?,
            ExprFault::OutOfMemory => String::from_str(alloc, "out of memory")?,
        };
        Ok(Text::from_string(text))
    }
}
