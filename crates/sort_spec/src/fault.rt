// Why a text isn't read as a sort, as pairs or as names.
ghost use Rattle.std.specs.Prelude.{◌≡◌, IfOk};
ghost use Rattle.sort_spec.specs.declared.fault.SortFault.TheVariants.{OutOfMemory};

use std::alloc::Global;
use thiserror::Error;
use tuple_values::{Memory, Text};

/// Why a text isn't read as a sort, as pairs or as names. A place counts bytes from 0.
#[derive(Clone, Copy, Debug, PartialEq, Eq, Error)]
pub enum SortFault {
    /// The text says none. No such text begins with more of its bytes than those before `at`.
    #[error("BadSort at {at}")]
    BadSort { at: u64 },
    /// An allocation was refused.
    #[error("out of memory")]
    OutOfMemory,
}

impl From<Memory> for SortFault {
    ghost from_gives = { λ _ fault. fault ≡ OutOfMemory };

    fn from(_: Memory) -> Self {
        SortFault::OutOfMemory
    }
}

impl SortFault {
    ghost use Rattle.sort_spec.specs.Fault.{fault_text};

    /// What a reply says of the fault.
    pub fn text(&self, alloc: Global) -> Result<Text, Memory>
        ensures { IfOk result (λ text. text ≡ fault_text self.now) }
    {
        let text = match self {
            SortFault::BadSort { at } => format!(in alloc; "BadSort at {at}")?,
            SortFault::OutOfMemory => String::from_str(alloc, "out of memory")?,
        };
        Ok(Text::from_string(text))
    }
}
