// Why a text isn't read as a query.
ghost use Rattle.std.specs.Prelude.{◌≡◌, IfOk};
ghost use Rattle.query_syntax.specs.declared.fault.QueryFault.TheVariants.{OutOfMemory};

use std::alloc::Global;
use thiserror::Error;
use tuple_values::{Memory, Text};

/// Why a text isn't read as a query. A place counts bytes from 0.
#[derive(Clone, Copy, Debug, PartialEq, Eq, Error)]
pub enum QueryFault {
    /// The text is no query. No query begins with more of its bytes than those before `at`.
    #[error("BadQuery at {at}")]
    BadQuery { at: u64 },
    /// An allocation was refused.
    #[error("out of memory")]
    OutOfMemory,
}

impl From<Memory> for QueryFault {
    ghost from_gives = { λ _ fault. fault ≡ OutOfMemory };

    fn from(_: Memory) -> Self {
        QueryFault::OutOfMemory
    }
}

impl QueryFault {
    ghost use Rattle.query_syntax.specs.Fault.{fault_text};

    /// What a reply says of the fault.
    pub fn text(&self, alloc: Global) -> Result<Text, Memory>
        ensures { IfOk result (λ text. text ≡ fault_text self.now) }
    {
        let text = match self {
            QueryFault::BadQuery { at } => format!(in alloc; "BadQuery at {at}")?,
            QueryFault::OutOfMemory => String::from_str(alloc, "out of memory")?,
        };
        Ok(Text::from_string(text))
    }
}
