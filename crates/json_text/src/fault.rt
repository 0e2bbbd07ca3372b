// Why a body isn't an update.
ghost use Rattle.std.specs.Prelude.{◌≡◌, ◌++◌, codes, decimal, IfOk};
ghost use Rattle.json_text.specs.declared.fault.JsonFault.TheVariants.{OutOfMemory};

use std::alloc::{AllocError, AllocFailed, Global};
use thiserror::Error;
use tuple_values::{Memory, Text};

/// Why a body isn't an update. A place counts the documents or ids of its list from 0.
#[derive(Debug, Drop, Error)]
pub enum JsonFault {
    /// The bytes are no JSON value, or one whose arrays and objects nest deeper than 127.
    #[error("NotJson")]
    NotJson,
    /// A document isn't an object, an id is neither a text nor a whole number, or an object of
    /// commands has another key or form.
    #[error("NotADocument {at}")]
    NotADocument { at: u64 },
    /// The first field, by bytes, whose value isn't one, or can't be of the kind of its name.
    #[error("NotWhole {at} {}", .field.as_str())]
    NotWhole { at: u64, field: Text },
    /// A document has no id or an empty one, or an object has none of the commands' keys.
    #[error("NoId {at}")]
    NoId { at: u64 },
    /// A document's size is above 1,048,576 counted bytes.
    #[error("DocTooLarge {at}")]
    DocTooLarge { at: u64 },
    /// An allocation was refused.
    #[error("out of memory")]
    OutOfMemory,
}

impl JsonFault {
    ghost use Rattle.json_text.specs.Faults.{fault_text};

    /// The fault's name, and then its place and its field, where it has them.
    pub fn text(&self, alloc: Global) -> Result<Text, Memory>
        ensures { IfOk result (λ text. text ≡ fault_text self.now) }
    {
        match self {
            JsonFault::NotJson => Text::of(alloc, "NotJson"),
            JsonFault::NotADocument { at } => placed(alloc, "NotADocument", *at),
            JsonFault::NotWhole { at, field } => {
                let field = field.as_str();
                let text = format!(in alloc; "NotWhole {at} {field}")?;
                Ok(Text::from_string(text))
            }
            JsonFault::NoId { at } => placed(alloc, "NoId", *at),
            JsonFault::DocTooLarge { at } => placed(alloc, "DocTooLarge", *at),
            JsonFault::OutOfMemory => Text::of(alloc, "out of memory"),
        }
    }
}

// A fault's name with its place.
fn placed(alloc: Global, name: &str, at: u64) -> Result<Text, Memory>
    ensures { IfOk result (λ text. text ≡ name.now ++ codes " " ++ decimal at) }
{
    let text = format!(in alloc; "{name} {at}")?;
    Ok(Text::from_string(text))
}

impl From<Memory> for JsonFault {
    ghost from_gives = { λ _ fault. fault ≡ OutOfMemory };

    fn from(_: Memory) -> Self {
        JsonFault::OutOfMemory
    }
}

impl From<AllocError> for JsonFault {
    ghost from_gives = { λ _ fault. fault ≡ OutOfMemory };

    fn from(_: AllocError) -> Self {
        JsonFault::OutOfMemory
    }
}

impl<T: Drop> From<AllocFailed<T>> for JsonFault {
    ghost from_gives = { λ _ fault. fault ≡ OutOfMemory };

    fn from(_: AllocFailed<T>) -> Self {
        JsonFault::OutOfMemory
    }
}
