// The refusals of the book.
ghost use Rattle.std.specs.Prelude.{◌≡◌};
ghost use Rattle.topic_book.specs.declared.fault.BookFault.TheVariants.{OutOfMemory};

use crate::Binding;
use std::alloc::{AllocError, AllocFailed};
use thiserror::Error;
use tuple_values::Memory;

/// Why a topic isn't bound. The book is then as it was.
#[derive(Debug, Drop, Error)]
pub enum BookFault {
    /// The topic is bound to other values, which are these.
    #[error("TopicBound")]
    TopicBound { kept: Binding },
    /// The topic isn't bound, and 1,000 topics or more are, as many as this number.
    #[error("BookFull")]
    BookFull { topics: u64 },
    /// An allocation was refused.
    #[error("out of memory")]
    OutOfMemory,
}

impl From<Memory> for BookFault {
    ghost from_gives = { λ _ fault. fault ≡ OutOfMemory };

    fn from(_: Memory) -> Self {
        BookFault::OutOfMemory
    }
}

impl From<AllocError> for BookFault {
    ghost from_gives = { λ _ fault. fault ≡ OutOfMemory };

    fn from(_: AllocError) -> Self {
        BookFault::OutOfMemory
    }
}

impl<T: Drop> From<AllocFailed<T>> for BookFault {
    ghost from_gives = { λ _ fault. fault ≡ OutOfMemory };

    fn from(_: AllocFailed<T>) -> Self {
        BookFault::OutOfMemory
    }
}
