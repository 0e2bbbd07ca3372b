// Why a cell has no room.
ghost use Rattle.std.specs.Prelude.{◌≡◌};
ghost use Rattle.site_cells.specs.Refusals.{refusal_of};

use topic_book::{Binding, BookFault};

/// Why there is no room for what was to be appended to a cell. The cell is then as it was.
#[derive(Drop)]
pub enum CellRefusal {
    /// The counted bytes of the shard with the step's would pass its limit.
    ShardFull,
    /// The topic is bound to these values.
    TopicBound { kept: Binding },
    /// The topic isn't bound, and so many are, 1,000 or more.
    BookFull { topics: u64 },
    /// Memory is wanting.
    OutOfMemory,
}

/// The refusal of the book.
pub(crate) fn refusal_of(fault: BookFault) -> CellRefusal
    ensures { result ≡ refusal_of fault }
{
    match fault {
        BookFault::TopicBound { kept } => CellRefusal::TopicBound { kept },
        BookFault::BookFull { topics } => CellRefusal::BookFull { topics },
        BookFault::OutOfMemory => CellRefusal::OutOfMemory,
    }
}
