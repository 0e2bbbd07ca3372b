// Why a writer is refused at a cell.
ghost use Rattle.std.specs.Prelude.{◌≡◌};
ghost use Rattle.stream_site.specs.Refusals.{unadded, unseen};
ghost use Rattle.stream_site.specs.Topics.{fault_of};

use crate::SiteFault;
use topic_book::BookFault;

/// Why a writer wasn't shown a cell.
#[derive(Clone, Copy)]
pub enum LookRefusal {
    /// The cell, which is this one, is closed.
    Closed { cell: u32 },
    /// There was no room for the look, or the looks at the cell can't be counted any further.
    OutOfMemory,
}

/// Why a step wasn't appended to a shard, or was and can't be acknowledged.
#[derive(Clone, Copy)]
pub enum StepRefusal {
    /// The counted bytes of the shard with the step's would pass the limit.
    ShardFull,
    /// An append to the cell's log failed. So many writes of the step stand: all, or none.
    Broken { writes: u64 },
    /// An allocation was refused.
    OutOfMemory,
}

/// Why an entry wasn't added to the book, or was and can't be acknowledged.
#[derive(Drop)]
pub enum EntryRefusal {
    /// The book refused it.
    Book(BookFault),
    /// An append to the book's log failed. The entry stands, or it doesn't.
    Broken,
}

/// The refusal of a look as that of a call, so many of whose writes stand.
pub(crate) fn unseen(refusal: LookRefusal, stand: u64) -> SiteFault
    ensures { result ≡ unseen stand refusal }
{
    match refusal {
        LookRefusal::Closed { cell } => SiteFault::CellClosed { cell, stand },
        LookRefusal::OutOfMemory => SiteFault::OutOfMemory { stand },
    }
}

/// Where the call has appended no write.
impl From<LookRefusal> for SiteFault {
    ghost from_gives = { λ refusal fault. fault ≡ unseen 0 refusal };

    fn from(refusal: LookRefusal) -> Self {
        unseen(refusal, 0)
    }
}

/// The refusal of the book as that of a call that appends no write.
fn fault_of(fault: BookFault) -> SiteFault
    ensures { result ≡ fault_of fault }
{
    match fault {
        BookFault::TopicBound { kept } => SiteFault::TopicBound { kept },
        BookFault::BookFull { topics } => SiteFault::BookFull { topics },
        BookFault::OutOfMemory => SiteFault::OutOfMemory { stand: 0 },
    }
}

/// The refusal of an entry as that of a call that appends no write, with the book's cell.
pub(crate) fn unadded(cell: u32, refusal: EntryRefusal) -> SiteFault
    ensures { result ≡ unadded cell refusal }
{
    match refusal {
        EntryRefusal::Book(fault) => fault_of(fault),
        EntryRefusal::Broken => SiteFault::LogFault { cell, stand: 0 },
    }
}
