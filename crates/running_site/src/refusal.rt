// Why a sealing isn't acknowledged.
ghost use Rattle.std.specs.Prelude.{◌≡◌};
ghost use Rattle.running_site.specs.Seals.{book_fault_of, step_refusal_of, unsealed_entry_of, unsealed_of, IsBookRefusal, IsForBook, IsForShard, IsShardRefusal};

use site_cells::CellRefusal;
use stream_site::{EntryRefusal, StepRefusal};
use topic_book::BookFault;

/// Why a sealing isn't acknowledged.
#[derive(Drop)]
pub(crate) enum SealRefusal {
    /// There was no room for it.
    NoRoom(CellRefusal),
    /// The append to the cell's log failed. So many writes of the sealing stand.
    Broken { writes: u64 },
}

/// Why a shard made no room, as the refusal of a step.
fn step_refusal(refusal: CellRefusal) -> StepRefusal
    requires { IsShardRefusal refusal }
    ensures { result ≡ step_refusal_of refusal }
{
    match refusal {
        CellRefusal::ShardFull => StepRefusal::ShardFull,
        CellRefusal::TopicBound { kept: _ } => unreachable!(),
        CellRefusal::BookFull { topics: _ } => unreachable!(),
        CellRefusal::OutOfMemory => StepRefusal::OutOfMemory,
    }
}

/// Why a shard's step isn't acknowledged.
pub(crate) fn unsealed(refusal: SealRefusal) -> StepRefusal
    requires { IsForShard refusal }
    ensures { result ≡ unsealed_of refusal }
{
    match refusal {
        SealRefusal::NoRoom(refusal) => step_refusal(refusal),
        SealRefusal::Broken { writes } => StepRefusal::Broken { writes },
    }
}

/// Why the book made no room, as the book's fault.
fn book_fault(refusal: CellRefusal) -> BookFault
    requires { IsBookRefusal refusal }
    ensures { result ≡ book_fault_of refusal }
{
    match refusal {
        CellRefusal::ShardFull => unreachable!(),
        CellRefusal::TopicBound { kept } => BookFault::TopicBound { kept },
        CellRefusal::BookFull { topics } => BookFault::BookFull { topics },
        CellRefusal::OutOfMemory => BookFault::OutOfMemory,
    }
}

/// Why the book's entry isn't acknowledged.
pub(crate) fn unsealed_entry(refusal: SealRefusal) -> EntryRefusal
    requires { IsForBook refusal }
    ensures { result ≡ unsealed_entry_of refusal }
{
    match refusal {
        SealRefusal::NoRoom(refusal) => EntryRefusal::Book(book_fault(refusal)),
        SealRefusal::Broken { writes: _ } => EntryRefusal::Broken,
    }
}
