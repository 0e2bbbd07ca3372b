// What a cell of a site holds.
ghost use Rattle.std.specs.Prelude.{◌≡◌, ◌↔◌, ◌++◌, List, false, true, length, IfErr, OnErr, OnOk};
ghost use Rattle.tuple_values.specs.declared.names.NameShards.{NameShards};
ghost use Rattle.site_laws.specs.Sealings.{entries_of};
ghost use Rattle.site_cells.specs.Values.{about_of, log_in, CanReserve, HasRoomFor, IsOverLimit, IsRefused, IsTaken};

use crate::CellRefusal;
use crate::cell_refusal::refusal_of;
use shard_versions::{ShardFault, ShardState};
use site_laws::Sealing;
use topic_book::BookState;
use tuple_values::Sequence;

/// A shard, or the book.
#[derive(Drop)]
pub enum CellValue {
    Shard(ShardState),
    Book(BookState),
}

/// What the cells of a site hold, in the order of cells.
pub type CellValues = Sequence<CellValue>;

impl CellValue {
    /// Whether the counted bytes of the shard pass its limit with those of the step; never of the book.
    /// Takes no memory.
    pub fn is_over(&self, sealing: &Sealing) -> bool
        ensures { (result ≡ true) ↔ IsOverLimit self.now sealing.now }
    {
        match (self, sealing) {
            (CellValue::Shard(shard), Sealing::Shard(step)) => shard.is_over(step),
            (CellValue::Shard(_), Sealing::Book(_)) => false,
            (CellValue::Book(_), Sealing::Shard(_)) => false,
            (CellValue::Book(_), Sealing::Book(_)) => false,
        }
    }

    /// Makes room for one append of the sealing.
    pub fn reserve(&mut self, sealing: &Sealing) -> Result<(), CellRefusal>
        requires { CanReserve self.old sealing.now }
        ensures log { log_in self.new ≡ log_in self.old }
        ensures about { (names : List NameShards) → about_of names self.new
            ≡ about_of names self.old }
        ensures room { OnOk result (HasRoomFor self.new sealing.now) }
        ensures taken { OnOk result (IsTaken self.old sealing.now) }
        ensures err { OnErr result (self.new ≡ self.old) }
        ensures cause { IfErr result (λ refusal. IsRefused self.old sealing.now refusal) }
    {
        match (self, sealing) {
            (CellValue::Shard(shard), Sealing::Shard(step)) => match shard.reserve(step) {
                Ok(()) => Ok(()),
                Err(ShardFault::ShardFull) => Err(CellRefusal::ShardFull),
                Err(ShardFault::OutOfMemory) => Err(CellRefusal::OutOfMemory),
            },
            (CellValue::Book(book), Sealing::Book(entry)) => match book.reserve(entry) {
                Ok(()) => Ok(()),
                Err(fault) => Err(refusal_of(fault)),
            },
            (CellValue::Shard(_), Sealing::Book(_)) => unreachable!(),
            (CellValue::Book(_), Sealing::Shard(_)) => unreachable!(),
        }
    }

    /// Adds the sealing behind the entries. Takes no memory.
    pub fn append(&mut self, sealing: Sealing)
        requires { HasRoomFor self.old sealing }
        ensures log { log_in self.new ≡ log_in self.old ++ entries_of sealing }
        ensures about { (names : List NameShards) → about_of names self.new
            ≡ about_of names self.old }
    {
        match (self, sealing) {
            (CellValue::Shard(shard), Sealing::Shard(step)) => shard.append(step),
            (CellValue::Book(book), Sealing::Book(entry)) => book.append(entry),
            (CellValue::Shard(_), Sealing::Book(_)) => unreachable!(),
            (CellValue::Book(_), Sealing::Shard(_)) => unreachable!(),
        }
    }

    /// How many entries there are.
    pub fn len(&self) -> u64
        ensures { result ≡ length (log_in self.now) }
    {
        match self {
            CellValue::Shard(shard) => shard.len(),
            CellValue::Book(book) => book.len(),
        }
    }
}
