// A cell of a site that may have a log.
ghost use Rattle.std.specs.Prelude.{◌≡◌, ◌↔◌, false, None, Some, true};
ghost use Rattle.site_cells.specs.Values.{about_of, log_in, IsOverLimit};
ghost use Rattle.logged_cells.specs.Cells.{about_in, is_closed, log_of_cell, value_of, IsSettled};
ghost use Rattle.logged_cells.specs.Steps.{IsInStep};

use crate::LoggedRefusal;
use crate::writing::{room_alone, room_in};
use commit_log::Log;
use disk_edge::Disk;
use exchange_rules::LogEntry;
use shard_versions::ShardState;
use site_cells::CellValue;
use site_laws::{CellAbout, Sealing};
use std::alloc::Global;
use std::snapshot::Snapshot;
use topic_book::BookState;
use tuple_values::Names;
use turn_table::CellState;

/// What is told where a step got room, and stands in the log.
#[derive(Clone, Copy, Drop)]
pub enum Made {
    Clean,
    /// The log failed, and was opened again.
    Broke,
}

/// A shard or the book of a site, which is told the site's collections, and the log of its steps, if it has
/// one.
#[derive(Drop)]
pub struct LoggedCell<D> {
    pub(crate) alloc: Global,
    pub(crate) names: Snapshot<Names>,
    pub(crate) value: CellValue,
    pub(crate) log: Option<Log<D>>,
}

impl<D: Disk> CellState for LoggedCell<D> {
    ghost use Rattle.exchange_rules.specs.Cells.{author_of};
    ghost use Rattle.site_laws.specs.Sealings.{entries_of, names_told, MayAppend};
    ghost use Rattle.site_laws.proofs.LookLemmas.{look-covered, look-stays};
    ghost use Rattle.site_laws.proofs.SealingLemmas.{sealing-keeps, sealing-signed};
    ghost use Rattle.site_cells.specs.Values.{law_of, tells_of, CanReserve, IsTaken};
    ghost use Rattle.logged_cells.specs.Answers.{is_broken, is_log_fault, IsCause};
    ghost use Rattle.logged_cells.specs.Cells.{about_in, faults_of, is_closed, log_of_cell, HasRoom, IsSettled};

    type About = CellAbout;

    type Entry = LogEntry;

    type Sealing = Sealing;

    type Made = Made;

    type Refusal = LoggedRefusal;

    ghost about = { about_in };

    ghost history = { log_of_cell };

    ghost can_reserve = { λ cell sealing. CanReserve cell.value sealing };

    ghost room = { λ cell by sealing. HasRoom D.seen D.may_leave cell sealing };

    ghost takes = { λ cell sealing. IsTaken cell.value sealing };

    ghost refuses = { λ cell sealing refusal. IsCause cell.value sealing refusal };

    ghost settled = { IsSettled D.seen D.may_leave };

    ghost is_shut = { is_closed };

    ghost fault_count = { faults_of D.faults };

    ghost broke = { is_broken };

    ghost log_failed = { is_log_fault };

    ghost writer = { author_of };

    ghost entries = { λ by sealing. entries_of sealing };

    ghost law = { law_of };

    ghost allows = { λ abouts by seen cell sealing.
        MayAppend (names_told abouts) by seen cell sealing };

    ghost tells = { tells_of };

    fn reserve(&mut self, by: u64, sealing: &Sealing) -> Result<Made, LoggedRefusal> {
        let _by = by;
        match &mut self.log {
            Some(log) => room_in(self.alloc, &mut self.value, log, sealing),
            None => room_alone(&mut self.value, sealing),
        }
    }

    fn append(&mut self, by: u64, sealing: Sealing) {
        let _by = by;
        self.value.append(sealing);
    }

    fn shut(&self) -> bool {
        match &self.log {
            Some(log) => log.is_shut(),
            None => false,
        }
    }

    fn faults(&self) -> u64 {
        match &self.log {
            Some(log) => log.faults(),
            None => 0,
        }
    }

    fn len(&self) -> u64 {
        self.value.len()
    }

    ghost keeps = { λ abouts by logs seen cell sealing law prefixes low whole may.
        sealing-keeps (names_told abouts) by logs seen cell sealing law
        (record { before = prefixes; all = whole }) may };

    ghost looks = { λ abouts logs seen cell law prefixes low whole.
        look-covered (names_told abouts) logs seen cell law prefixes whole };

    ghost lasts = { λ abouts cell seen logs later told prefixes law.
        look-stays (names_told abouts) cell seen logs later told prefixes };

    ghost signed = { λ abouts by seen cell sealing may.
        sealing-signed (names_told abouts) by seen cell sealing may };
}

impl<D: Disk> LoggedCell<D> {
    /// A cell of a site of these collections that has no log.
    pub fn alone(alloc: Global, names: &Names, value: CellValue) -> LoggedCell<D>
        ensures about { about_in result ≡ about_of names.now value }
        ensures entries { log_of_cell result ≡ log_in value }
        ensures log { result.log ≡ None }
    {
        LoggedCell {
            alloc,
            names: Snapshot::of(names),
            value,
            log: None,
        }
    }

    /// A cell with a log that has just the value's entries, and waits for nothing.
    pub fn logged(alloc: Global, names: &Names, value: CellValue, log: Log<D>) -> LoggedCell<D>
        requires { ∥ IsInStep D.seen D.may_leave value log ∥₁ }
        ensures about { about_in result ≡ about_of names.now value }
        ensures entries { log_of_cell result ≡ log_in value }
        ensures log { result.log ≡ Some log }
        ensures sound { IsSettled D.seen D.may_leave result × (is_closed result ≡ false) }
    {
        LoggedCell {
            alloc,
            names: Snapshot::of(names),
            value,
            log: Some(log),
        }
    }

    /// The value, and the log if there is one.
    pub fn into_parts(self) -> (CellValue, Option<Log<D>>)
        ensures { result ≡ (self.value, self.log) }
    {
        let LoggedCell {
            alloc: _,
            names: _,
            value,
            log,
        } = self;
        (value, log)
    }

    /// The shard of a cell that isn't the book's.
    pub fn shard(&self) -> &ShardState
        requires { (about_in self.now).is_book ≡ false }
        ensures { value_of self.now ≡ CellValue.Shard result.now }
    {
        match &self.value {
            CellValue::Shard(shard) => shard,
            CellValue::Book(_) => unreachable!(),
        }
    }

    /// The book of the book's cell.
    pub fn book(&self) -> &BookState
        requires { (about_in self.now).is_book ≡ true }
        ensures { value_of self.now ≡ CellValue.Book result.now }
    {
        match &self.value {
            CellValue::Book(book) => book,
            CellValue::Shard(_) => unreachable!(),
        }
    }

    /// Whether the counted bytes of the shard pass its limit with those of the step; never of the book.
    /// Takes no memory.
    pub fn is_over(&self, sealing: &Sealing) -> bool
        ensures { (result ≡ true) ↔ IsOverLimit self.now.value sealing.now }
    {
        self.value.is_over(sealing)
    }
}
