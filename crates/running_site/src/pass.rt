// A pass of a site.
ghost use Rattle.std.specs.Prelude.{◌≡◌};
ghost use Rattle.exchange_rules.specs.Following.{cleared};
ghost use Rattle.running_site.specs.Passes.{number_of, sight_of, writer_of};

use disk_edge::MemoryDisk;
use exchange_rules::LogEntry;
use logged_cells::LoggedCell;
use shard_versions::{CutMark, CutMarks, OwnMark, OwnMarks, Record};
use site_laws::CellAbout;
use std::alloc::Global;
use std::mem::replace;
use tuple_values::Sequence;

/// A pass of a table with its record, and the time at which it works, in milliseconds. Between two
/// calls of its site it has no turn.
#[derive(Drop)]
pub struct PassOf<P> {
    pub(crate) alloc: Global,
    // It is away only while a call of the site runs.
    pub(crate) pass: Option<P>,
    pub(crate) marks: Vec<CutMark>,
    pub(crate) own: Vec<OwnMark>,
    pub(crate) now: u64,
}

pub(crate) type TablePass<D> = turn_table::Pass<LoggedCell<D>, CellAbout, LogEntry>;

/// A pass of a site whose cells may have logs on such disks. One thread carries it from call to call.
pub type PassOn<D> = PassOf<TablePass<D>>;

/// Passes of such a site.
pub type PassesOn<D> = Sequence<PassOn<D>>;

/// A pass of a site without logs.
pub type Pass = PassOn<MemoryDisk>;

/// Passes of a site without logs.
pub type Passes = PassesOn<MemoryDisk>;

impl<D> PassOf<TablePass<D>> {
    /// The time at which the pass works, in milliseconds. Nothing reads it yet.
    pub fn now(&self) -> u64
        ensures { result ≡ self.entry.now.now }
    {
        self.now
    }

    /// The pass works at this time from now on. Takes no memory.
    pub fn set_now(&mut self, now: u64)
        ensures now { self.new.now ≡ now }
        ensures pass { self.new.pass ≡ self.old.pass }
        ensures writer { writer_of self.new ≡ writer_of self.old }
    {
        self.now = now;
    }

    /// The looks and steps since the last such call, those of refused calls too. The record begins
    /// anew. Takes no memory.
    pub fn take_record(&mut self) -> Record
        ensures marks { result.marks ≡ (writer_of self.old).marks }
        ensures own { result.own ≡ (writer_of self.old).own }
        ensures rest { writer_of self.new ≡ cleared (writer_of self.old) }
        ensures pass { self.new.pass ≡ self.old.pass }
        ensures sight { sight_of self.new ≡ sight_of self.old }
        ensures number { number_of self.new ≡ number_of self.old }
        ensures now { self.new.now ≡ self.old.now }
    {
        let marks = replace(&mut self.marks, Vec::new(self.alloc));
        let own = replace(&mut self.own, Vec::new(self.alloc));
        Record {
            marks: CutMarks::from_vec(marks),
            own: OwnMarks::from_vec(own),
        }
    }
}
