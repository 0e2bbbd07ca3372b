// A log of steps.
ghost use Rattle.std.specs.Prelude.{ℕ, ◌≡◌, ◌≤◌, List, ◌++◌, ◌∷◌, [], true, Some, IfErr, IfOk, OnErr, OnOk};
ghost use Rattle.io_edge.specs.Edge.{Rose};
ghost use Rattle.disk_edge.specs.Disk.{HasCause, LeavesOnly};
ghost use Rattle.log_codec.specs.Steps.{entries_in, HoldsNoGroup};
ghost use Rattle.commit_log.specs.Steps.{Step};
ghost use Rattle.commit_log.specs.Files.{Explains, IsFileOf, StandsFor};
ghost use Rattle.commit_log.specs.Stops.{Halfway, IsBegun, IsUntouched, KeepsSteps};

use crate::frames::Found;
use crate::opening::open;
use crate::settling::settle;
use crate::spelling::spelled_of;
use crate::writing::commit;
use crate::{LogFault, Spelled};
use disk_edge::{Disk, DiskFailed};
use log_codec::{LogSteps, StepRef};
use std::alloc::Global;
use tuple_values::Memory;

// A file to which a step is appended is shorter, and so is the step's body.
const LIMIT: u64 = 1 << 62;

/// The steps of a file, to which more are appended. The steps themselves aren't kept.
pub struct Log<D> {
    disk: D,
    // The place of the byte that ends the steps.
    end: u64,
    // The length of the body of an append that failed, until the file is opened again.
    flight: Option<u64>,
    shut: bool,
}

impl<D: Drop> Drop for Log<D> {
    fn drop(self) {
        let Log {
            disk,
            end: _,
            flight: _,
            shut: _,
        } = self;
        drop(disk);
    }
}

/// A log, and the steps that its file had when it was opened.
#[derive(Drop)]
pub struct Attached<D> {
    pub log: Log<D>,
    pub history: LogSteps,
}

/// Why a file couldn't be opened as a log, and its disk.
#[derive(Drop)]
pub struct AttachFault<D> {
    pub disk: D,
    pub fault: LogFault,
}

impl<D: Disk> Log<D> {
    ghost use Rattle.commit_log.specs.Logs.{disk_in, disk_of, is_shut, settled, IsInFlight, IsSettled};
    ghost use Rattle.commit_log.specs.Spelling.{HasPlace, IsSpelled};

    /// Opens a file as a log; an empty file becomes one of no step. A stop while the first nine
    /// bytes of a new file are written may leave a damaged file.
    pub fn attach(alloc: Global, mut disk: D) -> Result<Attached<D>, AttachFault<D>>
        ensures settled { IfOk result (λ attached.
            IsSettled D.seen D.may_leave attached.history attached.log) }
        ensures history { IfOk result (λ attached. (file : List ℕ) → D.seen disk ≡ Some file
            → StandsFor file attached.history) }
        ensures fault { IfErr result (λ refused. (file : List ℕ) → D.seen disk ≡ Some file
            → Explains file refused.fault) }
        // A file that is refused for any other reason than its disk is as it was.
        ensures untouched { IfErr result (λ refused. ¬ (refused.fault ≡ LogFault.DiskFault)
            → IsUntouched D.seen D.may_leave D.moment D.left_since disk refused.disk) }
        // A stop at any moment of the call leaves the same steps.
        ensures any_moment { (file : List ℕ) (steps : List Step) → D.seen disk ≡ Some file
            → IsFileOf steps file → ((c : List ℕ) → D.may_leave disk c → KeepsSteps steps c)
            → LeavesOnly D.moment D.left_since disk (disk_in result) (KeepsSteps steps) }
        ensures begun { D.seen disk ≡ Some [] → ((c : List ℕ) → D.may_leave disk c → IsBegun c)
            → LeavesOnly D.moment D.left_since disk (disk_in result) IsBegun }
        ensures later { D.faults disk ≤ D.faults (disk_in result) }
        ensures cause { IfErr result (λ refused. refused.fault ≡ LogFault.DiskFault
            → Rose (D.faults disk) (D.faults refused.disk)) }
    {
        match open(alloc, &mut disk) {
            Ok(Found { steps, end }) => {
                let log = Log {
                    disk,
                    end,
                    flight: None,
                    shut: false,
                };
                Ok(Attached {
                    log,
                    history: steps,
                })
            }
            Err(fault) => Err(AttachFault { disk, fault }),
        }
    }

    /// A step as an append to this log writes it. Takes all the memory that the append takes, and
    /// answers `OutOfMemory` also where the file or the body would have 2^62 bytes.
    pub fn spell(&self, alloc: Global, step: StepRef<'_>) -> Result<Spelled, Memory>
        requires plain { HoldsNoGroup (entries_in step) }
        ensures spelled { IfOk result (IsSpelled (entries_in step.entry)) }
        ensures place { IfOk result (HasPlace self.now) }
    {
        let spelled = spelled_of(alloc, step)?;
        let long = spelled.piece.len() as u64;
        if self.end >= LIMIT || long >= LIMIT + 9 {
            return Err(Memory::OutOfMemory);
        }
        Ok(spelled)
    }

    /// Appends a step, which at `Ok` is on the disk. Takes no memory.
    pub fn append(&mut self, step: &Spelled) -> Result<(), DiskFailed>
        requires settled { ∥ ((steps : List Step) × IsSettled D.seen D.may_leave steps self.old) ∥₁ }
        requires place { HasPlace self.old step.now }
        ensures settled { OnOk result ((steps : List Step) (entries : Step)
            → IsSpelled entries step.now → IsSettled D.seen D.may_leave steps self.old
            → IsSettled D.seen D.may_leave (steps ++ entries ∷ []) self.new) }
        ensures in_flight { OnErr result ((steps : List Step) (entries : Step)
            → IsSpelled entries step.now → IsSettled D.seen D.may_leave steps self.old
            → IsInFlight D.seen D.may_leave steps entries self.new) }
        // A stop at any moment of the call leaves the steps from before it, with the new one or
        // without.
        ensures any_moment { (steps : List Step) (entries : Step) (file : List ℕ)
            → IsSpelled entries step.now → IsSettled D.seen D.may_leave steps self.old
            → D.seen (disk_of self.old) ≡ Some file
            → LeavesOnly D.moment D.left_since (disk_of self.old) (disk_of self.new)
            (Halfway steps entries) }
        ensures cause { HasCause (D.faults (disk_of self.old)) (D.faults (disk_of self.new))
            result }
    {
        let size = (step.piece.len() - 9) as u64;
        match commit(&mut self.disk, self.end, step.piece.as_slice()) {
            Ok(()) => {
                self.end += 9 + size;
                Ok(())
            }
            Err(failed) => {
                self.flight = Some(size);
                Err(failed)
            }
        }
    }

    /// Opens the file again after an append that failed, and tells whether the step of that append
    /// stands. After an error the log is shut. Takes no memory.
    pub fn reopen(&mut self) -> Result<bool, DiskFailed>
        requires { ∥ ((steps : List Step) × (step : Step)
            × IsInFlight D.seen D.may_leave steps step self.old) ∥₁ }
        ensures settled { IfOk result (λ stands. (steps : List Step) (step : Step)
            → IsInFlight D.seen D.may_leave steps step self.old
            → IsSettled D.seen D.may_leave (settled steps step stands) self.new) }
        ensures shut { OnErr result (is_shut self.new ≡ true) }
        // A stop at any moment of the call leaves the steps, with that of the append or without.
        ensures any_moment { (steps : List Step) (step : Step) (file : List ℕ)
            → IsInFlight D.seen D.may_leave steps step self.old
            → D.seen (disk_of self.old) ≡ Some file
            → LeavesOnly D.moment D.left_since (disk_of self.old) (disk_of self.new)
            (Halfway steps step) }
        ensures cause { HasCause (D.faults (disk_of self.old)) (D.faults (disk_of self.new))
            result }
    {
        let Some(size) = self.flight.take() else {
            unreachable!()
        };
        match settle(&mut self.disk, self.end) {
            Ok(true) => {
                self.end += 9 + size;
                Ok(true)
            }
            Ok(false) => Ok(false),
            Err(failed) => {
                self.shut = true;
                Err(failed)
            }
        }
    }

    /// Whether the disk failed, and then the reopening: nothing more can be appended.
    pub fn is_shut(&self) -> bool
        ensures { result ≡ is_shut self.now }
    {
        self.shut
    }

    /// How often the disk of the log has failed.
    pub fn faults(&self) -> u64
        ensures { result ≡ D.faults (disk_of self.now) }
    {
        self.disk.fault_count()
    }

    /// The disk of the log.
    pub fn into_disk(self) -> D
        ensures { result ≡ disk_of self }
    {
        let Log {
            disk,
            end: _,
            flight: _,
            shut: _,
        } = self;
        disk
    }
}
