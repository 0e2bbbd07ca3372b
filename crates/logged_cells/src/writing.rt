// A step on its way into a log and a cell.
ghost use Rattle.std.specs.Prelude.{◌≡◌, ◌⊎◌, ◌≤◌, ◌++◌, ◌∷◌, [], false, true, List, IfErr, IfOk, OnErr, OnOk};
ghost use Rattle.tuple_values.specs.declared.names.NameShards.{NameShards};
ghost use Rattle.io_edge.specs.Edge.{Rose};
ghost use Rattle.commit_log.specs.Logs.{disk_of, is_shut, IsSettled};
ghost use Rattle.commit_log.specs.Spelling.{HasPlace, IsSpelled};
ghost use Rattle.commit_log.specs.Steps.{Step};
ghost use Rattle.log_codec.specs.Steps.{entries_in};
ghost use Rattle.site_laws.specs.Sealings.{entries_of};
ghost use Rattle.site_cells.specs.Values.{about_of, log_in, CanReserve, HasRoomFor, IsTaken};
ghost use Rattle.logged_cells.specs.Answers.{is_broken, is_log_fault, IsCause};
ghost use Rattle.logged_cells.specs.Steps.{IsAhead, IsInStep};

use crate::{LoggedRefusal, Made};
use commit_log::{Log, Spelled};
use disk_edge::Disk;
use log_codec::StepRef;
use site_cells::{CellRefusal, CellValue};
use site_laws::Sealing;
use std::alloc::Global;

/// The sealing's entries, lent.
fn step_of(sealing: &Sealing) -> StepRef<'_>
    ensures { entries_in result ≡ entries_of sealing.now }
{
    match sealing {
        Sealing::Shard(step) => StepRef::Shard(step),
        Sealing::Book(entry) => StepRef::Book(entry),
    }
}

/// Makes room in a cell that has no log.
pub(crate) fn room_alone(value: &mut CellValue, sealing: &Sealing) -> Result<Made, LoggedRefusal>
    requires { CanReserve value.old sealing.now }
    ensures entries { log_in value.new ≡ log_in value.old }
    ensures about { (names : List NameShards) → about_of names value.new ≡ about_of names value.old }
    ensures room { OnOk result (HasRoomFor value.new sealing.now) }
    ensures taken { OnOk result (IsTaken value.old sealing.now) }
    ensures clean { IfOk result (λ made. is_broken made ≡ false) }
    ensures no_fault { IfErr result (λ refusal. is_log_fault refusal ≡ false) }
    ensures err { OnErr result (value.new ≡ value.old) }
    ensures cause { IfErr result (λ refusal. IsCause value.old sealing.now refusal) }
{
    match value.reserve(sealing) {
        Ok(()) => Ok(Made::Clean),
        Err(refusal) => Err(LoggedRefusal::NoRoom(refusal)),
    }
}

/// Appends a step to the log, and opens the file again where that fails. Takes no memory.
fn written<D: Disk>(log: &mut Log<D>, spelled: &Spelled) -> Result<Made, LoggedRefusal>
    requires settled { ∥ ((steps : List Step) × IsSettled D.seen D.may_leave steps log.old) ∥₁ }
    requires spelled { (entries : Step) × IsSpelled entries spelled.now }
    requires place { HasPlace log.old spelled.now }
    ensures stands { OnOk result ((steps : List Step) (entries : Step) → IsSpelled entries spelled.now
        → IsSettled D.seen D.may_leave steps log.old
        → IsSettled D.seen D.may_leave (steps ++ entries ∷ []) log.new) }
    ensures absent { OnErr result (((steps : List Step) → IsSettled D.seen D.may_leave steps log.old
        → IsSettled D.seen D.may_leave steps log.new) ⊎ (is_shut log.new ≡ true)) }
    ensures later { D.faults (disk_of log.old) ≤ D.faults (disk_of log.new) }
    ensures broke { IfOk result (λ made. is_broken made ≡ true
        → Rose (D.faults (disk_of log.old)) (D.faults (disk_of log.new))) }
    ensures failed { OnErr result (Rose (D.faults (disk_of log.old)) (D.faults (disk_of log.new))) }
    ensures fault { IfErr result (λ refusal. refusal ≡ LoggedRefusal.LogFault) }
{
    match log.append(spelled) {
        Ok(()) => Ok(Made::Clean),
        Err(_) => match log.reopen() {
            Ok(true) => Ok(Made::Broke),
            Ok(false) => Err(LoggedRefusal::LogFault),
            Err(_) => Err(LoggedRefusal::LogFault),
        },
    }
}

/// Makes room in a cell for a sealing, and appends it to the cell's log: first all memory is taken that the
/// log or the cell wants, and then nothing can be refused but by the disk.
pub(crate) fn room_in<D: Disk>(
    alloc: Global,
    value: &mut CellValue,
    log: &mut Log<D>,
    sealing: &Sealing,
) -> Result<Made, LoggedRefusal>
    requires can { CanReserve value.old sealing.now }
    requires settled { ∥ IsInStep D.seen D.may_leave value.old log.old ∥₁ }
    ensures entries { log_in value.new ≡ log_in value.old }
    ensures about { (names : List NameShards) → about_of names value.new ≡ about_of names value.old }
    ensures room { OnOk result (HasRoomFor value.new sealing.now) }
    ensures ahead { OnOk result (∥ IsAhead D.seen D.may_leave value.new sealing.now log.new ∥₁) }
    ensures sound { OnOk result (is_shut log.new ≡ false) }
    ensures taken { OnOk result (IsTaken value.old sealing.now) }
    ensures settled { OnErr result (∥ IsInStep D.seen D.may_leave value.new log.new ∥₁
        ⊎ (is_shut log.new ≡ true)) }
    ensures later { D.faults (disk_of log.old) ≤ D.faults (disk_of log.new) }
    ensures broke { IfOk result (λ made. is_broken made ≡ true
        → Rose (D.faults (disk_of log.old)) (D.faults (disk_of log.new))) }
    ensures failed { IfErr result (λ refusal. is_log_fault refusal ≡ true
        → Rose (D.faults (disk_of log.old)) (D.faults (disk_of log.new))) }
    ensures err { IfErr result (λ refusal. is_log_fault refusal ≡ false
        → (value.new ≡ value.old) × (log.new ≡ log.old)) }
    ensures cause { IfErr result (λ refusal. IsCause value.old sealing.now refusal) }
{
    if value.is_over(sealing) {
        return Err(LoggedRefusal::NoRoom(CellRefusal::ShardFull));
    }
    let spelled = match log.spell(alloc, step_of(sealing)) {
        Ok(spelled) => spelled,
        Err(_) => return Err(LoggedRefusal::NoRoom(CellRefusal::OutOfMemory)),
    };
    match value.reserve(sealing) {
        Ok(()) => written(log, &spelled),
        Err(refusal) => Err(LoggedRefusal::NoRoom(refusal)),
    }
}
