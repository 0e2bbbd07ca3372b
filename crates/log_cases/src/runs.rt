// A log over a disk in memory, to which steps are appended.
ghost use Rattle.std.specs.Prelude.{◌≡◌, true, IfOk, List, OnOk};
ghost use Rattle.commit_log.specs.Logs.{IsInFlight, IsSettled};
ghost use Rattle.commit_log.specs.Steps.{Step};

use crate::steps::step_of;
use crate::texts::{push_bytes, push_fault, push_steps};
use commit_log::{AttachFault, Attached, Log, StepRef};
use disk_edge::{Disk, DiskFailed, MemoryDisk};
use log_codec::holds_no_group;
use shard_versions::Step;
use std::alloc::Global;
use tuple_values::{Bytes, Memory, Numbers};

/// What is done once the steps are appended, or one of them wasn't.
#[derive(Clone, Copy)]
pub enum Then {
    /// After a failed append the log is opened again.
    Reopen,
    /// The process stops. Of the calls that no sync followed so many are made, and so many bytes of the
    /// next one; what is left is attached anew.
    Stop { calls: u64, bytes: u64 },
}

// Opens the log again, and tells whether the step stands.
fn reopen<D: Disk>(log: &mut Log<D>) -> &'static str
    requires { (steps : List Step) × (step : Step)
        × IsInFlight D.seen D.may_leave steps step log.old }
{
    match log.reopen() {
        Ok(true) => " stands",
        Ok(false) => " absent",
        Err(_) => " shut",
    }
}

// Appends a step. Answers whether it stands for sure, so that more may follow.
fn append_one<D: Disk>(
    alloc: Global,
    text: &mut String,
    log: &mut Log<D>,
    step: &Step,
    then: Then,
) -> Result<bool, Memory>
    requires { (steps : List Step) × IsSettled D.seen D.may_leave steps log.old }
    ensures { IfOk result (λ more. more ≡ true
        → (steps : List Step) × IsSettled D.seen D.may_leave steps log.new) }
{
    let step = StepRef::Shard(step);
    if !holds_no_group(step) {
        return Ok(false);
    }
    let spelled = log.spell(alloc, step)?;
    match log.append(&spelled) {
        Ok(()) => {
            text.push_str(" done")?;
            Ok(true)
        }
        Err(DiskFailed) => {
            text.push_str(" fault")?;
            if matches!(then, Then::Reopen) {
                text.push_str(reopen(log))?;
            }
            Ok(false)
        }
    }
}

// Appends the steps, which stand with a semicolon between them, until one isn't appended.
fn append_all<D: Disk>(
    alloc: Global,
    text: &mut String,
    log: &mut Log<D>,
    steps: &str,
    then: Then,
) -> Result<(), Memory>
    requires { (steps : List Step) × IsSettled D.seen D.may_leave steps log.old }
{
    for ids in steps.split(';') {
        let step = step_of(alloc, ids)?;
        if !append_one(alloc, text, log, &step, then)? {
            return Ok(());
        }
    }
    Ok(())
}

// Attaches the disk, and appends the steps to it where there are any. Gives the disk back.
fn run(
    alloc: Global,
    text: &mut String,
    disk: MemoryDisk,
    steps: &str,
    then: Then,
) -> Result<MemoryDisk, Memory> {
    match Log::attach(alloc, disk) {
        Ok(Attached { mut log, history }) => {
            text.push_str("read ")?;
            push_steps(text, &history)?;
            if steps != "-" {
                append_all(alloc, text, &mut log, steps, then)?;
            }
            Ok(log.into_disk())
        }
        Err(AttachFault { disk, fault }) => {
            push_fault(alloc, text, fault)?;
            Ok(disk)
        }
    }
}

// What a stop leaves of the disk, read by a log anew.
fn stop(
    alloc: Global,
    text: &mut String,
    disk: &MemoryDisk,
    calls: u64,
    bytes: u64,
) -> Result<(), Memory> {
    let left = disk.left_by_stop(alloc, calls, bytes)?;
    let length = left.len();
    text.push_str(format!(in alloc; " left {length} ")?.as_str())?;
    let again = MemoryDisk::new(alloc, left, Numbers::new(alloc))?;
    run(alloc, text, again, "-", Then::Reopen)?;
    Ok(())
}

fn show(text: &mut String, disk: &MemoryDisk) -> Result<(), Memory> {
    text.push_str(" file ")?;
    push_bytes(text, disk.bytes())
}

/// What a log over a disk of these bytes reads, and what becomes of the steps; the calls of the disk
/// whose numbers are given fail.
pub fn tell(
    alloc: Global,
    text: &mut String,
    bytes: Bytes,
    failing: Numbers,
    steps: &str,
    then: Then,
) -> Result<(), Memory> {
    let disk = MemoryDisk::new(alloc, bytes, failing)?;
    let disk = run(alloc, text, disk, steps, then)?;
    match then {
        Then::Reopen => show(text, &disk),
        Then::Stop { calls, bytes } => stop(alloc, text, &disk, calls, bytes),
    }
}
