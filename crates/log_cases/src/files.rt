// A log in a file of the current folder.
ghost use Rattle.std.specs.Prelude.{IfOk, List, OnOk};
ghost use Rattle.commit_log.specs.Logs.{IsSettled};
ghost use Rattle.commit_log.specs.Steps.{Step};

use crate::steps::step_with;
use crate::texts::id_of_entry;
use commit_log::{Attached, Log, LogFault, LogStep, StepRef};
use disk_edge::{Disk, Disks};
use log_codec::holds_no_group;
use shard_versions::Step;
use std::alloc::Global;
use std::io::Write;
use tuple_values::{Memory, Text};

// The log in the file of a name, with the steps that it has.
fn attach<D: Disks>(
    alloc: Global,
    disks: &mut D,
    name: &Text,
) -> Result<Attached<D::Disk>, LogFault>
    ensures { IfOk result (λ attached. (steps : List Step)
        × IsSettled D.Disk.seen D.Disk.may_leave steps attached.log) }
{
    let Ok(disk) = disks.disk(name) else {
        return Err(LogFault::DiskFault);
    };
    match Log::attach(alloc, disk) {
        Ok(attached) => Ok(attached),
        Err(refused) => Err(refused.fault),
    }
}

// Appends a step, which is then on the disk.
fn append<D: Disk>(alloc: Global, log: &mut Log<D>, step: &Step) -> Result<(), LogFault>
    requires { (steps : List Step) × IsSettled D.seen D.may_leave steps log.old }
    ensures { OnOk result ((steps : List Step) × IsSettled D.seen D.may_leave steps log.new) }
{
    let step = StepRef::Shard(step);
    if holds_no_group(step) {
        let spelled = log.spell(alloc, step)?;
        log.append(&spelled)?;
    }
    Ok(())
}

// Appends the step of this number, and then tells the number.
fn append_next<D: Disk, W: Write>(
    alloc: Global,
    log: &mut Log<D>,
    out: &mut W,
    number: u64,
    text: &str,
) -> anyhow::Result<()>
    requires { (steps : List Step) × IsSettled D.seen D.may_leave steps log.old }
    ensures { OnOk result ((steps : List Step) × IsSettled D.seen D.may_leave steps log.new) }
{
    let line = format!(in alloc; "{number}\n")?;
    let step = step_with(alloc, line.trim_end(), text)?;
    append(alloc, log, &step)?;
    out.write_all(line.as_bytes())?;
    out.flush()?;
    Ok(())
}

// Appends so many steps behind those that there are, each with this text.
fn append_from<D: Disk, W: Write>(
    alloc: Global,
    log: &mut Log<D>,
    out: &mut W,
    from: u64,
    count: u64,
    text: &str,
) -> anyhow::Result<()>
    requires { (steps : List Step) × IsSettled D.seen D.may_leave steps log.old }
{
    for number in from..from.saturating_add(count) {
        append_next(alloc, log, out, number, text)?;
    }
    Ok(())
}

fn text_of(alloc: Global, bytes: u64) -> Result<String, Memory> {
    let mut text = String::new(alloc);
    for _ in 0..bytes {
        text.push_str("x")?;
    }
    Ok(text)
}

/// Appends so many steps to the log in the file of a name, each of a document with a text of so many
/// bytes. The steps are numbered on from those that stand there, and each is told once it is on the
/// disk.
pub fn append_many<D: Disks, W: Write>(
    alloc: Global,
    disks: &mut D,
    name: &Text,
    out: &mut W,
    count: u64,
    bytes: u64,
) -> anyhow::Result<()> {
    let Attached { mut log, history } = attach(alloc, disks, name)?;
    let text = text_of(alloc, bytes)?;
    append_from(
        alloc,
        &mut log,
        out,
        history.len() as u64,
        count,
        text.as_str(),
    )?;
    disks.back(name, log.into_disk());
    Ok(())
}

// Whether the step is the one of this number.
fn is_step(step: &LogStep, number: u64) -> bool {
    match step.get(0) {
        Some(entry) => id_of_entry(entry).parse() == Ok(number),
        None => false,
    }
}

// How many first steps are those of their numbers.
fn count_right(history: &[LogStep]) -> u64 {
    for (number, step) in history.iter().enumerate() {
        if !is_step(step, number as u64) {
            return number as u64;
        }
    }
    history.len() as u64
}

/// Tells how many steps the log in the file of a name has, and how many first ones are those of their
/// numbers.
pub fn count_steps<D: Disks, W: Write>(
    alloc: Global,
    disks: &mut D,
    name: &Text,
    out: &mut W,
) -> anyhow::Result<()> {
    let Attached { log, history } = attach(alloc, disks, name)?;
    let (steps, right) = (history.len(), count_right(history.as_slice()));
    out.write_all(format!(in alloc; "{steps} {right}\n")?.as_bytes())?;
    disks.back(name, log.into_disk());
    Ok(())
}
