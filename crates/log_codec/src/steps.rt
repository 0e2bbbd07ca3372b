// The bodies of steps.
ghost use Rattle.std.specs.Prelude.{◌≡◌, ◌≢◌, ◌++◌, List, IfNone, IfOk, IfSome, OnOk};
ghost use Rattle.std.specs.List.{flat_map, AllByRecursion};
ghost use Rattle.log_codec.specs.Codes.{spelled_list, spelled_number, AreCounted, AreSoMany, HasNone, IsAtFront};
ghost use Rattle.log_codec.specs.Entries.{spelled_entry, HasNoGroup, IsSpellableEntry};
ghost use Rattle.log_codec.specs.BookEntries.{spelled_book, IsSpellableBook};
ghost use Rattle.log_codec.specs.Steps.{body_of, entries_in, spelled_log, AreSpellable, HoldsNoGroup, IsSpellable};
ghost use Rattle.exchange_rules.specs.declared.log_entry.LogEntry.{LogEntry};

use crate::book_entries::{take_book, write_book};
use crate::entries::{take_entry, write_entry};
use crate::texts::{read_number, write_number};
use crate::{Format, LogStep, StepRef};
use exchange_rules::LogEntry;
use shard_versions::Step;
use std::alloc::Global;
use topic_book::BookEntry;
use tuple_values::{Bytes, Memory};

// Writes the entries, behind their number, behind what is there.
fn write_entries(out: &mut Vec<u8>, step: &Step) -> Result<(), Memory>
    requires { AllByRecursion HasNoGroup step.now }
    ensures ok { OnOk result (out.new.items
        ≡ out.old.items ++ spelled_list spelled_entry step.now) }
    ensures fits { OnOk result (AreCounted IsSpellableEntry step.now) }
{
    write_number(out, step.len() as u64)?;
    for entry in step.as_slice() {
        write_entry(out, entry)?;
    }
    Ok(())
}

// Writes the entry, as a list of one, behind what is there.
fn write_single(out: &mut Vec<u8>, e: &BookEntry) -> Result<(), Memory>
    ensures ok { OnOk result (out.new.items
        ≡ out.old.items ++ (spelled_number 1 ++ spelled_book e.now)) }
    ensures fits { OnOk result (IsSpellableBook e.now) }
{
    write_number(out, 1)?;
    write_book(out, e)
}

// Writes the step's body behind what is there.
#[tactic(auto, using(crate::proofs::LentLemmas::lent_steps))]
fn write_step(out: &mut Vec<u8>, step: StepRef<'_>) -> Result<(), Memory>
    requires { HoldsNoGroup (entries_in step) }
    ensures ok { OnOk result (out.new.items ≡ out.old.items ++ body_of (entries_in step.entry)) }
    ensures fits { OnOk result (AreSpellable (entries_in step.entry)) }
{
    match step {
        StepRef::Shard(entries) => write_entries(out, entries),
        StepRef::Book(entry) => write_single(out, entry),
    }
}

/// The body of a step, of which no document holds a group.
pub fn step_bytes(alloc: Global, step: StepRef<'_>) -> Result<Bytes, Memory>
    requires { HoldsNoGroup (entries_in step) }
    ensures ok { IfOk result (λ bytes. bytes ≡ body_of (entries_in step.entry)) }
    ensures spellable { OnOk result (AreSpellable (entries_in step.entry)) }
{
    let mut out = Vec::new(alloc);
    write_step(&mut out, step)?;
    Ok(Bytes::from_vec(out))
}

// The entry of either kind of log at the front, and what follows it.
fn take_log(
    alloc: Global,
    format: Format,
    bytes: &[u8],
) -> Result<Option<(LogEntry, &[u8])>, Memory>
    ensures some { IfOk result (λ found. IfSome found (λ read.
        IsAtFront IsSpellable spelled_log bytes.now read.0 read.1.now)) }
    ensures none { IfOk result (λ found. IfNone found
        (HasNone IsSpellable spelled_log bytes.now)) }
{
    match take_entry(alloc, format, bytes)? {
        Some((entry, rest)) => Ok(Some((LogEntry::Shard(entry), rest))),
        None => match take_book(alloc, format, bytes)? {
            Some((entry, rest)) => Ok(Some((LogEntry::Book(entry), rest))),
            None => Ok(None),
        },
    }
}

// So many entries at the front, and what follows them.
fn take_logs(
    alloc: Global,
    format: Format,
    count: u64,
    bytes: &[u8],
) -> Result<Option<(LogStep, &[u8])>, Memory>
    ensures some { IfOk result (λ found. IfSome found (λ read. IsAtFront
        (AreSoMany IsSpellable count) (flat_map spelled_log) bytes.now read.0 read.1.now)) }
    ensures none { IfOk result (λ found. IfNone found
        (HasNone (AreSoMany IsSpellable count) (flat_map spelled_log) bytes.now)) }
{
    let mut step = LogStep::new(alloc);
    let mut rest = bytes;
    for _ in 0..count {
        match take_log(alloc, format, rest)? {
            Some((entry, after)) => {
                step.push(entry)?;
                rest = after;
            }
            None => return Ok(None),
        }
    }
    Ok(Some((step, rest)))
}

// The body of a step at the front, and what follows it.
fn take_step(
    alloc: Global,
    format: Format,
    bytes: &[u8],
) -> Result<Option<(LogStep, &[u8])>, Memory>
    ensures some { IfOk result (λ found. IfSome found (λ read.
        IsAtFront AreSpellable body_of bytes.now read.0 read.1.now)) }
    ensures none { IfOk result (λ found. IfNone found
        (HasNone AreSpellable body_of bytes.now)) }
{
    match read_number(bytes) {
        Some((count, tail)) => match take_logs(alloc, format, count, tail)? {
            Some((step, rest)) => Ok(Some((step, rest))),
            None => Ok(None),
        },
        None => Ok(None),
    }
}

/// The step of which the bytes are the body, and nothing besides. None where there is none.
pub fn read_step(alloc: Global, body: &[u8]) -> Result<Option<LogStep>, Memory>
    ensures some { IfOk result (λ found. IfSome found (λ step. body.now ≡ body_of step)) }
    ensures spellable { IfOk result (λ found. IfSome found AreSpellable) }
    ensures none { IfOk result (λ found. IfNone found
        ((step : List LogEntry) → AreSpellable step → body.now ≢ body_of step)) }
{
    match take_step(alloc, Format::One, body)? {
        Some((step, rest)) => {
            if rest.is_empty() {
                Ok(Some(step))
            } else {
                Ok(None)
            }
        }
        None => Ok(None),
    }
}
