// What steps and bytes are told as.
ghost use Rattle.std.specs.Prelude.{◌<◌};

use commit_log::{LogEntry, LogFault, LogStep, LogSteps};
use shard_versions::{Entry, Kind, id_of};
use std::alloc::Global;
use tuple_values::Memory;

// The id that an entry writes, and `mark` for a Mark.
fn id_in(entry: &Entry) -> &str {
    match &entry.kind {
        Kind::Put(document) => id_of(document),
        Kind::Del(id) => id.as_str(),
        Kind::Sent { document, .. } => id_of(document),
        Kind::Mark => "mark",
    }
}

/// The id that an entry of a log writes, `mark` for a Mark, and `book` for an entry of the book.
pub fn id_of_entry(entry: &LogEntry) -> &str {
    match entry {
        LogEntry::Shard(entry) => id_in(entry),
        LogEntry::Book(_) => "book",
    }
}

// The ids with a comma between them, and `.` for none.
fn push_step(text: &mut String, step: &LogStep) -> Result<(), Memory> {
    if step.len() == 0 {
        text.push_str(".")?;
    }
    for (k, entry) in step.as_slice().iter().enumerate() {
        if k > 0 {
            text.push_str(",")?;
        }
        text.push_str(id_of_entry(entry))?;
    }
    Ok(())
}

/// The steps with a semicolon between them, and `-` for none.
pub fn push_steps(text: &mut String, steps: &LogSteps) -> Result<(), Memory> {
    if steps.len() == 0 {
        text.push_str("-")?;
    }
    for (k, step) in steps.as_slice().iter().enumerate() {
        if k > 0 {
            text.push_str(";")?;
        }
        push_step(text, step)?;
    }
    Ok(())
}

/// The fault. Want of memory stays.
pub fn push_fault(alloc: Global, text: &mut String, fault: LogFault) -> Result<(), Memory> {
    match fault {
        LogFault::DiskFault => Ok(text.push_str("fault")?),
        LogFault::Damaged { at } => {
            let told = format!(in alloc; "damaged {at}")?;
            Ok(text.push_str(told.as_str())?)
        }
        LogFault::OutOfMemory => Err(Memory::OutOfMemory),
    }
}

const DIGITS: [&str; 16] = [
    "0", "1", "2", "3", "4", "5", "6", "7", "8", "9", "a", "b", "c", "d", "e", "f",
];

/// The bytes, two digits each, and `-` for none.
pub fn push_bytes(text: &mut String, bytes: &[u8]) -> Result<(), Memory> {
    if bytes.is_empty() {
        text.push_str("-")?;
    }
    for byte in bytes {
        text.push_str(DIGITS[(*byte / 16) as usize])?;
        text.push_str(DIGITS[(*byte % 16) as usize])?;
    }
    Ok(())
}

// The value of a digit, and 0 of any other byte.
fn digit(byte: u8) -> u8
    ensures { result < 16 }
{
    match byte {
        b'0'..=b'9' => byte - b'0',
        b'a'..=b'f' => byte - b'a' + 10,
        _ => 0,
    }
}

/// The bytes of two digits each; none of `-`.
pub fn bytes_of(alloc: Global, text: &str) -> Result<Vec<u8>, Memory> {
    let mut bytes = Vec::new(alloc);
    for pair in text.as_bytes().chunks_exact(2) {
        bytes.push(digit(pair[0]) * 16 + digit(pair[1]))?;
    }
    Ok(bytes)
}
