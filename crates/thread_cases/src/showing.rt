// What is told of workers and of histories.
use shard_versions::{Kind, Step};
use site_threads::Worker;
use std::alloc::Global;
use tuple_values::Memory;

fn push_count(alloc: Global, text: &mut String, done: Option<u64>) -> Result<(), Memory> {
    match done {
        Some(count) => {
            let count = format!(in alloc; "{count} ")?;
            Ok(text.push_str(count.as_str())?)
        }
        None => Ok(text.push_str("- ")?),
    }
}

fn push_counts(alloc: Global, text: &mut String, workers: &[Worker]) -> Result<(), Memory> {
    for worker in workers {
        push_count(alloc, text, worker.done)?;
    }
    Ok(())
}

/// What each worker did, each with a blank behind it; `-` where something was refused.
pub fn counts(alloc: Global, workers: &[Worker]) -> Result<String, Memory> {
    let mut text = String::new(alloc);
    push_counts(alloc, &mut text, workers)?;
    Ok(text)
}

fn push_kind(alloc: Global, text: &mut String, kind: &Kind) -> Result<(), Memory> {
    match kind {
        Kind::Put(_) => Ok(text.push_str(" Put")?),
        Kind::Del(_) => Ok(text.push_str(" Del")?),
        Kind::Sent { version, .. } => {
            let version = *version;
            let sent = format!(in alloc; " Sent {version}")?;
            Ok(text.push_str(sent.as_str())?)
        }
        Kind::Mark => Ok(text.push_str(" Mark")?),
    }
}

/// Adds what the entries of a shard are, each with a blank before it; a delivered document is told
/// with its version.
pub fn show(alloc: Global, text: &mut String, history: &Step) -> Result<(), Memory> {
    for entry in history.as_slice() {
        push_kind(alloc, text, &entry.kind)?;
    }
    Ok(())
}
