// What a step of deliveries adds to a history.
ghost use Rattle.std.specs.Prelude.{◌≡◌, ◌++◌, not, IfOk};
ghost use Rattle.shard_versions.specs.Deliveries.{are_below, sent_version, admits, admits_kind};
ghost use Rattle.shard_versions.specs.Deliveries.{admitted, marked};

use shard_versions::{Entry, Kind, Step, id_of};
use std::alloc::Global;
use tuple_values::{Memory, TryCopy};

// Whether the entry delivers this version of the source and id, or a later one.
fn reaches(kind: &Kind, src: &str, id: &str, version: u64) -> bool
    ensures { result ≡ not (are_below version (sent_version src.now id.now kind.now)) }
{
    match kind {
        Kind::Sent {
            src: from,
            version: sent,
            document,
        } => src == from.as_str() && id == id_of(document) && *sent >= version,
        Kind::Put(_) | Kind::Del(_) | Kind::Mark => false,
    }
}

// Whether no entry delivers this version of the source and id, or a later one.
pub(crate) fn admits(entries: &[Entry], src: &str, id: &str, version: u64) -> bool
    ensures { result ≡ admits entries.now src.now id.now version }
{
    for entry in entries {
        if reaches(&entry.kind, src, id, version) {
            return false;
        }
    }
    true
}

// Whether the entry delivers what neither of two lists of entries, one behind the other, has.
fn is_admitted(history: &[Entry], kept: &[Entry], kind: &Kind) -> bool
    ensures { result ≡ admits_kind (history.now ++ kept.now) kind.now }
{
    match kind {
        Kind::Sent {
            src,
            version,
            document,
        } => {
            let id = id_of(document);
            admits(history, src.as_str(), id, *version) && admits(kept, src.as_str(), id, *version)
        }
        Kind::Put(_) | Kind::Del(_) | Kind::Mark => false,
    }
}

// The entries of the step that the history, followed by those kept so far, admits.
fn admitted(alloc: Global, history: &[Entry], step: &[Entry]) -> Result<Step, Memory>
    ensures { IfOk result (λ kept. kept ≡ admitted history.now step.now) }
{
    let mut kept = Step::new(alloc);
    for entry in step {
        if is_admitted(history, kept.as_slice(), &entry.kind) {
            kept.push(entry.copy(alloc)?)?;
        }
    }
    Ok(kept)
}

/// What a step of deliveries adds to a history: what is admitted, and then a Mark.
pub(crate) fn delivered(
    alloc: Global,
    writer: u64,
    history: &[Entry],
    step: &[Entry],
) -> Result<Step, Memory>
    ensures { IfOk result (λ new. new ≡ marked writer (admitted history.now step.now)) }
{
    let mut new = admitted(alloc, history, step)?;
    if new.len() > 0 {
        new.push(Entry::mark(writer))?;
    }
    Ok(new)
}
