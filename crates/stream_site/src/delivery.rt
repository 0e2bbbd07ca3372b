// What a shard admits of a delivery.
ghost use Rattle.std.specs.Prelude.{◌≡◌, ◌++◌, not, IfOk};
ghost use Rattle.shard_versions.specs.Deliveries.{are_below, sent_version, admits, admits_kind, admitted};

use shard_versions::{Entry, Kind, ShardState, Step, id_of};
use std::alloc::Global;
use tuple_values::{Memory, Text};

// Whether the entry delivers this version of the source and id, or a later one.
fn reaches(kind: &Kind, src: &str, id: &str, version: u64) -> bool
    ensures { result ≡ not (are_below version (sent_version src.now id.now kind.now)) }
{
    match kind {
        Kind::Sent {
            src: from,
            version: sent,
            document,
        } => src == from.as_str() && id == id_of(document) && *sent >= version,
        Kind::Put(_) | Kind::Del(_) | Kind::Mark => false,
    }
}

// Whether no entry delivers this version of the source and id, or a later one.
fn admits(entries: &[Entry], src: &str, id: &str, version: u64) -> bool
    ensures { result ≡ admits entries.now src.now id.now version }
{
    for entry in entries {
        if reaches(&entry.kind, src, id, version) {
            return false;
        }
    }
    true
}

// Whether neither the shard nor those kept behind it deliver this version of the source and id, or
// a later one.
fn is_new(shard: &ShardState, kept: &[Entry], src: &Text, id: &Text, version: u64) -> bool
    ensures { result ≡ admits (shard.now.entries ++ kept.now) src.now id.now version }
{
    shard.admits_sent(src, id, version) && admits(kept, src.as_str(), id.as_str(), version)
}

// Whether the entry delivers what neither the shard has nor those that are kept behind it.
fn is_admitted(
    alloc: Global,
    shard: &ShardState,
    kept: &[Entry],
    kind: &Kind,
) -> Result<bool, Memory>
    ensures { IfOk result (λ b. b ≡ admits_kind (shard.now.entries ++ kept.now) kind.now) }
{
    match kind {
        Kind::Sent {
            src,
            version,
            document,
        } => {
            let id = Text::of(alloc, id_of(document))?;
            Ok(is_new(shard, kept, src, &id, *version))
        }
        Kind::Put(_) | Kind::Del(_) | Kind::Mark => Ok(false),
    }
}

/// The entries of the step that the shard, followed by those kept so far, admits.
pub fn admitted(alloc: Global, shard: &ShardState, step: Step) -> Result<Step, Memory>
    ensures { IfOk result (λ kept. kept ≡ admitted shard.now.entries step) }
{
    let mut kept = Step::new(alloc);
    for entry in step.into_vec() {
        if is_admitted(alloc, shard, kept.as_slice(), &entry.kind)? {
            kept.push(entry)?;
        }
    }
    Ok(kept)
}
