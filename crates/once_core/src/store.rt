// Which checkpoints may be stored.
ghost use Rattle.std.specs.Prelude.{◌≡◌, Decides, IfOk, Some};
ghost use Rattle.std.specs.List.{AllByRecursion};
ghost use Rattle.tuple_values.specs.Document.{ByteList};
ghost use Rattle.once_core.specs.Law.{takes, IsSent, IsSentIfTaken, AreSent};
ghost use Rattle.once_core.specs.Allowed.{AreReached, AreCovered, MayStore};
ghost use Rattle.once_core.specs.Sights.{seen_of};

use crate::bind::binding_of;
use crate::book::{checkpoint, number_at};
use crate::cells::shards_of;
use crate::seen::Seen;
use crate::writes::admits;
use query_syntax::{QueryFault, read_query};
use shard_versions::{Entry, Snapshot, id_of, snapshot_of, top_of};
use std::alloc::Global;
use topic_book::{Binding, TopicKey};
use tuple_values::{Memory, Text, Tuple};

/// Versions above the one and up to the other.
#[derive(Clone, Copy)]
struct Span {
    low: u64,
    high: u64,
}

// Whether each number is at most the top of its shard, as that was seen.
fn are_reached(seen: &Seen, src: &Text, upto: &[u64]) -> bool
    ensures { Decides result (AreReached seen.now.names.now (seen_of seen.now) src.now upto.now) }
{
    for shard in 0..shards_of(seen.names, src.as_str()) {
        let history = seen.of_shard(src.as_str(), u32::from(shard));
        if top_of(history) < number_at(upto, usize::from(shard)) {
            return false;
        }
    }
    true
}

// Whether the topic takes the document, which is as it is read.
fn takes(alloc: Global, binding: &Binding, document: &Tuple) -> Result<bool, Memory>
    ensures { IfOk result (λ taken. Decides taken (takes binding.now document.now)) }
{
    match read_query(alloc, binding.q.as_str()) {
        Ok(query) => Ok(query.matches(document)),
        Err(QueryFault::BadQuery { .. }) => Ok(false),
        Err(QueryFault::OutOfMemory) => Err(Memory::OutOfMemory),
    }
}

// Whether this version of the document, or a later one, was seen sent to the destination.
fn is_sent(seen: &Seen, binding: &Binding, dest: &Text, version: u64, document: &Tuple) -> bool
    ensures { Decides result (IsSent seen.now.names.now (seen_of seen.now) binding.now dest.now
        (version, document.now)) }
{
    let id = id_of(document);
    let home = seen.home(dest.as_str(), id);
    !admits(home, binding.src.as_str(), id, version)
}

// The same, where the topic takes the document and the version is in the span.
fn is_sent_if_taken(
    alloc: Global,
    seen: &Seen,
    binding: &Binding,
    dest: &Text,
    span: Span,
    version: u64,
    document: &Tuple,
) -> Result<bool, Memory>
    ensures { IfOk result (λ fine. Decides fine (IsSentIfTaken seen.now.names.now (seen_of seen.now)
        binding.now dest.now span.low span.high (version, document.now))) }
{
    if version <= span.low || span.high < version {
        return Ok(true);
    }
    let taken = takes(alloc, binding, document)?;
    Ok(!taken || is_sent(seen, binding, dest, version, document))
}

// The same of each document that is shown.
fn are_shown_sent(
    alloc: Global,
    seen: &Seen,
    binding: &Binding,
    dest: &Text,
    span: Span,
    shown: &Snapshot,
) -> Result<bool, Memory>
    ensures { IfOk result (λ fine. Decides fine (AllByRecursion
        (IsSentIfTaken seen.now.names.now (seen_of seen.now) binding.now dest.now
        span.low span.high)
        shown.now.documents)) }
{
    for k in 0..shown.count() {
        let (version, document) = (shown.version(k), shown.document(k));
        let fine = is_sent_if_taken(alloc, seen, binding, dest, span, version, document)?;
        if !fine {
            return Ok(false);
        }
    }
    Ok(true)
}

// The same of each document that is current in the history.
fn are_sent(
    alloc: Global,
    seen: &Seen,
    binding: &Binding,
    dest: &Text,
    span: Span,
    history: &[Entry],
) -> Result<bool, Memory>
    ensures { IfOk result (λ fine. Decides fine (AreSent seen.now.names.now (seen_of seen.now)
        binding.now dest.now history.now span.low span.high)) }
{
    let shown = snapshot_of(alloc, history)?;
    are_shown_sent(alloc, seen, binding, dest, span, &shown)
}

// The same in each shard of the topic's source, above its checkpoint and up to the number there.
fn are_covered(
    alloc: Global,
    seen: &Seen,
    key: &TopicKey,
    binding: &Binding,
    dest: &Text,
    upto: &[u64],
) -> Result<bool, Memory>
    ensures { IfOk result (λ fine. Decides fine (AreCovered seen.now.names.now (seen_of seen.now)
        key.now binding.now upto.now dest.now)) }
{
    for shard in 0..shards_of(seen.names, binding.src.as_str()) {
        let place = usize::from(shard);
        let low = checkpoint(seen.book(), key, place);
        let high = number_at(upto, place);
        let history = seen.of_shard(binding.src.as_str(), u32::from(shard));
        let fine = are_sent(alloc, seen, binding, dest, Span { low, high }, history)?;
        if !fine {
            return Ok(false);
        }
    }
    Ok(true)
}

// The same where the topic has a destination.
fn is_covered(
    alloc: Global,
    seen: &Seen,
    key: &TopicKey,
    binding: &Binding,
    upto: &[u64],
) -> Result<bool, Memory>
    ensures { IfOk result (λ fine. Decides fine ((dest : ByteList) → binding.now.dest ≡ Some dest
        → AreCovered seen.now.names.now (seen_of seen.now) key.now binding.now upto.now dest)) }
{
    match &binding.dest {
        Some(dest) => are_covered(alloc, seen, key, binding, dest, upto),
        None => Ok(true),
    }
}

/// Whether the versions may be stored, by what was seen.
pub(crate) fn may_store(
    alloc: Global,
    seen: &Seen,
    key: &TopicKey,
    upto: &[u64],
) -> Result<bool, Memory>
    ensures { IfOk result (λ may. Decides may (MayStore seen.now.names.now (seen_of seen.now)
        key.now upto.now)) }
{
    let Some(binding) = binding_of(seen.book(), key) else {
        return Ok(false);
    };
    let shards = usize::from(shards_of(seen.names, binding.src.as_str()));
    if upto.len() != shards || !are_reached(seen, &binding.src, upto) {
        return Ok(false);
    }
    is_covered(alloc, seen, key, binding, upto)
}
