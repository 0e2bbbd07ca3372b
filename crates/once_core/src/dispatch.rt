// Which deliveries may be made.
ghost use Rattle.std.specs.Prelude.{ℕ, Decides};
ghost use Rattle.once_core.specs.Law.{IsDelivery, IsTrueKind, AreTrue};
ghost use Rattle.once_core.specs.Sights.{seen_of};
ghost use Rattle.once_core.specs.Allowed.{IsDispatch};

use crate::origin::is_from;
use crate::seen::Seen;
use crate::step::{are_sents_of, is_elsewhere};
use shard_versions::{Entry, Kind, document_at, id_of, top_of};
use tuple_values::Tuple;

// Whether the document is delivered from a committed write of its source, as that was seen. The
// cell to which it goes doesn't matter.
fn is_delivery(seen: &Seen, src: &str, version: u64, delivered: &Tuple) -> bool
    ensures { (cell : ℕ) → Decides result (IsDelivery seen.now.names.now (seen_of seen.now)
        cell src.now version delivered.now) }
{
    let id = id_of(delivered);
    let home = seen.home(src, id);
    match document_at(home, version, id) {
        Some(source) => version <= top_of(home) && is_from(delivered, src, version, source),
        None => false,
    }
}

// Whether the entry is such a delivery, where it is one.
fn is_true(seen: &Seen, kind: &Kind) -> bool
    ensures { (cell : ℕ) → Decides result (IsTrueKind seen.now.names.now (seen_of seen.now)
        cell kind.now) }
{
    match kind {
        Kind::Sent {
            src,
            version,
            document,
        } => is_delivery(seen, src.as_str(), *version, document),
        Kind::Put(_) => true,
        Kind::Del(_) => true,
        Kind::Mark => true,
    }
}

fn are_true(seen: &Seen, entries: &[Entry]) -> bool
    ensures { (cell : ℕ) → Decides result (AreTrue seen.now.names.now (seen_of seen.now)
        cell entries.now) }
{
    for entry in entries {
        if !is_true(seen, &entry.kind) {
            return false;
        }
    }
    true
}

/// Whether the step delivers from one other collection, of which its writes were seen committed.
pub(crate) fn is_dispatch(seen: &Seen, cell: u32, src: &str, entries: &[Entry]) -> bool
    ensures { Decides result (IsDispatch seen.now.names.now (seen_of seen.now)
        cell src.now entries.now) }
{
    are_sents_of(entries, src) && is_elsewhere(seen.names, cell, src) && are_true(seen, entries)
}
