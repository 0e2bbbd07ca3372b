// Counted bytes of entries.
ghost use Rattle.std.specs.Prelude.{◌≡◌, ◌-◌, ◌^◌, min};
ghost use Rattle.shard_versions.specs.Sizes.{kind_bytes, entries_bytes};

use crate::{Entry, Kind};

/// The counted bytes of an entry (own rule), and `u64::MAX` where they are more.
pub(crate) fn kind_bytes(kind: &Kind) -> u64
    ensures { result ≡ min (kind_bytes kind.now) (2 ^ 64 - 1) }
{
    match kind {
        Kind::Put(document) => document.size().saturating_add(32),
        Kind::Del(id) => (id.as_str().len() as u64).saturating_add(32),
        Kind::Sent { src, document, .. } => document
            .size()
            .saturating_add(src.as_str().len() as u64)
            .saturating_add(32),
        Kind::Mark => 16,
    }
}

/// The counted bytes of entries, and `u64::MAX` where they are more.
pub(crate) fn entries_bytes(entries: &[Entry]) -> u64
    ensures { result ≡ min (entries_bytes entries.now) (2 ^ 64 - 1) }
{
    let mut total: u64 = 0;
    for entry in entries {
        total = total.saturating_add(kind_bytes(&entry.kind));
    }
    total
}
