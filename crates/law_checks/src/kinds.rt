// What an entry is.
ghost use Rattle.std.specs.Prelude.{◌≡◌, option_copied};
ghost use Rattle.shard_versions.specs.Histories.{is_mark, slot_of, write_at};
ghost use Rattle.shard_versions.specs.Indexes.{is_write_of, left_of, written_id};
ghost use Rattle.shard_versions.specs.Readings.{left_under};

use shard_versions::{Kind, id_of};
use tuple_values::Tuple;

/// Whether the entry is a Mark.
pub(crate) fn is_mark(kind: &Kind) -> bool
    ensures { result ≡ is_mark kind.now }
{
    match kind {
        Kind::Mark => true,
        Kind::Put(_) => false,
        Kind::Del(_) => false,
        Kind::Sent { .. } => false,
    }
}

/// The id that the entry writes.
pub(crate) fn written_id(kind: &Kind) -> Option<&str>
    ensures { option_copied result ≡ written_id kind.now }
{
    match kind {
        Kind::Put(document) => Some(id_of(document)),
        Kind::Del(id) => Some(id.as_str()),
        Kind::Sent { document, .. } => Some(id_of(document)),
        Kind::Mark => None,
    }
}

/// The document that the entry leaves at its id.
pub(crate) fn left(kind: &Kind) -> Option<&Tuple>
    ensures { option_copied result ≡ left_of kind.now }
{
    match kind {
        Kind::Put(document) => Some(document),
        Kind::Sent { document, .. } => Some(document),
        Kind::Del(_) => None,
        Kind::Mark => None,
    }
}

// Whether the entry writes this id.
fn is_write_of(kind: &Kind, id: &str) -> bool
    ensures { result ≡ is_write_of id.now kind.now }
{
    match written_id(kind) {
        Some(written) => id == written,
        None => false,
    }
}

/// The document that the entry left under this id.
pub(crate) fn left_under<'a>(kind: &'a Kind, id: &str) -> Option<&'a Tuple>
    ensures { option_copied result ≡ left_under id.now (write_at 0 (slot_of 0 kind.now)) }
{
    if is_write_of(kind, id) {
        left(kind)
    } else {
        None
    }
}
