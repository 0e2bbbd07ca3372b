// Whether a site's record, and its answers, are those that were worked out by hand.
ghost use Rattle.std.specs.Prelude.{IsSome, IsTrue};

use shard_versions::{CutMark, Entry, Kind, OwnMark, Record, id_of};
use stream_site::{Sent, SiteFault};
use tuple_values::{Tuple, Value, Versions};

fn are_looks(marks: &[CutMark], looks: &[(u32, u64)]) -> bool {
    for (k, mark) in marks.iter().enumerate() {
        if looks.get(k) != Some(&(mark.cell, mark.upto)) {
            return false;
        }
    }
    marks.len() == looks.len()
}

fn are_steps(own: &[OwnMark], steps: &[(u32, u64, u64)]) -> bool {
    for (k, mark) in own.iter().enumerate() {
        if steps.get(k) != Some(&(mark.cell, mark.from, mark.count)) {
            return false;
        }
    }
    own.len() == steps.len()
}

/// Whether a record has these looks, each with a cell and how much was seen there, and these steps,
/// each with a cell, the place of its first entry and how many entries it has.
pub(crate) fn is_record(record: &Record, looks: &[(u32, u64)], steps: &[(u32, u64, u64)]) -> bool {
    are_looks(record.marks.as_slice(), looks) && are_steps(record.own.as_slice(), steps)
}

/// Whether an update was taken, and this is the count of its writes.
pub(crate) fn is_count(answer: Option<Result<u64, SiteFault>>, writes: u64) -> bool {
    matches!(answer, Some(Ok(count)) if count == writes)
}

/// Whether this shard of c was full, after so many writes.
pub(crate) fn is_full(answer: Option<Result<u64, SiteFault>>, at: u16, after: u64) -> bool {
    match answer {
        Some(
            Err(
                SiteFault::ShardFull {
                    collection,
                    shard,
                    stand,
                },
            ),
        ) => collection.as_str() == "c" && shard == at && stand == after,
        _ => false,
    }
}

/// Whether these are the versions of one shard, and this is its version.
pub(crate) fn is_version(versions: &Option<Versions>, version: u64) -> bool
    ensures { IsTrue result → IsSome versions.now }
{
    match versions {
        Some(versions) => versions.len() == 1 && versions.get(0) == Some(&version),
        None => false,
    }
}

/// Whether a batch was sent, of which so many items were admitted, and so many not.
pub(crate) fn is_sent(answer: &Option<Sent>, admitted: u64, refused: u64) -> bool
    ensures { IsTrue result → IsSome answer.now }
{
    match answer {
        Some(sent) => sent.admitted == admitted && sent.refused == refused,
        None => false,
    }
}

// Whether the document has id `1` and this number.
fn is_numbered(document: &Tuple, number: i64) -> bool {
    id_of(document) == "1"
        && matches!(document.get("n_i"), Some(Value::Long(found)) if *found == number)
}

/// Whether the entry is the first pass's delivery of this version from c, with this number.
pub(crate) fn is_delivery(entry: &Entry, at: u64, number: i64) -> bool {
    match &entry.kind {
        Kind::Sent {
            src,
            version,
            document,
        } => {
            entry.by == 1 && src.as_str() == "c" && *version == at && is_numbered(document, number)
        }
        _ => false,
    }
}

/// Whether it is the first pass's Mark.
pub(crate) fn is_mark(entry: &Entry) -> bool {
    entry.by == 1 && matches!(entry.kind, Kind::Mark)
}
