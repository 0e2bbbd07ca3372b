// Whether a Sent breaks the law, by what stands before and behind it.
ghost use Rattle.std.specs.Prelude.{◌≡◌, ◌++◌, ◌∷◌, [], ℕ, Decides, List, OnOk};
ghost use Rattle.tuple_values.specs.declared.names.NameShards.{NameShards};
ghost use Rattle.shard_versions.specs.Documents.{id_of};
ghost use Rattle.once_core.specs.Cells.{home_history};
ghost use Rattle.shard_versions.specs.declared.entry.Entry.{Entry};
ghost use Rattle.shard_versions.specs.Histories.{History, has_mark, settled};
ghost use Rattle.once_core.specs.Law.{IsDelivery};
ghost use Rattle.once_core.specs.declared.world.Histories.{Histories};
ghost use Rattle.law_checks.specs.Numbers.{number_at};
ghost use Rattle.law_checks.specs.Judged.{AreSentUpTo, IsSentJudged, IsKindJudged, is_over};

use crate::greatest::Greatest;
use crate::kinds::is_mark;
use crate::origin::is_from;
use crate::written::{Written, home};
use shard_versions::{Entry, Kind, id_of};
use tuple_values::{Memory, NameShards, Tuple};

/// The entries up to the last Mark.
#[tactic(auto, using(shard_versions::proofs::ReadingLemmas::settled_steps))]
pub(crate) fn settled(history: &[Entry]) -> &[Entry]
    ensures { result.now ≡ settled history.now }
{
    let mut closed = 0;
    for (at, entry) in history.iter().enumerate() {
        if is_mark(&entry.kind) {
            closed = at + 1;
        }
    }
    &history[..closed]
}

/// Whether no version of the source and id was sent, or the version is above each that was.
pub(crate) fn is_above<'a>(sent: &Greatest<'a>, src: &'a str, id: &'a str, version: u64) -> bool
    ensures { result ≡ is_over version (number_at sent.now src.now id.now 0) }
{
    match sent.at(src, id, 0) {
        Some(greatest) => greatest < version,
        None => true,
    }
}

/// Tells the version that the entry sends, where it is a Sent.
pub(crate) fn tell<'a>(sent: &mut Greatest<'a>, kind: &'a Kind) -> Result<(), Memory>
    ensures { OnOk result ((h : History) (e : Entry) → e.kind ≡ kind.now
        → AreSentUpTo sent.old h → AreSentUpTo sent.new (h ++ e ∷ [])) }
{
    match kind {
        Kind::Sent {
            src,
            version,
            document,
        } => sent.raise(src.as_str(), id_of(document), 0, *version),
        Kind::Put(_) => Ok(()),
        Kind::Del(_) => Ok(()),
        Kind::Mark => Ok(()),
    }
}

// Whether the document is delivered from a committed write of this history, the one to which its id
// routes in the source. The cell to which it goes doesn't matter.
fn is_delivery_of(home: &Written, src: &str, version: u64, delivered: &Tuple) -> bool
    ensures { (names : List NameShards) (hs : Histories) (cell : ℕ)
        → home.now ≡ home_history names hs src.now (id_of delivered.now)
        → Decides result (IsDelivery names hs cell src.now version delivered.now) }
{
    match home.document(version, id_of(delivered)) {
        Some(source) => version <= home.top() && is_from(delivered, src, version, source),
        None => false,
    }
}

// Whether the document is delivered from a committed write of its source.
fn is_delivery(
    names: &[NameShards],
    shards: &[Written],
    src: &str,
    version: u64,
    delivered: &Tuple,
) -> bool
    ensures { (hs : Histories) (cell : ℕ) → shards.now ≡ hs.shards
        → Decides result (IsDelivery names.now hs cell src.now version delivered.now) }
{
    match home(shards, names, src, id_of(delivered)) {
        Some(home) => is_delivery_of(home, src, version, delivered),
        None => false,
    }
}

/// What stands before an entry of a cell, and whether a Mark follows it.
#[derive(Clone, Copy)]
pub(crate) struct Around<'b, 'a> {
    pub(crate) names: &'b [NameShards],
    pub(crate) shards: &'b [Written<'a>],
    pub(crate) sent: &'b Greatest<'a>,
    pub(crate) settled: bool,
}

// Whether the Sent breaks the law.
fn is_bad_sent<'b, 'a>(
    around: Around<'b, 'a>,
    src: &'a str,
    version: u64,
    delivered: &'a Tuple,
) -> bool
    ensures { (hs : Histories) (cell : ℕ) (before later : History)
        → around.entry.shards.now ≡ hs.shards → AreSentUpTo around.entry.sent.now before
        → around.entry.settled ≡ has_mark later
        → IsSentJudged result around.entry.names.now hs cell before src.now version delivered.now later }
{
    if !around.settled {
        return true;
    }
    if !is_above(around.sent, src, id_of(delivered), version) {
        return true;
    }
    !is_delivery(around.names, around.shards, src, version, delivered)
}

/// Whether the entry is a Sent that breaks the law.
pub(crate) fn is_bad<'b, 'a>(around: Around<'b, 'a>, kind: &'a Kind) -> bool
    ensures { (hs : Histories) (cell : ℕ) (before later : History)
        → around.entry.shards.now ≡ hs.shards → AreSentUpTo around.entry.sent.now before
        → around.entry.settled ≡ has_mark later
        → IsKindJudged result around.entry.names.now hs cell before kind.now later }
{
    match kind {
        Kind::Sent {
            src,
            version,
            document,
        } => is_bad_sent(around, src.as_str(), *version, document),
        Kind::Put(_) => false,
        Kind::Del(_) => false,
        Kind::Mark => false,
    }
}
