// Whether a checkpoint stands for no more than was sent.
ghost use Rattle.std.specs.Prelude.{◌≡◌, ℕ, Decides, IfOk};
ghost use Rattle.std.specs.List.{AllByRecursion};
ghost use Rattle.tuple_values.specs.Document.{Doc};
ghost use Rattle.query_syntax.specs.Meaning.{text_matches};
ghost use Rattle.topic_book.specs.declared.topic.Binding.{Binding};
ghost use Rattle.once_core.specs.Cells.{shard_history};
ghost use Rattle.once_core.specs.Law.{IsSent, IsSentIfTaken, IsCovered};
ghost use Rattle.once_core.specs.declared.world.Histories.{Histories};
ghost use Rattle.law_checks.specs.Topics.{is_taken};
ghost use Rattle.law_checks.specs.Walks.{read_of};

use crate::cells::{home_shard, shards_of};
use crate::sight::{Sight, sight_at};
use crate::topics::{is_taken, number_at};
use crate::walk::Shown;
use query_syntax::Query;
use shard_versions::id_of;
use std::alloc::Global;
use topic_book::Binding;
use tuple_values::{Memory, NameShards};

/// The histories as their coverage is checked, and the collections whose shards they are.
#[derive(Clone, Copy)]
pub(crate) struct Against<'b, 'a> {
    pub(crate) names: &'b [NameShards],
    pub(crate) sights: &'b [Sight<'a>],
}

/// What a topic is bound to, with its query.
#[derive(Clone, Copy)]
pub(crate) struct Bound<'b, 'a> {
    pub(crate) binding: &'a Binding,
    pub(crate) query: &'b Option<Query>,
}

/// Versions above the one and up to the other.
#[derive(Clone, Copy)]
struct Span {
    low: u64,
    high: u64,
}

// Whether this version of the document, or a later one, was sent to the destination.
fn is_sent<'b, 'a>(against: Against<'b, 'a>, src: &'a str, dest: &str, shown: Shown<'a>) -> bool
    ensures { (hs : Histories) (b : Binding) → against.entry.sights.now ≡ hs.shards → src.now ≡ b.src
        → Decides result (IsSent against.entry.names.now hs b dest.now (read_of shown.entry)) }
{
    let id = id_of(shown.document);
    let shard = home_shard(shards_of(against.names, dest), id);
    match sight_at(against.sights, against.names, dest, shard) {
        Some(home) => !home.admits(src, id, shown.version),
        None => false,
    }
}

// The same, where the topic takes the document and the version is in the span.
fn is_sent_if_taken<'b, 'a>(
    alloc: Global,
    against: Against<'b, 'a>,
    bound: Bound<'b, 'a>,
    dest: &str,
    span: Span,
    shown: Shown<'a>,
) -> Result<bool, Memory>
    requires { (doc : Doc) → text_matches bound.binding.now.q doc ≡ is_taken bound.query.now doc }
    ensures { IfOk result (λ fine. (hs : Histories) → against.entry.sights.now ≡ hs.shards
        → Decides fine (IsSentIfTaken against.entry.names.now hs bound.entry.binding.now dest.now
        span.low span.high (read_of shown.entry))) }
{
    if shown.version <= span.low || span.high < shown.version {
        return Ok(true);
    }
    let taken = is_taken(alloc, bound.query, shown)?;
    if !taken {
        return Ok(true);
    }
    Ok(is_sent(against, bound.binding.src.as_str(), dest, shown))
}

// The same of each of the documents.
fn are_sent<'b, 'a>(
    alloc: Global,
    against: Against<'b, 'a>,
    bound: Bound<'b, 'a>,
    dest: &str,
    span: Span,
    shown: &[Shown<'a>],
) -> Result<bool, Memory>
    requires { (doc : Doc) → text_matches bound.binding.now.q doc ≡ is_taken bound.query.now doc }
    ensures { IfOk result (λ fine. (hs : Histories) → against.entry.sights.now ≡ hs.shards
        → Decides fine (AllByRecursion (λ s. IsSentIfTaken against.entry.names.now hs
        bound.entry.binding.now dest.now span.low span.high (read_of s)) shown.now)) }
{
    for one in shown {
        let fine = is_sent_if_taken(alloc, against, bound, dest, span, *one)?;
        if !fine {
            return Ok(false);
        }
    }
    Ok(true)
}

// Whether a checkpoint is right at a shard with this history.
fn is_covered_by<'b, 'a>(
    alloc: Global,
    against: Against<'b, 'a>,
    bound: Bound<'b, 'a>,
    shard: u16,
    source: &Sight<'a>,
    upto: u64,
) -> Result<bool, Memory>
    requires { (doc : Doc) → text_matches bound.binding.now.q doc ≡ is_taken bound.query.now doc }
    ensures { IfOk result (λ fine. (hs : Histories) → against.entry.sights.now ≡ hs.shards
        → Decides fine (IsCovered against.entry.names.now hs bound.entry.binding.now shard
        source.now upto)) }
{
    let low = number_at(bound.binding.init.as_slice(), usize::from(shard));
    if upto > source.top().max(low) {
        return Ok(false);
    }
    let span = Span { low, high: upto };
    match &bound.binding.dest {
        Some(dest) => are_sent(alloc, against, bound, dest.as_str(), span, source.shown()),
        None => Ok(true),
    }
}

/// Whether a checkpoint is right at a shard of the topic's source.
pub(crate) fn is_covered<'b, 'a>(
    alloc: Global,
    against: Against<'b, 'a>,
    bound: Bound<'b, 'a>,
    shard: u16,
    upto: u64,
) -> Result<bool, Memory>
    requires { (doc : Doc) → text_matches bound.binding.now.q doc ≡ is_taken bound.query.now doc }
    ensures { IfOk result (λ fine. (hs : Histories) → against.entry.sights.now ≡ hs.shards
        → Decides fine (IsCovered against.entry.names.now hs bound.entry.binding.now shard
        (shard_history against.entry.names.now hs bound.entry.binding.now.src shard) upto)) }
{
    let src = bound.binding.src.as_str();
    match sight_at(against.sights, against.names, src, u32::from(shard)) {
        Some(source) => is_covered_by(alloc, against, bound, shard, source, upto),
        None => {
            let low = number_at(bound.binding.init.as_slice(), usize::from(shard));
            Ok(upto <= low)
        }
    }
}
