// The first checkpoint that stands for more than was sent.
ghost use Rattle.std.specs.Prelude.{◌≡◌, [], IfOk};
ghost use Rattle.tuple_values.specs.Document.{Doc};
ghost use Rattle.query_syntax.specs.Meaning.{text_matches};
ghost use Rattle.topic_book.specs.Fitness.{IsOrdered};
ghost use Rattle.once_core.specs.declared.world.Histories.{Histories};
ghost use Rattle.law_checks.specs.Coverage.{IsFirstUncoveredOf};
ghost use Rattle.law_checks.specs.Firsts.{IsFirstShardOf, IsFirstOfEntry};
ghost use Rattle.law_checks.specs.Plausible.{ArePlausible};
ghost use Rattle.law_checks.specs.Topics.{AreCheckpoints, is_taken};

use crate::cells::shards_of;
use crate::coverage::{Against, Bound, is_covered};
use crate::greatest::Greatest;
use crate::sight::sights_of;
use crate::topics::{checkpoint, checkpoints_of, query_of};
use once_core::Histories;
use std::alloc::Global;
use topic_book::{Binding, BookEntry, TopicKey};
use tuple_values::{Memory, Names, TryCopy};

// The first shard of the topic's source at which its checkpoint isn't right, and the checkpoint.
fn first_shard<'b, 'a>(
    alloc: Global,
    against: Against<'b, 'a>,
    bound: Bound<'b, 'a>,
    stored: &Greatest<'a>,
    key: &'a TopicKey,
) -> Result<Option<(u16, u64)>, Memory>
    requires { (doc : Doc) → text_matches bound.binding.now.q doc ≡ is_taken bound.query.now doc }
    ensures { IfOk result (λ found. (hs : Histories) → against.entry.sights.now ≡ hs.shards
        → AreCheckpoints stored.now hs.book
        → IsFirstShardOf against.entry.names.now hs key.now bound.entry.binding.now found) }
{
    for shard in 0..shards_of(against.names, bound.binding.src.as_str()) {
        let upto = checkpoint(stored, key, u64::from(shard));
        let fine = is_covered(alloc, against, bound, shard, upto)?;
        if !fine {
            return Ok(Some((shard, upto)));
        }
    }
    Ok(None)
}

// The same of a topic that is bound so.
fn first_of<'b, 'a>(
    alloc: Global,
    against: Against<'b, 'a>,
    stored: &Greatest<'a>,
    key: &'a TopicKey,
    binding: &'a Binding,
) -> Result<Option<(u16, u64)>, Memory>
    ensures { IfOk result (λ found. (hs : Histories) → against.entry.sights.now ≡ hs.shards
        → AreCheckpoints stored.now hs.book
        → IsFirstShardOf against.entry.names.now hs key.now binding.now found) }
{
    let query = query_of(alloc, binding.q.as_str())?;
    let bound = Bound {
        binding,
        query: &query,
    };
    first_shard(alloc, against, bound, stored, key)
}

// The same of the topic that the entry binds, with its key.
fn first_of_entry<'b, 'a>(
    alloc: Global,
    against: Against<'b, 'a>,
    stored: &Greatest<'a>,
    entry: &'a BookEntry,
) -> Result<Option<(TopicKey, u16, u64)>, Memory>
    ensures { IfOk result (λ found. (hs : Histories) → against.entry.sights.now ≡ hs.shards
        → AreCheckpoints stored.now hs.book
        → IsFirstOfEntry against.entry.names.now hs entry.now found) }
{
    match entry {
        BookEntry::Bind { key, binding, .. } => {
            match first_of(alloc, against, stored, key, binding)? {
                Some((shard, upto)) => Ok(Some((key.copy(alloc)?, shard, upto))),
                None => Ok(None),
            }
        }
        BookEntry::Store { .. } => Ok(None),
    }
}

// The same of the first topic in the book of which there is one.
fn first_in_book<'b, 'a>(
    alloc: Global,
    against: Against<'b, 'a>,
    stored: &Greatest<'a>,
    book: &'a [BookEntry],
) -> Result<Option<(TopicKey, u16, u64)>, Memory>
    ensures { IfOk result (λ found. (hs : Histories) → against.entry.sights.now ≡ hs.shards
        → AreCheckpoints stored.now hs.book → book.now ≡ hs.book → IsOrdered [] hs.book
        → IsFirstUncoveredOf against.entry.names.now hs found) }
{
    for entry in book {
        let found = first_of_entry(alloc, against, stored, entry)?;
        match found {
            Some(found) => return Ok(Some(found)),
            None => {}
        }
    }
    Ok(None)
}

/// The topic, the shard of its source and the checkpoint of the first checkpoint that stands for more
/// than was sent, in the order in which topics are bound and then by shards; none exactly where the
/// checkpoint of each topic is right at each shard. Takes n log n steps for n entries, and reads the
/// current documents of a source once for each topic, each of which is copied while the topic's query
/// is asked of it.
pub fn first_uncovered(
    alloc: Global,
    names: &Names,
    histories: &Histories,
) -> Result<Option<(TopicKey, u16, u64)>, Memory>
    requires fit { ArePlausible names.now histories.now }
    ensures { IfOk result (λ found. IsFirstUncoveredOf names.now histories.now found) }
{
    let book = histories.book.as_slice();
    let sights = sights_of(alloc, histories.shards.as_slice())?;
    let stored = checkpoints_of(alloc, book)?;
    let against = Against {
        names: names.as_slice(),
        sights: &sights,
    };
    first_in_book(alloc, against, &stored, book)
}
