// The checkpoints of topics, and what their queries take.
ghost use Rattle.std.specs.Prelude.{◌≡◌, ◌++◌, ◌∷◌, ℕ, [], max, slice_index, IfOk, OnOk, if◌then◌else◌};
ghost use Rattle.tuple_values.specs.Document.{Doc};
ghost use Rattle.query_syntax.specs.Meaning.{text_matches};
ghost use Rattle.shard_versions.specs.Documents.{with_version};
ghost use Rattle.topic_book.specs.Books.{Book, same_key};
ghost use Rattle.topic_book.specs.declared.topic.TopicKey.{TopicKey};
ghost use Rattle.law_checks.specs.Topics.{AreCheckpoints, is_taken, stored_at};
ghost use Rattle.law_checks.specs.Walks.{read_of};

use crate::greatest::Greatest;
use crate::walk::Shown;
use query_syntax::{Query, QueryFault, read_query};
use std::alloc::Global;
use topic_book::{BookEntry, TopicKey};
use tuple_values::{Memory, TryCopy, Tuple, Value};

/// The number at a shard, and 0 past the last.
pub(crate) fn number_at(numbers: &[u64], shard: usize) -> u64
    ensures { result ≡ slice_index numbers.now shard }
{
    numbers.get(shard).copied().unwrap_or(0)
}

// Raises the topic's numbers to these.
fn raise_all<'a>(
    stored: &mut Greatest<'a>,
    key: &'a TopicKey,
    upto: &'a [u64],
) -> Result<(), Memory>
    ensures { OnOk result ((other : TopicKey) (shard : ℕ) → stored_at stored.new other shard
        ≡ (if same_key other key.now then max (slice_index upto.now shard) (stored_at stored.old other shard)
        else stored_at stored.old other shard)) }
{
    for (shard, number) in upto.iter().enumerate() {
        stored.raise(
            key.checkpoints.as_str(),
            key.id.as_str(),
            shard as u64,
            *number,
        )?;
    }
    Ok(())
}

// Raises the numbers to those of one more entry.
fn raise_entry<'a>(stored: &mut Greatest<'a>, entry: &'a BookEntry) -> Result<(), Memory>
    ensures { OnOk result ((book : Book) → AreCheckpoints stored.old book
        → AreCheckpoints stored.new (book ++ entry.now ∷ [])) }
{
    match entry {
        BookEntry::Bind { key, binding, .. } => raise_all(stored, key, binding.init.as_slice()),
        BookEntry::Store { key, upto, .. } => raise_all(stored, key, upto.as_slice()),
    }
}

/// The checkpoints of all topics. Takes n log n steps for n numbers in the book.
pub(crate) fn checkpoints_of<'a>(
    alloc: Global,
    book: &'a [BookEntry],
) -> Result<Greatest<'a>, Memory>
    ensures { IfOk result (λ stored. AreCheckpoints stored book.now) }
{
    let mut stored = Greatest::none(alloc);
    for entry in book {
        raise_entry(&mut stored, entry)?;
    }
    Ok(stored)
}

/// The topic's checkpoint at a shard.
pub(crate) fn checkpoint<'a>(stored: &Greatest<'a>, key: &'a TopicKey, shard: u64) -> u64
    ensures { result ≡ stored_at stored.now key.now shard }
{
    stored
        .at(key.checkpoints.as_str(), key.id.as_str(), shard)
        .unwrap_or(0)
}

/// The query of a text; none where the text is no query.
pub(crate) fn query_of(alloc: Global, text: &str) -> Result<Option<Query>, Memory>
    ensures { IfOk result (λ query. (doc : Doc) → text_matches text.now doc ≡ is_taken query doc) }
{
    match read_query(alloc, text) {
        Ok(query) => Ok(Some(query)),
        Err(QueryFault::BadQuery { .. }) => Ok(None),
        Err(QueryFault::OutOfMemory) => Err(Memory::OutOfMemory),
    }
}

// A copy of the document as it is read in this version.
#[tactic(auto, unfolding(shard_versions::specs::Documents::with_version))]
fn read(alloc: Global, shown: Shown) -> Result<Tuple, Memory>
    ensures { IfOk result (λ tuple. tuple ≡ with_version shown.entry.version shown.entry.document.now) }
{
    // No history in memory has so many writes.
    if shown.version > i64::MAX as u64 {
        return Err(Memory::OutOfMemory);
    }
    let mut tuple = shown.document.copy(alloc)?;
    tuple.put_like(None, "_version_", Value::Long(shown.version as i64))?;
    Ok(tuple)
}

/// Whether the query takes the document as it is read.
pub(crate) fn is_taken(alloc: Global, query: &Option<Query>, shown: Shown) -> Result<bool, Memory>
    ensures { IfOk result (λ taken. taken ≡ is_taken query.now (read_of shown.entry).1) }
{
    match query {
        Some(query) => {
            let tuple = read(alloc, shown)?;
            Ok(query.matches(&tuple))
        }
        None => Ok(false),
    }
}
