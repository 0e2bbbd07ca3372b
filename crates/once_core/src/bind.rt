// Which topics may be bound.
ghost use Rattle.std.specs.Prelude.{◌≡◌, ◌∷◌, [], ℕ, Decides, IfOk, option_copied};
ghost use Rattle.topic_book.specs.declared.topic.BookEntry.{BookEntry};
ghost use Rattle.query_syntax.specs.Meaning.{IsReadable};
ghost use Rattle.topic_book.specs.Books.{binding_of};
ghost use Rattle.topic_book.specs.Fitness.{IsFitDestination, IsOnCollections};
ghost use Rattle.once_core.specs.Allowed.{MayJoin};

use crate::cells::shards_of;
use query_syntax::{QueryFault, read_query};
use std::alloc::Global;
use topic_book::{Binding, BookEntry, TopicKey, same_key};
use tuple_values::{Memory, NameShards, Text};

// What the entry binds the topic to.
#[tactic(auto, unfolding(topic_book::specs::Books::binding_of))]
fn bound_by<'a>(entry: &'a BookEntry, key: &TopicKey) -> Option<&'a Binding>
    ensures { option_copied result ≡ binding_of key.now (entry.now ∷ []) }
{
    match entry {
        BookEntry::Bind {
            key: bound,
            binding,
            ..
        } if same_key(key, bound) => Some(binding),
        BookEntry::Bind { .. } | BookEntry::Store { .. } => None,
    }
}

/// What the topic is bound to.
pub(crate) fn binding_of<'a>(book: &'a [BookEntry], key: &TopicKey) -> Option<&'a Binding>
    ensures { option_copied result ≡ binding_of key.now book.now }
{
    for entry in book {
        match bound_by(entry, key) {
            Some(binding) => return Some(binding),
            None => {}
        }
    }
    None
}

fn is_fit_destination(names: &[NameShards], src: &Text, dest: &Option<Text>) -> bool
    ensures { Decides result (IsFitDestination names.now src.now dest.now) }
{
    match dest {
        Some(dest) => src.as_str() != dest.as_str() && shards_of(names, dest.as_str()) > 0,
        None => true,
    }
}

/// Whether the topic's collections are known, with a number for each shard of its source.
pub fn is_on_collections(names: &[NameShards], key: &TopicKey, binding: &Binding) -> bool
    ensures { Decides result (IsOnCollections names.now key.now binding.now) }
{
    let shards = shards_of(names, binding.src.as_str());
    shards_of(names, key.checkpoints.as_str()) > 0
        && shards > 0
        && is_fit_destination(names, &binding.src, &binding.dest)
        && binding.init.len() == usize::from(shards)
}

/// Whether the text is a query.
pub fn is_readable(alloc: Global, text: &Text) -> Result<bool, Memory>
    ensures { IfOk result (λ readable. Decides readable (IsReadable text.now)) }
{
    match read_query(alloc, text.as_str()) {
        Ok(_) => Ok(true),
        Err(QueryFault::BadQuery { .. }) => Ok(false),
        Err(QueryFault::OutOfMemory) => Err(Memory::OutOfMemory),
    }
}

/// Whether the topic may be bound so, whoever binds it.
pub(crate) fn may_bind(
    alloc: Global,
    names: &[NameShards],
    book: &[BookEntry],
    key: &TopicKey,
    binding: &Binding,
) -> Result<bool, Memory>
    ensures { (by : ℕ) → IfOk result (λ may.
        Decides may (MayJoin names.now book.now (BookEntry.Bind by key.now binding.now))) }
{
    if binding_of(book, key).is_some() || !is_on_collections(names, key, binding) {
        return Ok(false);
    }
    is_readable(alloc, &binding.q)
}
