// Which versions are stored for a topic.
ghost use Rattle.std.specs.Prelude.{◌≡◌, [], ◌∷◌, slice_index};
ghost use Rattle.topic_book.specs.Books.{checkpoint, raises};

use topic_book::{BookEntry, TopicKey, same_key};

/// The number at a shard, and 0 past the last.
pub(crate) fn number_at(numbers: &[u64], shard: usize) -> u64
    ensures { result ≡ slice_index numbers.now shard }
{
    numbers.get(shard).copied().unwrap_or(0)
}

// What the entry stores for the topic at a shard.
#[tactic(auto, unfolding(topic_book::specs::Books::checkpoint))]
fn stored(entry: &BookEntry, key: &TopicKey, shard: usize) -> u64
    ensures { result ≡ checkpoint key.now (entry.now ∷ []) shard }
{
    match entry {
        BookEntry::Bind {
            key: bound,
            binding,
            ..
        } if same_key(key, bound) => number_at(binding.init.as_slice(), shard),
        BookEntry::Store {
            key: stored,
            upto,
            ..
        } if same_key(key, stored) => number_at(upto.as_slice(), shard),
        BookEntry::Bind { .. } | BookEntry::Store { .. } => 0,
    }
}

/// The topic's checkpoint at a shard.
pub(crate) fn checkpoint(book: &[BookEntry], key: &TopicKey, shard: usize) -> u64
    ensures { result ≡ checkpoint key.now book.now shard }
{
    let mut greatest: u64 = 0;
    for entry in book {
        greatest = greatest.max(stored(entry, key, shard));
    }
    greatest
}

/// Whether the numbers raise the topic's checkpoint somewhere.
#[tactic(auto, unfolding(topic_book::specs::Books::raises))]
pub(crate) fn raises(book: &[BookEntry], key: &TopicKey, upto: &[u64]) -> bool
    ensures { result ≡ raises key.now book.now upto.now }
{
    for (shard, number) in upto.iter().enumerate() {
        if checkpoint(book, key, shard) < *number {
            return true;
        }
    }
    false
}
