// The topics that are bound.
ghost use Rattle.std.specs.Prelude.{◌≡◌, ◌<◌, ◌≤◌, max, option_copied, length, vec_len, vec_capacity, ◌+◌};
ghost use Rattle.topic_book.specs.Raises.{raised, topic_of, place_of, raised_in, topics_with, exceeds};

use crate::alike::same_key;
use crate::{Binding, BookEntry, TopicKey};
use std::alloc::Global;
use std::mem;
use tuple_values::Versions;

/// A topic, what it is bound to, and up to where it was delivered.
#[derive(Drop)]
pub(crate) struct Topic {
    pub(crate) key: TopicKey,
    pub(crate) binding: Binding,
    pub(crate) upto: Versions,
}

/// The topic of the key.
pub(crate) fn topic_of<'a>(topics: &'a [Topic], key: &TopicKey) -> Option<&'a Topic>
    ensures { option_copied result ≡ topic_of key.now topics.now }
{
    for topic in topics {
        if same_key(key, &topic.key) {
            return Some(topic);
        }
    }
    None
}

/// Its place, and the end where there is none.
fn place_of(topics: &[Topic], key: &TopicKey) -> usize
    ensures { result ≡ place_of key.now topics.now }
{
    for (place, topic) in topics.iter().enumerate() {
        if same_key(key, &topic.key) {
            return place;
        }
    }
    topics.len()
}

/// The number, raised to another one where that is greater.
fn raised_to(number: u64, upto: u64) -> u64
    ensures { result ≡ max number upto }
{
    number.max(upto)
}

/// The numbers, each raised to the one at its place.
fn raised(numbers: Versions, upto: &[u64]) -> Versions
    ensures { result ≡ raised numbers upto.now }
{
    let mut all = numbers.into_vec();
    let count = all.len().min(upto.len());
    for place in 0..count {
        all[place] = raised_to(all[place], upto[place]);
    }
    Versions::from_vec(all)
}

/// Raises the topic of the key.
fn raise(alloc: Global, topics: &mut Vec<Topic>, key: &TopicKey, upto: &Versions)
    ensures items { topics.new.items ≡ raised_in key.now upto.now topics.old.items }
    ensures len { vec_len topics.new ≡ vec_len topics.old }
    ensures capacity { vec_capacity topics.new ≡ vec_capacity topics.old }
{
    let place = place_of(topics, key);
    if place < topics.len() {
        let topic = &mut topics[place];
        let numbers = mem::replace(&mut topic.upto, Versions::new(alloc));
        topic.upto = raised(numbers, upto.as_slice());
    }
}

/// Adds what an entry does to the topics; the topic of a Bind was made ready.
pub(crate) fn note(alloc: Global, topics: &mut Vec<Topic>, ready: Option<Topic>, entry: &BookEntry)
    requires { vec_len topics.old < vec_capacity topics.old }
    ensures items { topics.new.items ≡ topics_with topics.old.items ready entry.now }
    ensures len { vec_len topics.new ≤ vec_len topics.old + 1 }
    ensures capacity { vec_capacity topics.new ≡ vec_capacity topics.old }
{
    match entry {
        BookEntry::Bind { .. } => match ready {
            Some(topic) => topics.push_reserved(topic),
            None => {}
        },
        BookEntry::Store { key, upto, .. } => raise(alloc, topics, key, upto),
    }
}

/// Whether one of the second numbers is above the first one at its place.
#[tactic(auto, using(crate::proofs::RaiseLemmas::exceed_steps))]
pub(crate) fn exceeds(numbers: &[u64], upto: &[u64]) -> bool
    ensures { result ≡ exceeds numbers.now upto.now }
{
    let count = numbers.len().min(upto.len());
    for place in 0..count {
        if numbers[place] < upto[place] {
            return true;
        }
    }
    false
}
