// The state of the book.
ghost use Rattle.std.specs.Prelude.{◌≡◌, ◌+◌, ◌<◌, ◌^◌, ◌++◌, ◌∷◌, [], length, option_copied, Decides, IfErr, IfOk, OnErr, OnOk, None, Some};
ghost use Rattle.topic_book.specs.declared.topic.BookEntry.{BookEntry};
ghost use Rattle.topic_book.specs.Books.{binding_of, checkpoints, raises, topics_in, IsAlike};
ghost use Rattle.topic_book.specs.Fitness.{IsOfTopic, MayFollow};
ghost use Rattle.topic_book.specs.Raises.{binding_in, exceeds, new_topic};
ghost use Rattle.topic_book.specs.States.{HasRoom, IsOpen, IsRefusal, IsOpenFor, IsRefusalFor, IsReadyFor, IsOpenTo, IsCauseOf, after_bind, after_store};

use crate::alike::is_alike;
use crate::topics::{Topic, exceeds, note, topic_of};
use crate::{Binding, BookEntries, BookEntry, BookFault, TopicKey};
use std::alloc::Global;
use std::marker::Model;
use tuple_values::{Memory, TryCopy, Versions};

/// How many topics are bound at most, where none come from elsewhere.
const TOPICS: u64 = 1000;

/// The book with its whole history. What it keeps beside the entries are the topics, in the order
/// in which they were bound.
pub struct BookState {
    alloc: Global,
    entries: Vec<BookEntry>,
    topics: Vec<Topic>,
    ready: Option<Topic>,
    room: u64,
}

impl Drop for BookState {
    fn drop(self) {
        let BookState {
            alloc: _,
            entries,
            topics,
            ready,
            room: _,
        } = self;
        drop(entries);
        drop(topics);
        drop(ready);
    }
}

impl Model for BookState {
    ghost use Rattle.topic_book.specs.States.{Kept};

    ghost Value = { Kept };

    ghost use Rattle.topic_book.specs.Topics.{kept_in, IsState};

    ghost view = { kept_in };

    ghost invariant = { IsState };
}

impl BookState {
    /// The book of no entry.
    #[tactic(auto, unfolding(crate::specs::Books::binding_of, crate::specs::Books::topics_in, crate::specs::Fitness::IsOrdered))]
    pub fn empty(alloc: Global) -> BookState
        ensures { result.entries ≡ [] }
    {
        BookState {
            alloc,
            entries: Vec::new(alloc),
            topics: Vec::new(alloc),
            ready: None,
            room: 0,
        }
    }

    /// How many entries there are. With one that has room there are fewer than 2^63.
    #[tactic(auto, unfolding(crate::specs::States::HasRoom))]
    pub fn len(&self) -> u64
        ensures count { result ≡ length self.now.entries }
        ensures room { (entry : BookEntry) → HasRoom self.now entry → result + 1 < 2 ^ 63 }
    {
        self.entries.len() as u64
    }

    /// What the topic is bound to; none exactly where it isn't bound.
    pub fn bound(&self, key: &TopicKey) -> Option<&Binding>
        ensures { option_copied result ≡ binding_of key.now self.now.entries }
    {
        match topic_of(&self.topics, key) {
            Some(topic) => Some(&topic.binding),
            None => None,
        }
    }

    /// Up to where the topic was delivered; none exactly where it isn't bound.
    #[tactic(auto, unfolding(crate::specs::Books::checkpoints))]
    pub fn checkpoint(&self, key: &TopicKey) -> Option<&Versions>
        ensures { option_copied result ≡ checkpoints key.now self.now.entries }
    {
        match topic_of(&self.topics, key) {
            Some(topic) => Some(&topic.upto),
            None => None,
        }
    }

    /// Whether the topic is bound with as many initial versions as these.
    pub fn fits(&self, key: &TopicKey, upto: &Versions) -> bool
        ensures { Decides result (IsOfTopic (binding_of key.now self.now.entries) upto.now) }
    {
        match self.bound(key) {
            Some(binding) => binding.init.len() == upto.len(),
            None => false,
        }
    }

    /// Whether the entry may follow: a Bind of a topic that isn't bound, a Store that fits.
    pub fn may_follow(&self, entry: &BookEntry) -> bool
        ensures { Decides result (MayFollow self.now.entries entry.now) }
    {
        match entry {
            BookEntry::Bind { key, .. } => self.bound(key).is_none(),
            BookEntry::Store { key, upto, .. } => self.fits(key, upto),
        }
    }

    /// Binds the topic; one that is bound alike stays as it is.
    pub fn bind(&mut self, by: u64, key: TopicKey, binding: Binding) -> Result<(), BookFault>
        ensures ok { OnOk result
            (IsOpen (binding_of key self.old.entries) (topics_in self.old.entries) binding) }
        ensures entries { OnOk result
            (self.new.entries ≡ after_bind self.old.entries by key binding) }
        ensures err { OnErr result (self.new ≡ self.old) }
        ensures cause { IfErr result (λ fault. IsRefusal (binding_of key self.old.entries)
            (topics_in self.old.entries) binding fault) }
    {
        let is_bound = self.bound(&key).is_some();
        let entry = BookEntry::Bind { by, key, binding };
        self.reserve(&entry)?;
        if !is_bound {
            self.append(entry);
        }
        Ok(())
    }

    /// Stores versions up to which the topic was delivered; where they raise nothing, nothing is
    /// added.
    pub fn store(&mut self, by: u64, key: &TopicKey, upto: Versions) -> Result<(), Memory>
        requires { IsOfTopic (binding_of key.now self.old.entries) upto }
        ensures ok { OnOk result (self.new.entries ≡ after_store self.old.entries by key.now upto) }
        ensures err { OnErr result (self.new ≡ self.old) }
    {
        if !self.is_raised(key, &upto) {
            return Ok(());
        }
        let key = key.copy(self.alloc)?;
        let entry = BookEntry::Store { by, key, upto };
        if self.reserve(&entry).is_err() {
            return Err(Memory::OutOfMemory);
        }
        self.append(entry);
        Ok(())
    }

    /// Whether the versions raise the topic's checkpoint somewhere.
    pub fn is_raised(&self, key: &TopicKey, upto: &Versions) -> bool
        requires { IsOfTopic (binding_of key.now self.now.entries) upto.now }
        ensures { result ≡ raises key.now self.now.entries upto.now }
    {
        match topic_of(&self.topics, key) {
            Some(topic) => exceeds(topic.upto.as_slice(), upto.as_slice()),
            None => false,
        }
    }

    /// The entries alone. Takes no memory.
    pub fn into_entries(self) -> BookEntries
        ensures { result ≡ self.entries }
    {
        let BookState {
            alloc: _,
            entries,
            topics,
            ready,
            room: _,
        } = self;
        drop(topics);
        drop(ready);
        BookEntries::from_vec(entries)
    }

    /// Makes room for one append of this entry.
    pub fn reserve(&mut self, entry: &BookEntry) -> Result<(), BookFault>
        ensures entries { self.new.entries ≡ self.old.entries }
        ensures ok { OnOk result (IsOpenTo self.old.entries entry.now) }
        ensures room { OnOk result
            (MayFollow self.old.entries entry.now → HasRoom self.new entry.now) }
        ensures exact { OnOk result (self.new.room ≡ 1) }
        ensures err { OnErr result (self.new ≡ self.old) }
        ensures cause { IfErr result (λ fault. IsCauseOf self.old.entries entry.now fault) }
    {
        let ready = ready_for(self.alloc, &self.topics, entry)?;
        if self.entries.len() >= 0x7fff_ffff_ffff_fffe {
            return Err(BookFault::OutOfMemory);
        }
        self.entries.reserve(1)?;
        self.topics.reserve(1)?;
        self.ready = ready;
        self.room = 1;
        Ok(())
    }

    /// Adds the entry behind the others. Takes no memory.
    pub fn append(&mut self, entry: BookEntry)
        requires room { HasRoom self.old entry }
        requires follows { MayFollow self.old.entries entry }
        ensures { self.new.entries ≡ self.old.entries ++ entry ∷ [] }
    {
        let ready = self.ready.take();
        note(self.alloc, &mut self.topics, ready, &entry);
        self.room -= 1;
        self.entries.push_reserved(entry);
    }
}

/// The topic that an entry binds, and none where it binds none that isn't bound.
fn ready_for(alloc: Global, topics: &[Topic], entry: &BookEntry) -> Result<Option<Topic>, BookFault>
    ensures ok { OnOk result
        (IsOpenFor (λ k. binding_in k topics.now) (length topics.now) entry.now) }
    ensures ready { IfOk result
        (λ ready. IsReadyFor (λ k. binding_in k topics.now) entry.now ready) }
    ensures cause { IfErr result
        (λ fault. IsRefusalFor (λ k. binding_in k topics.now) (length topics.now) entry.now fault) }
{
    match entry {
        BookEntry::Bind { key, binding, .. } => new_topic(alloc, topics, key, binding),
        BookEntry::Store { .. } => Ok(None),
    }
}

fn new_topic(
    alloc: Global,
    topics: &[Topic],
    key: &TopicKey,
    binding: &Binding,
) -> Result<Option<Topic>, BookFault>
    ensures ok { OnOk result
        (IsOpen (binding_in key.now topics.now) (length topics.now) binding.now) }
    ensures ready { IfOk result (λ ready. binding_in key.now topics.now ≡ None
        → ready ≡ Some (new_topic key.now binding.now)) }
    ensures cause { IfErr result
        (λ fault. IsRefusal (binding_in key.now topics.now) (length topics.now) binding.now fault) }
{
    match topic_of(topics, key) {
        Some(topic) => if_alike(alloc, &topic.binding, binding),
        None => if_room(alloc, topics.len() as u64, key, binding),
    }
}

/// No topic, for bindings that agree.
fn if_alike(alloc: Global, kept: &Binding, asked: &Binding) -> Result<Option<Topic>, BookFault>
    ensures ok { OnOk result (IsAlike kept.now asked.now) }
    ensures cause { IfErr result (λ fault. IsRefusal (Some kept.now) 0 asked.now fault) }
{
    if is_alike(kept, asked) {
        return Ok(None);
    }
    let kept = kept.copy(alloc)?;
    Err(BookFault::TopicBound { kept })
}

/// A topic, where there are fewer than 1,000.
fn if_room(
    alloc: Global,
    count: u64,
    key: &TopicKey,
    binding: &Binding,
) -> Result<Option<Topic>, BookFault>
    ensures ok { OnOk result (count < 1000) }
    ensures ready { IfOk result (λ ready. ready ≡ Some (new_topic key.now binding.now)) }
    ensures cause { IfErr result (λ fault. IsRefusal None count binding.now fault) }
{
    if count >= TOPICS {
        return Err(BookFault::BookFull { topics: count });
    }
    Ok(Some(Topic {
        key: key.copy(alloc)?,
        binding: binding.copy(alloc)?,
        upto: binding.init.copy(alloc)?,
    }))
}
