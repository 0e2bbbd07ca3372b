// What happens to the histories.
use shard_versions::Step;
use topic_book::{Binding, TopicKey};
use tuple_values::{Sequence, Text, Versions};

/// One event of an actor, which touches one cell at most.
#[derive(Drop)]
pub enum Event {
    /// A step of puts, deletes and commits is appended to a shard.
    Write {
        actor: u64,
        cell: u32,
        step: Step,
    },
    /// The actor reads a cell.
    Look {
        actor: u64,
        cell: u32,
    },
    /// Documents of another collection are delivered to a shard, each unless it came before.
    Send {
        actor: u64,
        cell: u32,
        src: Text,
        step: Step,
    },
    /// A topic is bound.
    Bind {
        actor: u64,
        key: TopicKey,
        binding: Binding,
    },
    /// The versions up to which a topic was delivered are stored.
    Store {
        actor: u64,
        key: TopicKey,
        upto: Versions,
    },
    /// The actor forgets what it knows, as after a restart.
    Forget {
        actor: u64,
    },
}

/// Events, in the order in which they happen.
pub type Events = Sequence<Event>;
