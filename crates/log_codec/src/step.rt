// Steps of either kind of log.
use exchange_rules::LogEntry;
use shard_versions::Step;
use topic_book::BookEntry;
use tuple_values::Sequence;

/// Entries that are appended together.
pub type LogStep = Sequence<LogEntry>;

/// Steps in the order in which they were appended.
pub type LogSteps = Sequence<LogStep>;

/// A step to be written, lent: entries of a shard, or one entry of the book.
#[derive(Clone, Copy)]
pub enum StepRef<'a> {
    Shard(&'a Step),
    Book(&'a BookEntry),
}
