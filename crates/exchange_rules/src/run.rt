// What is told of updates, topics and commits that an expression runs.
use crate::SiteFault;
use shard_versions::Cut;
use thiserror::Error;
use tuple_values::{Text, Tuples, Versions};

/// Why an update of tuples stopped. The batches before stay.
#[derive(Debug, Drop, Error)]
pub enum RunFault {
    /// The tuple at this place, counted from 0, has no id or an empty one, or else a field whose
    /// value has no form in the kind of its name; this is the first such field by bytes.
    #[error("BadTuple")]
    BadTuple { at: u64, field: Text },
    /// The size of the tuple at this place passes 1,048,576.
    #[error("TupleTooLarge")]
    TupleTooLarge { at: u64 },
    /// A shard refused a batch.
    #[error("{0}")]
    Site(SiteFault),
}

/// What an update of tuples did: a summary for each whole batch, how many of its writes stand, and
/// why it stopped, if it did.
#[derive(Drop)]
pub struct Ran {
    pub summaries: Tuples,
    pub stand: u64,
    pub fault: Option<RunFault>,
}

/// What a topic delivered: the cut that it read, the checkpoint above which it did, the one that it
/// stored, a summary for each batch, how many documents it read, and how many of its writes stand.
#[derive(Drop)]
pub struct TopicRun {
    pub cut: Cut,
    pub before: Versions,
    pub stored: Versions,
    pub summaries: Tuples,
    pub read: u64,
    pub stand: u64,
}

/// What a topic without a destination gave: its tuples, and the rest as of a run.
#[derive(Drop)]
pub struct TopicRead {
    pub cut: Cut,
    pub before: Versions,
    pub stored: Versions,
    pub tuples: Tuples,
}

/// Why a topic's run stopped. Nothing is stored, but after a fault of the book's log what was to be
/// stored stands or not; a summary for each whole batch is told, and how many writes of the run stand.
#[derive(Debug, Drop, Error)]
#[error("{fault}")]
pub struct TopicFault {
    pub summaries: Tuples,
    pub stand: u64,
    pub fault: SiteFault,
}
