// Workers: each has a pass and a task.
use running_site::{Pass, Record};

/// What a worker does.
#[derive(Clone, Copy)]
pub enum Task {
    /// Puts these batches, from the first on, into the collection of this number, with a commit
    /// behind each.
    Index {
        collection: u64,
        first: u64,
        batches: u64,
    },
    /// Runs a topic until so many documents were delivered.
    Deliver {
        wanted: u64,
    },
    /// Puts a document twice, and delivers it after another worker has read what was put first.
    Overtake,
    /// Delivers what another worker put first, after that one has delivered what it put again.
    ComeLate,
}

/// A pass with a task; then how many documents or writes there were, if none was refused, and what
/// the pass looked at and appended.
#[derive(Drop)]
pub struct WorkerOf<P> {
    pub pass: P,
    pub task: Task,
    pub done: Option<u64>,
    pub record: Option<Record>,
}

/// A worker at a site.
pub type Worker = WorkerOf<Pass>;
