// The writers of a load.

/// What a writer of a load does: it is one of four indexers, a thread of queries or a runner of the
/// topic.
#[derive(Clone, Copy, PartialEq, Eq)]
pub enum Role {
    Indexer { indexer: u16 },
    Reader,
    Runner,
}
