//! The sources of streams: searches, single tuples and the documents of topics.
#![tactic(auto)]

mod batch;
mod kept;
mod part;
mod scanned;
mod search;
mod tuple_once;
mod wanted;

pub use batch::{TopicBatch, TopicItem, topic_batch};
pub use part::Part;
pub use search::SearchCursor;
pub use tuple_once::TupleOnce;
