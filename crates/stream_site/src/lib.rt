//! The calls of a site, written over looks and seals.
#![tactic(auto)]

mod cut;
mod delivery;
mod empty;
mod index;
mod place;
mod refusal;
mod routing;
mod send;
mod spot;
mod step;
mod topics;
mod turns;
mod writes;

pub use cut::take_cut_over;
pub use delivery::admitted;
pub use empty::empty_shards;
pub use exchange_rules::{Batch, BatchItem, LogEntry, Sent, SiteFault};
pub use index::{commit_all_over, index_over};
pub use place::shards_of;
pub use refusal::{EntryRefusal, LookRefusal, StepRefusal};
pub use send::send_over;
pub use shard_versions::{Cut, CutMark, CutMarks, CutPart, OwnMark, OwnMarks, Record};
pub use step::close;
pub use topics::{bind_topic_over, store_topic_over, topic_state_over};
pub use turns::Turns;
pub use writes::are_storable_writes;
