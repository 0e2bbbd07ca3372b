//! A shard's history: entries, versions, current documents and deliveries.
#![tactic(auto)]

mod cut;
mod document;
mod entry;
mod fault;
mod finding;
mod fitness;
mod index;
mod log;
mod reading;
mod shard;
mod size;
mod snapshot;
mod tree;

pub use cut::{Cut, CutMark, CutMarks, CutPart, OwnMark, OwnMarks, Record};
pub use document::id_of;
pub use entry::{Entry, Kind, Step};
pub use fault::ShardFault;
pub use fitness::{are_fit, are_storable, is_storable};
pub use reading::{document_at, snapshot_of, top_of};
pub use shard::ShardState;
pub use snapshot::Snapshot;
