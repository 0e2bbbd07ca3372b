//! The writes of a shard in their order, kept in chunks that all who read them share.
#![tactic(auto)]

mod chunk;
mod chunks;
mod scanning;
mod slot;

pub use chunks::Chunks;
pub use scanning::{DocTest, scan};
pub use slot::{Document, Slot};
