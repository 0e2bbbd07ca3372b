//! What workers do at a site that threads share, each by a pass of its own: putting documents and
//! delivering what a topic gives; a site with workers, and its end.
#![tactic(auto)]

mod delivering;
mod indexing;
mod opening;
mod workers;

pub use delivering::{FIRST, SECOND, deliver_all, deliver_once, delivery_of};
pub use indexing::index_writes;
pub use opening::{close, open};
pub use workers::{Task, Worker, WorkerOf};
