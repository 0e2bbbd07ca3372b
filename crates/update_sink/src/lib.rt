//! What expressions write at a site: updates and commits of tuples, and topics.
#![tactic(auto)]

mod asking;
mod commit;
mod delivering;
mod parts;
mod progress;
mod put;
mod reading;
mod running;
mod taking;
mod update;

pub use commit::run_commit;
pub use delivering::Delivery;
pub use exchange_rules::{Ran, RunFault, TopicFault, TopicRead, TopicRun};
pub use reading::read_topic;
pub use running::run_topic;
pub use update::run_update;
