//! A load: indexers, query threads and runners of a topic at one site, each in a thread of its own.
#![tactic(auto)]

mod delivering;
mod ending;
mod indexing;
mod load;
mod querying;
mod threads;
mod topic;
mod work;
mod worker;

pub use load::run_load;
