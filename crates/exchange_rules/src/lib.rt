//! What a request does, as one small program of looks and appends, and what follows from it.
#![tactic(auto)]

mod batch;
mod fault;
mod laws;
mod log_entry;
mod recorded;
mod run;

pub use batch::{Batch, BatchItem, Sent};
pub use fault::SiteFault;
pub use laws::{
    alone_it_is_a_function, following_goes_on, following_joins, following_stays,
    own_steps_are_recorded, rows_look_first, runs_look_first, steps_are_looked_at,
};
pub use log_entry::LogEntry;
pub use recorded::{following_is_looked_at, following_is_recorded};
pub use run::{Ran, RunFault, TopicFault, TopicRead, TopicRun};
