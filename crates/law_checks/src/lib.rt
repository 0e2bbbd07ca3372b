//! Whether histories keep the law, and where they break it first.
#![tactic(auto)]

mod bad_sents;
mod breach;
mod breaches;
mod cells;
mod coverage;
mod greatest;
mod id_set;
mod judging;
mod kinds;
mod origin;
mod sight;
mod topics;
mod uncovered;
mod walk;
mod written;

pub use bad_sents::first_bad_sent;
pub use breach::Breach;
pub use breaches::{breaches_exclude_the_law, first_breach};
pub use uncovered::first_uncovered;
