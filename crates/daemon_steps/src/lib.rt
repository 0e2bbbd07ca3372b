//! The daemons of a board, each run once, in the order in which they were put on it.
#![tactic(auto)]

mod laws;
mod once;
mod running;
mod turn;

pub use laws::steps_look_first;
pub use once::{Once, run_once};
pub use running::run_daemons;
