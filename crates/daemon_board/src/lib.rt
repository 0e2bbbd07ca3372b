//! The board of daemons: which there are, which is due, and how often each has run.
#![tactic(auto)]

mod answers;
mod board;
mod changing;
mod claim;
mod daemon;
mod daemons;
mod fault;
mod finding;
mod listing;
mod shared_board;

pub use answers::Answers;
pub use board::Board;
pub use claim::Claim;
pub use daemon::{Daemon, State};
pub use daemons::Daemons;
pub use fault::BoardFault;
pub use shared_board::SharedBoard;
