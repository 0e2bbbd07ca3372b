//! What is done with a pass at its site: the runs of expressions, the answers to requests, and the
//! serving of connections, each as one visit.
#![tactic(auto)]

mod answering;
mod doors;
mod due;
mod running;
mod serving;
mod writing;

pub use answering::answer;
pub use doors::{DoorEnd, DoorRun, run_door, serve_door};
pub use due::run_due;
pub use running::{run_once, run_root};
pub use serving::{serve_connection, serve_one};
pub use writing::{read_topic, run_commit, run_topic, run_update};
