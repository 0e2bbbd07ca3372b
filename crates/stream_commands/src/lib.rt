//! The commands of the program, over any input, output and gate.
#![tactic(auto)]

mod door_row;
mod ending;
mod eval;
mod input;
mod load;
mod run;
mod script;
mod server;
mod words;

pub use door_row::{DOORS, DoorRow};
pub use ending::Ending;
pub use run::run_words;
pub use words::read_words;
