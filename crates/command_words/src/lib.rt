//! What the words of a command line say: a command, and the collections that it names.
#![tactic(auto)]

mod command;
mod fault;
mod names;
mod program;
mod settings;
mod word;

pub use command::{Command, Settings, read_command, readings_agree};
pub use fault::WordsFault;
pub use names::read_names;
pub use program::texts_are_asked;
