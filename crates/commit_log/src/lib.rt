//! A log of steps in a file, each of which is acknowledged once it is on the disk.
#![tactic(auto)]

mod fault;
mod frames;
mod laws;
mod log;
mod opening;
mod settling;
mod spelling;
mod writing;

pub use exchange_rules::LogEntry;
pub use fault::LogFault;
pub use laws::{
    a_stop_keeps_the_steps, damage_excludes, one_damage, one_reading, stops_are_harmless,
};
pub use log::{AttachFault, Attached, Log};
pub use log_codec::{LogStep, LogSteps, StepRef};
pub use spelling::Spelled;
