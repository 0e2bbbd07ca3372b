//! The bytes of entries and of steps, as a log file holds them.
#![tactic(auto)]

mod bindings;
mod book_entries;
mod documents;
mod entries;
mod format;
mod groups;
mod head;
mod laws;
mod lists;
mod step;
mod steps;
mod texts;

pub use book_entries::{BookRead, book_bytes, read_book};
pub use entries::{EntryRead, entry_bytes, read_entry};
pub use format::Format;
pub use groups::{holds_group, holds_no_group};
pub use laws::{one_book, one_entry, one_step};
pub use step::{LogStep, LogSteps, StepRef};
pub use steps::{read_step, step_bytes};
