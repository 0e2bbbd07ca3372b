//! Cells of a site, each with its log on a disk.
#![tactic(auto)]

mod closed;
mod law;
mod logged_cell;
mod refusal;
mod writing;

pub use closed::{CellsClosed, Logs, into_parts};
pub use law::site_law_between_steps;
pub use logged_cell::{LoggedCell, Made};
pub use refusal::LoggedRefusal;
