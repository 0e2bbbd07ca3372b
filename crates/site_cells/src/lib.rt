//! The cells of a running site: what each holds and takes, and why it refuses.
#![tactic(auto)]

mod cell_refusal;
mod cell_value;
mod closed;

pub use cell_refusal::CellRefusal;
pub use cell_value::{CellValue, CellValues};
pub use closed::into_histories;
