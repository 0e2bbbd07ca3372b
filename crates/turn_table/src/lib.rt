//! Turns on cells: one pass at a time has a cell's value, and a law holds over all histories.
#![tactic(auto)]

mod cell_state;
mod deals;
mod knowledge;
mod law;
mod pass;
mod rule;
mod table;
mod turn;

pub use cell_state::CellState;
pub use knowledge::{Known, View};
pub use law::{law_between_steps, law_of_one_pass};
pub use pass::{Pass, Passes};
pub use rule::{Opening, Turns};
pub use table::{Cells, TurnTable};
pub use turn::Turn;
