//! What the writers of a load leave, and that its summary is that of its documents alone.
#![tactic(auto)]

mod laws;

pub use laws::{finished_loads_are_made, loads_are_told};
