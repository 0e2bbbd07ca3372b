//! Joins of two inputs that are in the order of their keys.
#![tactic(auto)]

mod exist;
mod join;
mod side;
mod term;

pub use exist::ExistKernel;
pub use join::JoinKernel;
