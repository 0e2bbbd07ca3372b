//! Joins of two inputs in any order, by a table of the second one.
#![tactic(auto)]

mod held;
mod join;
mod key_pairs;
mod table;

pub use join::HashJoinKernel;
