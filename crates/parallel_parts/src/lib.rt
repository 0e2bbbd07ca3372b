//! Expressions over a cut, with the work of each parallel split among workers: each opens and drains
//! the stream of its part in a thread of its own, and their lists are merged.
#![tactic(auto)]

mod evaluating;
mod work;

pub use evaluating::{eval, open_eval};
