//! What an expression gives in parts: one part of its list where each search gives one part, and
//! the whole list where the parts are merged.
#![tactic(auto)]

mod laws;

pub use laws::{filtering_commutes, merged_parts_are_whole, one_part_is_whole, work_may_be_split};
