//! Items to be delivered by cases and tests of sites, made of the current documents of a collection,
//! and the test of what a Store asks.
#![tactic(auto)]

mod current;
mod items;
mod source;
mod storing;

pub use current::current_items;
pub use items::{add_items, cut_items};
pub use storing::may_store_nowhere;
