//! Sorts, the order that they write, and the readers of sorts, pairs and lists of names.
#![tactic(auto)]

mod ascends;
mod comparing;
mod fault;
mod firsts;
mod front;
mod held;
mod item;
mod lends;
mod names;
mod pair;
mod reader;
mod rows;
mod runs;
mod scan;
mod sorted;
mod sorting;
mod term;

pub use comparing::orders_are_weak;
pub use fault::SortFault;
pub use firsts::sort_first;
pub use lends::Lends;
pub use names::{NameSet, once};
pub use pair::{OnPair, OnSpec};
pub use reader::{read_names, read_on, read_sort, readings_agree};
pub use sorted::Sorted;
pub use sorting::{sort_lenders, sort_tuples};
pub use term::{SortSpec, SortTerm};
