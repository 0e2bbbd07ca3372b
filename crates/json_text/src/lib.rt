//! JSON of replies and of updates: the exact bytes of a result set and of an update's answer,
//! and what update a body is.
#![tactic(auto)]

mod document;
mod fault;
mod flat;
mod laws;
mod members;
mod pieces;
mod replies;
mod result_set;
mod tuples;
mod update;
mod writes;

pub use fault::JsonFault;
pub use laws::{bodies_are_read_in_order, pieces_are_the_body};
pub use replies::{error_text, update_text};
pub use result_set::{EndTuple, Pieces, result_set_text};
pub use tuple_values::{Write, Writes};
pub use tuples::tuple_text;
pub use update::{Update, read_update};
