//! Queries, the documents that they match, and the reader of their texts.
#![tactic(auto)]

mod counts;
mod fault;
mod letters;
mod lists;
mod machine;
mod matching;
mod open_lists;
mod place;
mod query;
mod reader;
mod reading;
mod term;

pub use fault::QueryFault;
pub use query::{Clause, Clauses, Query, Role, Test, What};
pub use reader::{read_query, readings_agree};
pub use term::Term;
