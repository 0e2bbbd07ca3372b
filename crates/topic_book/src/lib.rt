//! The book of topics: what each topic is bound to, and up to which versions it was delivered.
#![tactic(auto)]

mod alike;
mod book;
mod fault;
mod kept;
mod topic;
mod topics;

pub use alike::{is_alike, same_key};
pub use book::BookState;
pub use fault::BookFault;
pub use kept::kept_text;
pub use topic::{Binding, BookEntries, BookEntry, TopicKey};
