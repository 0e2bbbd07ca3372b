//! A load of documents by their numbers: what its writers do, what its topic is, and the summary of
//! the histories that it leaves.
#![tactic(auto)]

mod counts;
mod documents;
mod role;
mod summary;
mod walk;

pub use documents::load_documents;
pub use role::Role;
pub use summary::summary_text;
