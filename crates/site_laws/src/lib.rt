//! What a writer of a site may append by what it has seen, and the law that all its cells keep.
#![tactic(auto)]

mod cell_about;
mod laws;
mod sealing;

pub use cell_about::CellAbout;
pub use laws::appends_keep_the_law;
pub use sealing::Sealing;
