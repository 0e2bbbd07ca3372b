//! What an expression does at a site: it gives tuples, writes them to a collection, commits one.
#![tactic(auto)]

mod committing;
mod docs;
mod done;
mod following;
mod laws;
mod reading;
mod record;
mod running;
mod texts;
mod there;
mod updating;

pub use docs::Docs;
pub use done::Done;
pub use laws::roots_look_first;
pub use reading::{open_plain, run_plain};
pub use record::take_record_over;
pub use running::{RootRun, run_deed, run_root};
pub use texts::full_text;
