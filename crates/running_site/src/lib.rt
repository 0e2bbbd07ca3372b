//! A site that threads share: each cell is looked at and written to under its turn, by passes.
#![tactic(auto)]

mod calls;
mod empty;
mod law;
mod numbers;
mod opening;
mod pass;
mod record;
mod refusal;
mod sealing;
mod site;
mod visit;
mod visiting;
mod writing;

pub use exchange_rules::{Batch, BatchItem, LogEntry, Sent, SiteFault};
pub use law::{a_lone_pass_sees_its_own, passes_have_one_end};
pub use once_core::Histories;
pub use pass::{Pass, PassOf, PassOn, Passes, PassesOn};
pub use shard_versions::{Cut, CutMark, CutMarks, CutPart, OwnMark, OwnMarks, Record};
pub use site::{Site, SiteOf, SiteOn};
pub use visit::Visit;
