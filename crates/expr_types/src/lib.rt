//! Expressions: what they are, what each function gives over lists of documents.
#![tactic(auto)]

mod condition;
mod copying;
mod expr;
mod item;
mod joining;
mod naming;
mod source_copies;

pub use condition::{Comparison, Condition, Conditions};
pub use expr::{Expr, Exprs};
pub use item::{GroupOp, Item, Items, Metric, Metrics};
pub use joining::joined;
