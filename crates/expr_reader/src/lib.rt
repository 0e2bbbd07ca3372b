//! The reader of streaming expressions.
#![tactic(auto)]

mod call;
mod calls;
mod fault;
mod letters;
mod limits;
mod machine;
mod open_calls;
mod open_text;
mod reader;
mod words;

pub use call::{Arg, ArgValue, Args, Call, Word};
pub use fault::ExprFault;
pub use limits::limits_are_counted;
pub use reader::{read_expr, readings_agree};
