//! The bytes of an expression, as a checked expression or what a reply says of their first fault.
#![tactic(auto)]

mod fault;
mod laws;
mod reading;

pub use fault::TextFault;
pub use laws::texts_agree;
pub use reading::read_checked;
