//! Kernels: operators that are asked for tuples and fed with them, and their law.
#![tactic(auto)]

mod ask;
mod kernel;
mod one_input;

pub use ask::Ask;
pub use kernel::Kernel;
pub use one_input::OneInput;
