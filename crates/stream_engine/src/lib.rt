//! The stream engine: kernels over the streams of their inputs, read by the tuple.
#![tactic(auto)]

mod any_kernel;
mod fed;
mod naming;
mod opening;
mod over_inputs;
mod stream;

pub use opening::{Feeds, merge_lists, open_stream};
pub use stream::{Stream, drain, listed};
