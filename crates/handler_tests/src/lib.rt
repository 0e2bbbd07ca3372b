//! Tests of the handler and of what a pass serves, and what they share with those of whole runs:
//! pieces that are joined, and requests with their replies.
#![tactic(auto)]

pub mod chunks;
pub mod daemons;
pub mod joining;
#[cfg(test)]
mod of_chunks;
#[cfg(test)]
mod of_pass_calls;
#[cfg(test)]
mod of_runs;
#[cfg(test)]
mod of_shared_board;
#[cfg(test)]
mod of_stream_handler;
pub mod samples;
