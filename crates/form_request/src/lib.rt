//! HTTP requests from a byte stream, in whatever pieces it comes.
#![tactic(auto)]

mod fields;
mod heads;
mod judging;
mod params;
mod plan;
mod reading;
mod request;
mod requests;
mod route;
mod search;
mod turning;

pub use reading::{After, Message, Messages, Reading, one_reading, read_pieces};
pub use request::{Handler, Param, Params, Request, Step100};
pub use requests::Requests;
