//! Requests, carried out at a site and answered.
#![tactic(auto)]

mod action;
mod chunking;
mod connection;
mod docs_reply;
mod ending;
mod exchange;
mod expression;
mod framing;
mod laws;
mod outcome;
mod prepared;
mod question;
mod refusal;
mod reply;
mod request;
mod response;
mod serve;
mod starting;
mod update;
mod waiting;

pub use action::Change;
pub use connection::serve_connection;
pub use docs_reply::DocsReply;
pub use ending::{End, OneEnd, SessionEnd};
pub use exchange::{Answered, Exchange, Exchanges, answer};
pub use expression::{run_expression, run_plain_expression};
pub use framing::Framing;
pub use laws::{chunks_carry_the_body, requests_look_first};
pub use outcome::Outcome;
pub use reply::Reply;
pub use request::run_request;
pub use root_runs::{Docs, RootRun, run_root};
pub use serve::serve_one;
pub use shard_versions::{CutMark, CutMarks, OwnMark, OwnMarks};
pub use starting::NewDaemon;
