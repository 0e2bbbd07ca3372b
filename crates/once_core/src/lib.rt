//! The core: events over histories, and the law that every list of allowed events keeps.
#![tactic(auto)]

mod allowed;
mod apply;
mod bind;
mod book;
mod cells;
mod dispatch;
mod event;
mod law;
mod origin;
mod replay;
mod seen;
mod step;
mod store;
mod turn;
mod world;
mod writes;

pub use bind::{is_on_collections, is_readable};
pub use event::{Event, Events};
pub use law::{delivery_holds, law_holds};
pub use replay::{Replay, replay_events};
pub use turn::{next, nothing_yet};
pub use world::{Histories, Known, KnownList, ShardHistories, World};
