//! A server at one site: workers that serve the connections of doors, and runners that run the
//! daemons of a board, each with a pass and in a thread of its own.
#![tactic(auto)]

mod item;
mod laws;
mod row;
mod serving;
mod threads;

pub use item::{Item, ItemOf};
pub use laws::served_connections_are_found;
pub use serving::{Served, Serving, serve};
pub use threads::serve_items;
