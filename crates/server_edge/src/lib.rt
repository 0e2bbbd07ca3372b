//! What a server has of the outside beside its streams: doors, where connections come from and
//! where their ends go back to, and clocks. Each trait says what it means, and a door counts its
//! faults.
#![tactic(auto)]

mod clock;
mod clocks;
mod door;
mod memory_door;
mod tcp_door;
mod tcp_ends;

pub use clock::{Clock, since};
pub use clocks::{MemoryClock, NoClock, SteadyClock};
pub use door::{Back, Door, Listen, Next};
pub use memory_door::{Connection, MemoryDoor};
pub use tcp_door::{SharedListener, TcpDoor};
pub use tcp_ends::{TcpSink, TcpSource};
