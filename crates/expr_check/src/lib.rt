//! Whether an expression may be evaluated, in which order it gives its tuples, and which fields
//! they have.
#![tactic(auto)]

mod checked;
mod checking;
mod fault;
mod faulting;
mod fields;
mod holding;
mod joins;
mod keys;
mod needs;
mod order;
mod orders;
mod pairing;
mod partitions;
mod places;
mod reads;
mod root;
mod roots;
mod rules;
mod standing;
mod texts;
mod walk;
mod walked;

pub use checked::{Checked, ParallelPart};
pub use checking::{check, fields_hold, orders_hold, plain_roots_hold};
pub use fault::CheckFault;
pub use joins::join_order;
pub use order::Order;
pub use root::{Action, CommitRoot, DaemonRoot, Feed, Inner, Root, TopicRoot, UpdateRoot};
pub use roots::Roots;
pub use rules::{fields_given, order_given};
