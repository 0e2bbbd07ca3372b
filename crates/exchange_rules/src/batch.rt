// What is delivered to a collection at once.
use tuple_values::{Sequence, Tuple};

/// A document to be delivered, as it is to be stored there, with the version of the write of its
/// source that it comes from.
#[derive(Drop)]
pub struct BatchItem {
    pub version: u64,
    pub document: Tuple,
}

/// Documents to be delivered, in order.
pub type Batch = Sequence<BatchItem>;

/// How many items of a batch were admitted, and how many weren't, since as new a version or a
/// newer one was there.
#[derive(Clone, Copy, PartialEq, Eq, Drop)]
pub struct Sent {
    pub admitted: u64,
    pub refused: u64,
}
