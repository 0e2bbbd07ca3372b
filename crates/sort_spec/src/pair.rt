// The pairs of fields by which two streams are joined.
use std::alloc::Global;
use tuple_values::{Memory, Sequence, Text, TryCopy};

/// A field of the left tuple, and the field of the right one that has to have its value.
#[derive(Drop)]
pub struct OnPair {
    pub left: Text,
    pub right: Text,
}

/// Pairs in the order in which they are written. A pair that is repeated is there as often.
pub type OnSpec = Sequence<OnPair>;

impl TryCopy for OnPair {
    fn copy(&self, alloc: Global) -> Result<Self, Memory> {
        let left = self.left.copy(alloc)?;
        let right = self.right.copy(alloc)?;
        Ok(OnPair { left, right })
    }
}
