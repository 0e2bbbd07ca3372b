// The order in which an expression gives its tuples.
use sort_spec::SortSpec;
use std::alloc::Global;
use tuple_values::{Memory, TryCopy};

/// The order of a list of tuples.
#[derive(Drop)]
pub enum Order {
    /// At most one tuple, which is in every order.
    Any,
    /// In the order of a sort.
    By(SortSpec),
}

impl TryCopy for Order {
    fn copy(&self, alloc: Global) -> Result<Self, Memory> {
        match self {
            Order::Any => Ok(Order::Any),
            Order::By(sort) => Ok(Order::By(sort.copy(alloc)?)),
        }
    }
}
