// What the walk finds.
use crate::checked::Within;
use crate::{CheckFault, Order};
use tuple_values::{FieldList, Text};

/// What is known of an expression.
#[derive(Drop)]
pub(crate) struct Walked {
    /// The order in which it gives its tuples.
    pub(crate) order: Order,
    /// The fields of its tuples.
    pub(crate) fields: FieldList,
    /// Those of them that carry the keys of its partitions.
    pub(crate) keys: Option<FieldList>,
    /// The first function without keys, inputs before the call.
    pub(crate) keyless: Option<Text>,
    /// The collections that it reads, each once.
    pub(crate) reads: FieldList,
    /// Its first fault.
    pub(crate) fault: Option<CheckFault>,
    /// What it holds of its inputs, where it has no fault.
    pub(crate) within: Within,
}

/// What is known of the inputs of an expression.
#[derive(Drop)]
pub(crate) struct WalkedInputs {
    /// Their orders.
    pub(crate) orders: Vec<Order>,
    /// The fields of their tuples.
    pub(crate) fields: Vec<FieldList>,
    /// Those of them that carry the keys of their partitions.
    pub(crate) keys: Vec<Option<FieldList>>,
    /// The first function without keys.
    pub(crate) keyless: Option<Text>,
    /// The collections that the expression itself reads, and then those of its inputs, each once.
    pub(crate) reads: FieldList,
    /// Their first fault.
    pub(crate) fault: Option<CheckFault>,
}
