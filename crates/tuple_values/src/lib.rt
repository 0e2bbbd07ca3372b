//! Values, tuples and the small lists that every other crate is written over.
#![tactic(auto)]

mod comparing;
mod field_name;
mod keys;
mod kinds;
mod memory;
mod names;
mod sequence;
mod shape;
mod sizes;
mod text;
mod try_copy;
mod tuple;
mod value;
mod whole_numbers;
mod write;

pub use comparing::{compare, order_is_total};
pub use keys::{equal_values_give_equal_keys, fnv1a, key_text, shard_of};
pub use kinds::coerce;
pub use memory::Memory;
pub use names::{FieldList, NameShards, Names, Words};
pub use sequence::{Bytes, Numbers, Places, Sequence, Versions};
pub use shape::Shape;
pub use text::Text;
pub use try_copy::TryCopy;
pub use tuple::tuples_are_maps;
pub use value::{Tuple, Tuples, Value};
pub use whole_numbers::whole;
pub use write::{Write, Writes};
