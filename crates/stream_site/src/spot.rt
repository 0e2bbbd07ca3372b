// Where a call is.
ghost use Rattle.std.specs.Prelude.{◌<◌, ◌^◌};

use tuple_values::Text;

/// Where a call is: at a shard of a collection, with its cell, after so many of the call's
/// writes.
#[derive(Clone, Copy)]
pub(crate) struct Spot<'a> {
    pub(crate) collection: &'a Text,
    pub(crate) shard: u16,
    pub(crate) cell: u32,
    pub(crate) stand: u64,
    ghost counted: { stand < 2 ^ 64 },
}
