// What a merge keeps.
ghost use Rattle.std.specs.Prelude.{◌<◌, ◌^◌, vec_len};

use sort_spec::SortSpec;
use tuple_values::Tuple;

/// What is known of one input.
#[derive(Drop)]
pub(crate) struct Slot {
    pub held: Option<Tuple>,
    pub ended: bool,
}

/// Merges inputs, each in the order of one sort, into that order.
pub struct MergeKernel {
    pub(crate) on: SortSpec,
    pub(crate) slots: Vec<Slot>,
    ghost narrow: { vec_len slots < 2 ^ 32 },
}

impl Drop for MergeKernel {
    fn drop(self) {
        let MergeKernel { on, slots } = self;
        drop(on);
        drop(slots);
    }
}
