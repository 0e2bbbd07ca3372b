// What a top keeps.
ghost use Rattle.std.specs.Prelude.{◌+◌, ◌*◌, ◌≤◌, vec_len};

use kernel_laws::OneInput;
use sort_spec::SortSpec;
use std::alloc::Global;
use tuple_values::Tuple;

/// Gives the first `n` tuples of its input by a sort. It keeps at most twice as many and one.
pub struct TopKernel {
    pub(crate) alloc: Global,
    pub(crate) n: u64,
    pub(crate) sort: SortSpec,
    // From the end of the input on what is still to be given, the last in front.
    pub(crate) taken: Vec<Tuple>,
    pub(crate) input: OneInput,
    ghost few: { vec_len taken ≤ 2 * n + 1 },
}

impl Drop for TopKernel {
    fn drop(self) {
        let TopKernel {
            alloc: _,
            n: _,
            sort,
            taken,
            input,
        } = self;
        drop(sort);
        drop(taken);
        drop(input);
    }
}
