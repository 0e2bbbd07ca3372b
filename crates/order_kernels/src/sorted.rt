// Tuples in order, as the kernels keep them.
ghost use Rattle.std.specs.Prelude.{◌≡◌, ◌≤◌, IfOk, reverse, take, vec_len};
ghost use Rattle.expr_types.specs.Orders.{sort_list, top_list};

use sort_spec::{SortSpec, sort_tuples};
use tuple_values::{Memory, Tuple, Tuples};

/// Sorts tuples, the last in front, so that the first is the next to be popped.
pub(crate) fn sorted_back(tuples: Vec<Tuple>, by: &SortSpec) -> Result<Vec<Tuple>, Memory>
    ensures { IfOk result (λ sorted. reverse sorted.items ≡ sort_list by.now tuples.items) }
{
    let mut sorted = sort_tuples(Tuples::from_vec(tuples), by)?.into_vec();
    sorted.reverse();
    Ok(sorted)
}

/// The first so many tuples by a sort.
pub(crate) fn first_sorted(tuples: Vec<Tuple>, n: u64, by: &SortSpec) -> Result<Vec<Tuple>, Memory>
    ensures first { IfOk result (λ first. first.items ≡ top_list n by.now tuples.items) }
    ensures few { IfOk result (λ first. vec_len first ≤ n) }
{
    let mut sorted = sort_tuples(Tuples::from_vec(tuples), by)?.into_vec();
    if n < sorted.len() as u64 {
        sorted.truncate(n as usize);
    }
    Ok(sorted)
}
