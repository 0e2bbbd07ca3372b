// The first of what lends tuples, in the order of a sort.
ghost use Rattle.std.specs.Prelude.{◌≡◌, IfOk, map, take};
ghost use Rattle.sort_spec.specs.Sorting.{ins_sort};
ghost use Rattle.sort_spec.specs.Terms.{less};

use crate::SortSpec;
use crate::lends::Lends;
use crate::sorting::sort_lenders;
use tuple_values::Memory;

// As many at least are added before what is held is cut to the first again.
const ADDED: usize = 4_096;

/// The first `most` of what lends tuples in the order of a sort, those that tie in their order. They are
/// moved, never copied; after an `Err` all are dropped. Beside the n items no more than `most` and m others
/// are held and sorted at a time, where m is the greater of `most` and 4,096, and of these the first `most`
/// are kept. In all fewer than 2 n are sorted, with some n log m comparisons; where n is no more than `most`
/// and m, all are sorted once.
pub fn sort_first<T: Lends + Drop>(
    items: Vec<T>,
    by: &SortSpec,
    most: usize,
) -> Result<Vec<T>, Memory>
    ensures { IfOk result (λ sorted. map T.doc sorted.items
        ≡ take most (ins_sort (less by.now) (map T.doc items.items))) }
{
    let room = most.saturating_add(most.max(ADDED));
    if items.len() <= room {
        return cut_sorted(items, by, most);
    }
    let alloc = *items.allocator();
    let mut held = Vec::with_capacity(alloc, room)?;
    for item in items {
        if held.len() >= room {
            held = cut_sorted(held, by, most)?;
        }
        held.push(item)?;
    }
    cut_sorted(held, by, most)
}

// Sorts all, and keeps the first.
fn cut_sorted<T: Lends + Drop>(items: Vec<T>, by: &SortSpec, most: usize) -> Result<Vec<T>, Memory>
    ensures { IfOk result (λ sorted. map T.doc sorted.items
        ≡ take most (ins_sort (less by.now) (map T.doc items.items))) }
{
    let mut sorted = sort_lenders(items, by)?;
    sorted.truncate(most);
    Ok(sorted)
}
