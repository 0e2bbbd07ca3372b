// What lends tuples in the order of a sort.
ghost use Rattle.std.specs.Prelude.{◌≡◌, ◌<◌, IfOk, map};
ghost use Rattle.sort_spec.specs.Runs.{merged_of, AreRuns};
ghost use Rattle.sort_spec.specs.Sorting.{ins_sort};
ghost use Rattle.sort_spec.specs.Terms.{less};

use crate::front::compare_rows;
use crate::lends::Lends;
use crate::rows::{make_rows, take_items};
use crate::runs::{Run, add_first, merge};
use crate::{SortSpec, SortTerm};
use std::alloc::Global;
use std::collections::VecDeque;
use tuple_values::{Memory, Tuples};

// Runs of what lends tuples.
type Runs<T> = Vec<Run<T, VecDeque<T>>>;

/// Groups of such runs.
pub(crate) type Groups<T> = Vec<Run<T, Runs<T>>>;

/// Up to so many are sorted at once.
pub(crate) const WHOLE: usize = 65_536;

// So many runs, or as many groups of them, are merged at most: the first of each is looked at for each item.
const MERGED: usize = 16;

/// Sorts what lends tuples by these, and leaves those that tie in their order. It is moved, never
/// copied; after an `Err` it is dropped. The values under the first two terms are looked up once in
/// each of n tuples, and again where there are more than 65,536; then some n log n pairs of them are
/// compared, and those under other terms where these tie. They are held, with a second place each, for
/// all, or of more than 65,536 for 8,192 or a part in 256 at a time; beside these there is a second
/// place for each item.
pub fn sort_lenders<T: Lends + Drop>(items: Vec<T>, by: &SortSpec) -> Result<Vec<T>, Memory>
    ensures { IfOk result (λ sorted. map T.doc sorted.items
        ≡ ins_sort (less by.now) (map T.doc items.items)) }
{
    let terms = by.as_slice();
    let count = items.len();
    if count <= WHOLE {
        return sort_run(terms, items);
    }
    let alloc = *items.allocator();
    let groups = groups_of(terms, items)?;
    merge(alloc, terms, groups, count)
}

// How many one run has of more: a part in 256, and no fewer than 8,192.
fn run_len(count: usize) -> usize
    ensures { 0 < result }
{
    let part = count / (MERGED * MERGED) + 1;
    if part < 8_192 { 8_192 } else { part }
}

/// The items in groups of runs. What goes into a group leaves no room behind it among the items.
pub(crate) fn groups_of<T: Lends + Drop>(
    terms: &[SortTerm],
    mut items: Vec<T>,
) -> Result<Groups<T>, Memory>
    ensures docs { IfOk result (λ groups.
        merged_of T.doc (λ runs. merged_of T.doc (λ others. map T.doc others.items) terms.now runs.items)
        terms.now groups.items ≡ ins_sort (less terms.now) (map T.doc items.items)) }
    ensures groups { IfOk result (λ groups.
        AreRuns T.doc (λ runs. merged_of T.doc (λ others. map T.doc others.items) terms.now runs.items)
        (λ runs. AreRuns T.doc (λ others. map T.doc others.items) (λ others. Unit {0}) terms.now runs.items)
        terms.now groups.items) }
{
    let alloc = *items.allocator();
    let most = run_len(items.len());
    let size = most.saturating_mul(MERGED);
    let mut groups = Vec::new(alloc);
    'cuts: while !items.is_empty() {
        let at = items.len().saturating_sub(size);
        let cut = items.split_off(at)?;
        items.shrink_to_fit();
        let runs = runs_of(alloc, terms, cut, most)?;
        add_first(terms, &mut groups, runs)?;
    }
    Ok(groups)
}

// The items in runs of so many, of which the first may have fewer, each sorted. What goes into a run leaves
// no room behind it among the items.
fn runs_of<T: Lends + Drop>(
    alloc: Global,
    terms: &[SortTerm],
    mut items: Vec<T>,
    most: usize,
) -> Result<Runs<T>, Memory>
    requires { 0 < most }
    ensures docs { IfOk result (λ runs.
        merged_of T.doc (λ others. map T.doc others.items) terms.now runs.items
        ≡ ins_sort (less terms.now) (map T.doc items.items)) }
    ensures runs { IfOk result (λ runs.
        AreRuns T.doc (λ others. map T.doc others.items) (λ others. Unit {0}) terms.now runs.items) }
{
    let mut runs = Vec::new(alloc);
    while !items.is_empty() {
        let at = items.len().saturating_sub(most);
        let cut = items.split_off(at)?;
        items.shrink_to_fit();
        let sorted = sort_run(terms, cut)?;
        add_first(terms, &mut runs, VecDeque::from(sorted))?;
    }
    Ok(runs)
}

/// Sorts by a row of each item.
pub(crate) fn sort_run<T: Lends + Drop>(terms: &[SortTerm], items: Vec<T>) -> Result<Vec<T>, Memory>
    ensures { IfOk result (λ sorted. map T.doc sorted.items
        ≡ ins_sort (less terms.now) (map T.doc items.items)) }
{
    let alloc = *items.allocator();
    let mut rows = make_rows(alloc, terms, items)?;
    rows.sort_by(|a, b| {
        compare_rows(terms, &a.front, a.item.tuple(), &b.front, b.item.tuple())
    })?;
    let sorted = take_items(alloc, rows)?;
    Ok(sorted)
}

/// Sorts tuples as `sort_lenders` does.
pub fn sort_tuples(tuples: Tuples, by: &SortSpec) -> Result<Tuples, Memory>
    ensures { IfOk result (λ sorted. sorted ≡ ins_sort (less by.now) tuples) }
{
    let sorted = sort_lenders(tuples.into_vec(), by)?;
    Ok(Tuples::from_vec(sorted))
}
