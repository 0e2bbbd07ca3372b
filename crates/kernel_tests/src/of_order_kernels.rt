// Tests of order_kernels: that the orders mean what the rules say, and that each call that takes
// memory succeeds.
use crate::feeding::given;
use crate::making::sort_by;
use crate::telling::are_marked;
use order_kernels::{MergeKernel, SortKernel, TopKernel};
use std::alloc::Global;
use std::test::Fail;
use tuple_values::Memory;

const ROWS: [&str; 6] = [
    "n=2 mark=a",
    "n=1 mark=b",
    "mark=c",
    "n=2 mark=d",
    "n=1 mark=e",
    "n=3 mark=f",
];

fn sort_kernel(alloc: Global, descending: bool) -> Result<SortKernel, Memory> {
    let by = sort_by(alloc, "n", descending)?;
    SortKernel::make(alloc, &by)
}

fn is_sorted(alloc: Global, descending: bool, marks: &str) -> Result<bool, Memory> {
    let given = given(alloc, sort_kernel(alloc, descending)?, &[&ROWS])?;
    Ok(are_marked(&given, &["mark"], marks))
}

#[test]
fn a_sort_keeps_the_order_of_ties(rt: HostRuntime) -> Result<(), Fail> {
    assert!(rt; is_sorted(rt.alloc(), false, "cbeadf")?);
    assert!(rt; is_sorted(rt.alloc(), true, "fadbec")?);
    Ok(())
}

fn top_kernel(alloc: Global, n: u64, descending: bool) -> Result<TopKernel, Memory> {
    let by = sort_by(alloc, "n", descending)?;
    TopKernel::make(alloc, n, &by)
}

fn is_top(alloc: Global, n: u64, descending: bool, marks: &str) -> Result<bool, Memory> {
    let given = given(alloc, top_kernel(alloc, n, descending)?, &[&ROWS])?;
    Ok(are_marked(&given, &["mark"], marks))
}

const TOPS: [(u64, bool, &str); 5] = [
    (0, false, ""),
    (1, false, "c"),
    (1, true, "f"),
    (4, true, "fadb"),
    (9, false, "cbeadf"),
];

#[test]
fn a_top_is_the_first_of_the_sort(rt: HostRuntime) -> Result<(), Fail> {
    for (n, descending, marks) in &TOPS {
        assert!(rt; is_top(rt.alloc(), *n, *descending, marks)?, "of {n}");
    }
    Ok(())
}

const INPUTS: [&[&str]; 3] = [
    &["n=1 mark=a", "n=2 mark=b", "n=2 mark=c"],
    &[],
    &["mark=d", "n=1 mark=e", "n=2 mark=f", "n=3 mark=g"],
];

fn merge_kernel(alloc: Global) -> Result<MergeKernel, Memory> {
    let by = sort_by(alloc, "n", false)?;
    MergeKernel::make(alloc, 3, &by)
}

fn is_merged(alloc: Global, marks: &str) -> Result<bool, Memory> {
    let given = given(alloc, merge_kernel(alloc)?, &INPUTS)?;
    Ok(are_marked(&given, &["mark"], marks))
}

#[test]
fn a_merge_gives_the_earlier_input_first_on_ties(rt: HostRuntime) -> Result<(), Fail> {
    assert!(rt; is_merged(rt.alloc(), "daebcfg")?);
    Ok(())
}
