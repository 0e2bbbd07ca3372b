// Tests of group_kernels: that groups and metrics mean what the rules say, and that each call that
// takes memory succeeds.
use crate::feeding::given;
use crate::making::{names, sort_by};
use crate::telling::{has_number, have_numbers};
use expr_types::{GroupOp, Metric, Metrics};
use group_kernels::{ReduceKernel, RollupKernel, UniqueKernel};
use std::alloc::Global;
use std::test::Fail;
use tuple_values::{Memory, Text, Tuple, Tuples, Value};

// The key k, which two tuples lack, and the number n.
const ROWS: [&str; 6] = ["n=7", "", "k=a n=1", "k=a n=3", "k=a n=2", "k=b"];

fn unique_kernel(alloc: Global) -> Result<UniqueKernel, Memory> {
    let over = names(alloc, "k")?;
    UniqueKernel::make(alloc, &over)
}

fn is_unique(alloc: Global, numbers: &str) -> Result<bool, Memory> {
    let given = given(alloc, unique_kernel(alloc)?, &[&ROWS])?;
    Ok(have_numbers(&given, "n", numbers))
}

#[test]
fn unique_gives_the_first_of_each_key(rt: HostRuntime) -> Result<(), Fail> {
    assert!(rt; is_unique(rt.alloc(), "7 1 -")?);
    Ok(())
}

// Whether the tuple has a number, and behind the colon its group has these.
fn is_grouped(tuple: &Tuple, numbers: &str) -> bool {
    match (tuple.get("group"), numbers.split_once(':')) {
        (Some(Value::Group(group)), Some((number, numbers))) => {
            has_number(tuple, "n", number) && have_numbers(group, "n", numbers)
        }
        _ => false,
    }
}

fn are_grouped(tuples: &Tuples, groups: &str) -> bool {
    let mut groups = groups.lines();
    for k in 0..tuples.count() {
        match groups.next() {
            Some(numbers) => {
                if !is_grouped(tuples.get(k), numbers) {
                    return false;
                }
            }
            None => return false,
        }
    }
    groups.next().is_none()
}

fn reduce_kernel(alloc: Global, n: u64) -> Result<ReduceKernel, Memory> {
    let by = names(alloc, "k")?;
    let sort = sort_by(alloc, "n", true)?;
    ReduceKernel::make(alloc, &by, &GroupOp { sort, n })
}

fn is_reduced(alloc: Global, n: u64, groups: &str) -> Result<bool, Memory> {
    let given = given(alloc, reduce_kernel(alloc, n)?, &[&ROWS])?;
    Ok(are_grouped(&given, groups))
}

#[test]
fn reduce_keeps_the_first_of_each_group(rt: HostRuntime) -> Result<(), Fail> {
    assert!(rt; is_reduced(rt.alloc(), 0, "7:\n3:\n-:")?);
    assert!(rt; is_reduced(rt.alloc(), 2, "7:7 -\n3:3 2\n-:-")?);
    assert!(rt; is_reduced(rt.alloc(), 9, "7:7 -\n3:3 2 1\n-:-")?);
    Ok(())
}

fn add_metrics(alloc: Global, metrics: &mut Metrics) -> Result<(), Memory> {
    metrics.push(Metric::Sum(Text::of(alloc, "n")?))?;
    metrics.push(Metric::Min(Text::of(alloc, "n")?))?;
    metrics.push(Metric::Max(Text::of(alloc, "n")?))?;
    metrics.push(Metric::Count)
}

fn all_metrics(alloc: Global) -> Result<Metrics, Memory> {
    let mut metrics = Metrics::new(alloc);
    add_metrics(alloc, &mut metrics)?;
    Ok(metrics)
}

const NAMES: [&str; 4] = ["sum(n)", "min(n)", "max(n)", "count(*)"];

fn has_metrics(tuple: &Tuple, numbers: &str) -> bool {
    let mut numbers = numbers.split_whitespace();
    for name in &NAMES {
        match numbers.next() {
            Some(number) => {
                if !has_number(tuple, name, number) {
                    return false;
                }
            }
            None => return false,
        }
    }
    numbers.next().is_none()
}

fn have_metrics(tuples: &Tuples, metrics: &[&str]) -> bool {
    for k in 0..tuples.count() {
        match metrics.get(k as usize) {
            Some(numbers) => {
                if !has_metrics(tuples.get(k), numbers) {
                    return false;
                }
            }
            None => return false,
        }
    }
    tuples.count() == metrics.len() as u64
}

fn rollup_kernel(alloc: Global) -> Result<RollupKernel, Memory> {
    let over = names(alloc, "k")?;
    let metrics = all_metrics(alloc)?;
    RollupKernel::make(alloc, &over, &metrics)
}

fn is_rolled_up(alloc: Global, rows: &[&str], metrics: &[&str]) -> Result<bool, Memory> {
    let given = given(alloc, rollup_kernel(alloc)?, &[rows])?;
    Ok(have_metrics(&given, metrics))
}

#[test]
fn rollup_counts_and_adds_each_key(rt: HostRuntime) -> Result<(), Fail> {
    let metrics = ["7 7 7 2", "6 1 3 3", "0 - - 1"];
    assert!(rt; is_rolled_up(rt.alloc(), &ROWS, &metrics)?);
    Ok(())
}

#[test]
fn a_sum_wraps_round(rt: HostRuntime) -> Result<(), Fail> {
    let rows = ["k=a n=9223372036854775807", "k=a n=1"];
    let metrics = ["-9223372036854775808 1 9223372036854775807 2"];
    assert!(rt; is_rolled_up(rt.alloc(), &rows, &metrics)?);
    Ok(())
}
