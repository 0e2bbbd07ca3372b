// What is made of the tuples of one key.
ghost use Rattle.std.specs.Prelude.{◌≡◌, IfOk, take};
ghost use Rattle.expr_types.specs.Groups.{reduced, with_group};
ghost use Rattle.group_kernels.specs.Work.{worked};

use crate::named::Named;
use crate::rolled::rolled;
use expr_types::GroupOp;
use sort_spec::sort_tuples;
use std::alloc::Global;
use tuple_values::{FieldList, Memory, Text, Tuple, Tuples, Value};

/// What is made of them.
#[derive(Drop)]
pub(crate) enum Work {
    /// The first by a sort, with the first so many as its field `group`.
    Reduce(GroupOp),
    /// The fields of the key and the metrics.
    Rollup(Vec<Named>),
}

/// One tuple of all tuples of a key, which are moved in.
pub(crate) fn worked(
    alloc: Global,
    names: &FieldList,
    work: &Work,
    run: Vec<Tuple>,
) -> Result<Tuple, Memory>
    ensures { IfOk result (λ made. made ≡ worked names.now work.now run.items) }
{
    match work {
        Work::Reduce(op) => reduced(alloc, op, run),
        Work::Rollup(metrics) => rolled(alloc, names, metrics, &run),
    }
}

fn reduced(alloc: Global, op: &GroupOp, run: Vec<Tuple>) -> Result<Tuple, Memory>
    ensures { IfOk result (λ made. made ≡ reduced op.now run.items) }
{
    let sorted = sort_tuples(Tuples::from_vec(run), &op.sort)?;
    with_group(alloc, op.n, sorted.into_vec())
}

// The first tuple, with the first so many as its field `group`.
#[tactic(auto, using(crate::proofs::WorkLemmas::group_steps))]
fn with_group(alloc: Global, n: u64, tuples: Vec<Tuple>) -> Result<Tuple, Memory>
    ensures { IfOk result (λ made. made ≡ with_group n tuples.items) }
{
    let Some(first) = tuples.first() else {
        return Ok(Tuple::empty(alloc));
    };
    let mut head = first.copy(alloc)?;
    let group = Value::Group(Tuples::from_vec(first_of(tuples, n)));
    head.put(Text::of(alloc, "group")?, group)?;
    Ok(head)
}

// The first so many tuples.
fn first_of(tuples: Vec<Tuple>, n: u64) -> Vec<Tuple>
    ensures { result.items ≡ take n tuples.items }
{
    let mut first = tuples;
    if n < first.len() as u64 {
        first.truncate(n as usize);
    }
    first
}
