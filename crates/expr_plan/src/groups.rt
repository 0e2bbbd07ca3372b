// The group among the arguments of `reduce`.
ghost use Rattle.std.specs.Prelude.{◌≡◌, IfOk, Some};
ghost use Rattle.expr_reader.specs.Views.{call_tree};
ghost use Rattle.expr_plan.specs.GroupReading.{grouped, group_called, group_of_call};

use crate::GroupOp;
use crate::literals::within;
use crate::words::word_under;
use expr_reader::{Args, Call, Word};
use sort_spec::{SortFault, read_sort};
use std::alloc::Global;
use tuple_values::{Memory, whole};

/// The greatest number of tuples that may be asked for.
pub(crate) const COUNT_LIMIT: u64 = 1_000_000;

fn grouped(alloc: Global, by: &Word, n: &Word) -> Result<Option<GroupOp>, Memory>
    ensures { IfOk result (λ op. op ≡ grouped (Some by.now) (Some n.now)) }
{
    let Some(n) = within(1, COUNT_LIMIT, whole(n.text.as_str())) else {
        return Ok(None);
    };
    match read_sort(alloc, by.text.as_str()) {
        Ok(sort) => Ok(Some(GroupOp { sort, n })),
        Err(SortFault::BadSort { .. }) => Ok(None),
        Err(SortFault::OutOfMemory) => Err(Memory::OutOfMemory),
    }
}

// The group of two arguments.
fn group_called(alloc: Global, args: &Args) -> Result<Option<GroupOp>, Memory>
    ensures { IfOk result (λ op. op ≡ group_called args.now) }
{
    if args.count() != 2 {
        return Ok(None);
    }
    match (word_under(args, "sort"), word_under(args, "n")) {
        (Some(by), Some(n)) => grouped(alloc, by, n),
        _ => Ok(None),
    }
}

/// The group that a call is.
#[tactic(auto, using(crate::proofs::WordsLemmas::list_steps))]
pub(crate) fn group_of(alloc: Global, call: &Call) -> Result<Option<GroupOp>, Memory>
    ensures { IfOk result (λ op. op ≡ group_of_call (call_tree call.now)) }
{
    group_called(alloc, &call.args)
}
