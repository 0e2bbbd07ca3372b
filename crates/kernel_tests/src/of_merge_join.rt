// Tests of merge_join: that the joins mean what the rules say, and that each call that takes memory
// succeeds.
use crate::feeding::given;
use crate::making::{pair, sort_by};
use crate::telling::are_marked;
use merge_join::{ExistKernel, JoinKernel};
use sort_spec::OnSpec;
use std::alloc::Global;
use std::test::Fail;
use tuple_values::Memory;

const INPUTS: [&[&str]; 2] = [
    &[
        "mark=a",
        "a=1 mark=b",
        "a=3 mark=c",
        "a=3 mark=d",
        "a=4 mark=e",
    ],
    &[
        "mark=p",
        "b=2 mark=q",
        "b=3 mark=r",
        "b=3 mark=s",
        "b=5 mark=t",
    ],
];

fn on_of(alloc: Global) -> Result<OnSpec, Memory> {
    let mut on = OnSpec::new(alloc);
    on.push(pair(alloc, "a", "b")?)?;
    Ok(on)
}

fn exist_kernel(alloc: Global, with_equal: bool) -> Result<ExistKernel, Memory> {
    let on = on_of(alloc)?;
    let order = sort_by(alloc, "a", false)?;
    ExistKernel::make(alloc, with_equal, &on, &order)
}

fn join_kernel(alloc: Global, outer: bool) -> Result<JoinKernel, Memory> {
    let on = on_of(alloc)?;
    let order = sort_by(alloc, "a", false)?;
    JoinKernel::make(alloc, outer, &on, &order)
}

// What is given of the left tuples that have an equal, or that have none.
fn exist(alloc: Global, with_equal: bool, marks: &str) -> Result<bool, Memory> {
    let given = given(alloc, exist_kernel(alloc, with_equal)?, &INPUTS)?;
    Ok(are_marked(&given, &["mark"], marks))
}

fn join(alloc: Global, outer: bool, marks: &str) -> Result<bool, Memory> {
    let given = given(alloc, join_kernel(alloc, outer)?, &INPUTS)?;
    Ok(are_marked(&given, &["mark"], marks))
}

#[test]
fn left_tuples_meet_the_right_ones_of_their_key(rt: HostRuntime) -> Result<(), Fail> {
    assert!(rt; exist(rt.alloc(), true, "acd")?);
    assert!(rt; join(rt.alloc(), true, "pbrsrse")?);
    assert!(rt; exist(rt.alloc(), false, "be")?);
    assert!(rt; join(rt.alloc(), false, "prsrs")?);
    Ok(())
}
