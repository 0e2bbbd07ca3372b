// Tests of hash_join: that the joins mean what the rules say, and that each call that takes memory
// succeeds.
use crate::feeding::given;
use crate::making::pair;
use crate::telling::are_marked;
use hash_join::HashJoinKernel;
use sort_spec::OnSpec;
use std::alloc::Global;
use std::test::Fail;
use tuple_values::Memory;

fn on_of(alloc: Global) -> Result<OnSpec, Memory> {
    let mut on = OnSpec::new(alloc);
    on.push(pair(alloc, "a", "x")?)?;
    on.push(pair(alloc, "b", "y")?)?;
    Ok(on)
}

fn join_kernel(alloc: Global, outer: bool) -> Result<HashJoinKernel, Memory> {
    let on = on_of(alloc)?;
    HashJoinKernel::make(alloc, outer, &on)
}

// The marks are for each tuple that a join gives that of the left one, and the one that both have.
fn join(alloc: Global, outer: bool, inputs: &[&[&str]], marks: &str) -> Result<bool, Memory> {
    let given = given(alloc, join_kernel(alloc, outer)?, inputs)?;
    Ok(are_marked(&given, &["left", "mark"], marks))
}

// Left and right tuples, which join by a and x, and by b and y, and what an inner and an outer join
// give of them.
type Joined = ([&'static [&'static str]; 2], &'static str, &'static str);

const REPEATED: Joined = (
    [
        &[
            "a=1 left=p mark=p",
            "a=2 left=q mark=q",
            "a=1 left=r mark=r",
        ],
        &[
            "x=1 right=u mark=u",
            "x=3 right=v mark=v",
            "x=1 right=w mark=w",
        ],
    ],
    "pupwrurw",
    "pupwqqrurw",
);

const ABSENT: Joined = (
    [
        &["left=p mark=p"],
        &["x=0 right=u mark=u", "right=v mark=v"],
    ],
    "pv",
    "pv",
);

const TWO_KINDS: Joined = (
    [
        &["a=1 left=p mark=p", "a='1 left=q mark=q"],
        &["x='1 right=u mark=u"],
    ],
    "qu",
    "ppqu",
);

// Groups, whose key texts are alike.
const GROUPS: Joined = (
    [
        &[
            "a=*1 left=p mark=p",
            "a=*2 left=q mark=q",
            "a=*3 left=r mark=r",
        ],
        &[
            "x=*2 right=u mark=u",
            "x=*1 right=v mark=v",
            "x=*2 right=w mark=w",
        ],
    ],
    "pvquqw",
    "pvquqwrr",
);

const ONE_PAIR_DIFFERS: Joined = (
    [
        &["a=1 b=c left=p mark=p", "a=1 b=d left=q mark=q"],
        &["x=1 y=d right=u mark=u", "x=2 y=c right=v mark=v"],
    ],
    "qu",
    "ppqu",
);

const NO_LEFT: Joined = ([&[], &["x=1 right=u mark=u"]], "", "");

const NO_RIGHT: Joined = ([&["a=1 left=p mark=p"], &[]], "", "pp");

fn joins(alloc: Global, joined: &Joined) -> Result<bool, Memory> {
    let (inputs, inner, outer) = joined;
    Ok(join(alloc, false, inputs, inner)? && join(alloc, true, inputs, outer)?)
}

fn keys_meet(alloc: Global) -> Result<bool, Memory> {
    Ok(joins(alloc, &REPEATED)? && joins(alloc, &ABSENT)? && joins(alloc, &TWO_KINDS)?)
}

fn groups_and_pairs_meet(alloc: Global) -> Result<bool, Memory> {
    Ok(joins(alloc, &GROUPS)? && joins(alloc, &ONE_PAIR_DIFFERS)?)
}

fn empty_sides_meet(alloc: Global) -> Result<bool, Memory> {
    Ok(joins(alloc, &NO_LEFT)? && joins(alloc, &NO_RIGHT)?)
}

#[test]
fn left_tuples_meet_the_right_ones_of_their_values(rt: HostRuntime) -> Result<(), Fail> {
    assert!(rt; keys_meet(rt.alloc())?);
    assert!(rt; groups_and_pairs_meet(rt.alloc())?);
    assert!(rt; empty_sides_meet(rt.alloc())?);
    Ok(())
}
