// Tests of kernel_laws: the call that takes memory succeeds.
use kernel_laws::OneInput;
use std::alloc::Global;
use tuple_values::{Memory, Tuple};

// How many tuples are held where one is pushed.
fn held(alloc: Global) -> Result<usize, Memory> {
    let mut input = OneInput::open();
    let mut held = Vec::new(alloc);
    input.push(&mut held, Tuple::empty(alloc))?;
    input.keep(Ok(held.len()))
}

#[test]
fn a_tuple_is_held_where_there_is_memory(rt: HostRuntime) {
    assert!(rt; matches!(held(rt.alloc()), Ok(1)));
}
