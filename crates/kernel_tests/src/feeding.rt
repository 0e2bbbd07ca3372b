// Kernels that are asked, and fed what they need.
use crate::making::{Input, input};
use kernel_laws::{Ask, Kernel};
use std::alloc::Global;
use tuple_values::{Memory, Tuple, Tuples};

fn next(inputs: &mut Vec<Input>, i: u32) -> Option<Tuple> {
    match inputs.get_mut(i as usize) {
        Some(input) => input.pop_front(),
        None => None,
    }
}

// Asks once; false where the kernel has ended.
fn goes_on<K: Kernel>(
    kernel: &mut K,
    inputs: &mut Vec<Input>,
    given: &mut Tuples,
) -> Result<bool, Memory> {
    match kernel.ask()? {
        Ask::Emit(tuple) => given.push(tuple)?,
        Ask::Need(i) => kernel.feed(i, next(inputs, i))?,
        Ask::End => return Ok(false),
    }
    Ok(true)
}

fn run<K: Kernel>(
    kernel: &mut K,
    inputs: &mut Vec<Input>,
    given: &mut Tuples,
) -> Result<(), Memory> {
    for _ in 0..100 {
        if !goes_on(kernel, inputs, given)? {
            return Ok(());
        }
    }
    Ok(())
}

fn add_inputs(alloc: Global, inputs: &mut Vec<Input>, rows: &[&[&str]]) -> Result<(), Memory> {
    for rows in rows {
        inputs.push(input(alloc, rows)?)?;
    }
    Ok(())
}

fn inputs(alloc: Global, rows: &[&[&str]]) -> Result<Vec<Input>, Memory> {
    let mut inputs = Vec::new(alloc);
    add_inputs(alloc, &mut inputs, rows)?;
    Ok(inputs)
}

/// What a kernel gives of these inputs, each a list of tuples.
pub(crate) fn given<K: Kernel>(
    alloc: Global,
    kernel: K,
    rows: &[&[&str]],
) -> Result<Tuples, Memory> {
    let mut kernel = kernel;
    let mut inputs = inputs(alloc, rows)?;
    let mut given = Tuples::empty(alloc);
    run(&mut kernel, &mut inputs, &mut given)?;
    Ok(given)
}
