// Expressions at their limits, and reads and writes that fail.
use crate::of_eval::{gives, tells};
use crate::running::{Failing, a_run, fails};
use handler_tests::joining::source;
use handler_tests::samples::{END, OPENING};
use io_edge::NoGate;
use std::alloc::Global;
use std::sync::Wait;
use std::test::Fail;
use std::thread::Threads;
use std::time::Clock as SystemClock;
use tuple_values::{Bytes, Memory};

// A tuple with so many sorts round it.
fn sorts(alloc: Global, times: usize) -> Result<Bytes, Memory> {
    let mut input = Bytes::new(alloc);
    add_times(&mut input, b"sort(", times)?;
    input.extend(b"tuple(a=1)")?;
    add_times(&mut input, b",by=\"a asc\")", times)?;
    Ok(input)
}

fn add_times(bytes: &mut Bytes, piece: &[u8], times: usize) -> Result<(), Memory> {
    for _ in 0..times {
        bytes.extend(piece)?;
    }
    Ok(())
}

// A merge of so many tuples.
fn merged(alloc: Global, tuples: usize) -> Result<Bytes, Memory> {
    let mut input = Bytes::new(alloc);
    input.extend(b"merge(")?;
    add_times(&mut input, b"tuple(),", tuples)?;
    input.extend(b"on=\"a asc\")")?;
    Ok(input)
}

fn are_levels<R: Threads + Wait + SystemClock + Sync>(
    rt: &R,
    alloc: Global,
) -> Result<bool, Memory> {
    Ok(
        gives(rt, alloc, "eval", sorts(alloc, 23)?, "{\"a\":1}")?
            && tells(rt, alloc, "eval", sorts(alloc, 24)?, "TooLarge")?,
    )
}

// How long an answer with 199 tuples of no field is, with a comma behind each.
const WIDE: usize = OPENING.len() + 3 * 199 + END.len();

fn is_wide<R: Threads + Wait + SystemClock + Sync>(rt: &R, alloc: Global) -> Result<bool, Memory> {
    let mut input = source(alloc, merged(alloc, 199)?, None)?;
    let ran = a_run(rt, alloc, "eval", &mut input, None, &NoGate)?;
    Ok(ran.status == 0 && ran.output.bytes().len() == WIDE)
}

#[test]
fn an_expression_has_24_levels_and_200_calls_at_most(rt: HostRuntime) -> Result<(), Fail> {
    assert!(rt; are_levels(&rt, rt.alloc())? && is_wide(&rt, rt.alloc())?);
    let wider = merged(rt.alloc(), 200)?;
    assert!(rt; tells(&rt, rt.alloc(), "eval", wider, "TooLarge")?);
    Ok(())
}

fn is_bytes_told<R: Threads + Wait + SystemClock + Sync>(
    rt: &R,
    alloc: Global,
    bytes: &[u8],
    fault: &str,
) -> Result<bool, Memory> {
    let mut input = Bytes::new(alloc);
    input.extend(bytes)?;
    tells(rt, alloc, "eval", input, fault)
}

#[test]
fn bytes_that_are_no_text_have_their_place(rt: HostRuntime) -> Result<(), Fail> {
    assert!(rt; is_bytes_told(&rt, rt.alloc(), b"tuple(a=\xe2\x82)", "Syntax at 10")?);
    assert!(rt; is_bytes_told(&rt, rt.alloc(), b"tuple(a=\xff)", "Syntax at 8")?);
    Ok(())
}

fn blanks(alloc: Global, count: usize) -> Result<Bytes, Memory> {
    Ok(Bytes::from_vec(vec![in alloc; b' '; count]?))
}

#[test]
fn an_input_has_65_536_bytes_at_most(rt: HostRuntime) -> Result<(), Fail> {
    let long = blanks(rt.alloc(), 65_537)?;
    assert!(rt; tells(&rt, rt.alloc(), "eval", long, "TooLarge")?);
    let short = blanks(rt.alloc(), 65_536)?;
    assert!(rt; tells(&rt, rt.alloc(), "eval", short, "Syntax at 65536")?);
    Ok(())
}

fn faults<R: Threads + Wait + SystemClock + Sync>(
    rt: &R,
    alloc: Global,
    failing: Failing,
    errors: &str,
) -> Result<bool, Memory> {
    fails(rt, alloc, "eval", "tuple()", failing, errors)
}

#[test]
fn a_failing_read_or_write_is_told(rt: HostRuntime) -> Result<(), Fail> {
    assert!(rt; faults(&rt, rt.alloc(), Failing::Input(0), "fault: input\n")?);
    assert!(rt; faults(&rt, rt.alloc(), Failing::Input(2), "fault: input\n")?);
    assert!(rt; faults(&rt, rt.alloc(), Failing::Output(0), "fault: output\n")?);
    Ok(())
}
