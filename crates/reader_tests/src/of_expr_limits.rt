// Tests of the limits of expr_reader: bytes, depth and count of calls.
use crate::shown_calls::comes_to;
use expr_reader::ExprFault;
use std::alloc::{AllocError, Global};

fn push_times(out: &mut String, part: &str, times: u64) -> Result<(), AllocError> {
    for _ in 0..times {
        out.push_str(part)?;
    }
    Ok(())
}

// A text so many times, and another behind it.
fn push_repeated(out: &mut String, part: &str, times: u64, behind: &str) -> Result<(), AllocError> {
    push_times(out, part, times)?;
    out.push_str(behind)
}

fn repeated_comes_to(alloc: Global, part: &str, times: u64, behind: &str, want: &str) -> bool {
    let mut text = String::new(alloc);
    push_repeated(&mut text, part, times, behind).is_ok() && comes_to(alloc, text.as_bytes(), want)
}

// `f()` with blanks up to a length.
fn padded_comes_to(alloc: Global, len: u64, want: &str) -> Result<bool, AllocError> {
    let mut text = String::from_str(alloc, "f()")?;
    push_times(&mut text, " ", len.saturating_sub(3))?;
    Ok(comes_to(alloc, text.as_bytes(), want))
}

fn has_text(alloc: Global, fault: ExprFault, want: &str) -> bool {
    match fault.text(alloc) {
        Ok(text) => text.as_str() == want,
        Err(_) => false,
    }
}

fn are_within_65536(alloc: Global) -> bool {
    matches!(padded_comes_to(alloc, 65_536, "f[]"), Ok(true))
        && repeated_comes_to(alloc, ")", 65_536, "", "Syntax at 0")
}

fn are_too_large(alloc: Global) -> bool {
    matches!(padded_comes_to(alloc, 65_537, "TooLarge"), Ok(true))
        && repeated_comes_to(alloc, ")", 65_537, "", "TooLarge")
}

#[test]
fn an_expression_has_at_most_65536_bytes(rt: HostRuntime) {
    assert!(rt; are_within_65536(rt.alloc()) && are_too_large(rt.alloc()));
    assert!(rt; has_text(rt.alloc(), ExprFault::OutOfMemory, "out of memory"));
}

// Calls in one another, so many, of which the last has these arguments.
fn nested(alloc: Global, times: u64, arguments: &str) -> Result<String, AllocError> {
    let mut text = String::new(alloc);
    push_repeated(&mut text, "f(", times, arguments)?;
    push_times(&mut text, ")", times)?;
    Ok(text)
}

// What they are read as, where the arguments are read so.
fn nested_shown(alloc: Global, times: u64, arguments: &str) -> Result<String, AllocError> {
    let mut text = String::new(alloc);
    push_repeated(&mut text, "f[", times, arguments)?;
    push_times(&mut text, "]", times)?;
    Ok(text)
}

fn nested_is_shown(
    alloc: Global,
    times: u64,
    arguments: &str,
    shown: &str,
) -> Result<bool, AllocError> {
    let want = nested_shown(alloc, times, shown)?;
    nested_comes_to(alloc, times, arguments, want.as_str())
}

fn nested_comes_to(
    alloc: Global,
    times: u64,
    arguments: &str,
    want: &str,
) -> Result<bool, AllocError> {
    let text = nested(alloc, times, arguments)?;
    Ok(comes_to(alloc, text.as_bytes(), want))
}

fn are_nested_to_24(alloc: Global) -> bool {
    matches!(nested_is_shown(alloc, 24, "", ""), Ok(true))
        && matches!(
            nested_is_shown(alloc, 23, "g(),k=h() ", "g[],k=h[]"),
            Ok(true)
        )
        && matches!(nested_comes_to(alloc, 25, "", "TooLarge"), Ok(true))
        && repeated_comes_to(alloc, "f(k=", 24, "g( )", "TooLarge")
}

// A call begins with its parenthesis, where one can begin.
fn a_call_begins_where_one_can(alloc: Global) -> bool {
    repeated_comes_to(alloc, "f(", 24, "tuple", "Syntax at 53")
        && repeated_comes_to(alloc, "f(", 24, "tuple(", "TooLarge")
        && repeated_comes_to(alloc, "f(", 24, "1x(", "Syntax at 50")
}

// A fault before the 25th call comes first, and one behind it doesn't.
fn the_first_fault_comes(alloc: Global) -> bool {
    repeated_comes_to(alloc, "f(", 24, ",f(", "Syntax at 48")
        && repeated_comes_to(alloc, "f(", 25, "==", "TooLarge")
}

#[test]
fn at_most_24_calls_stand_one_in_another(rt: HostRuntime) {
    assert!(rt;
        are_nested_to_24(rt.alloc())
            && a_call_begins_where_one_can(rt.alloc())
            && the_first_fault_comes(rt.alloc())
    );
}

// `f` with so many calls of `g` and the text behind them.
fn push_many(out: &mut String, times: u64, behind: &str) -> Result<(), AllocError> {
    out.push_str("f(")?;
    push_repeated(out, "g(),", times, behind)
}

fn push_many_shown(out: &mut String, times: u64, behind: &str) -> Result<(), AllocError> {
    out.push_str("f[")?;
    push_repeated(out, "g[],", times, behind)
}

fn many_come_to(alloc: Global, times: u64, behind: &str, want: &str) -> bool {
    let mut text = String::new(alloc);
    push_many(&mut text, times, behind).is_ok() && comes_to(alloc, text.as_bytes(), want)
}

fn many_are_shown(alloc: Global, times: u64, behind: &str, shown: &str) -> bool {
    let mut want = String::new(alloc);
    push_many_shown(&mut want, times, shown).is_ok()
        && many_come_to(alloc, times, behind, want.as_str())
}

fn has_200_calls(alloc: Global) -> bool {
    many_are_shown(alloc, 198, "g() as h)", "g[] as h]")
        && many_come_to(alloc, 199, "", "Syntax at 798")
        && many_come_to(alloc, 199, "1x(", "Syntax at 800")
        && many_come_to(alloc, 199, "=g(", "Syntax at 798")
}

fn has_201_calls(alloc: Global) -> bool {
    many_come_to(alloc, 199, "g())", "TooLarge") && many_come_to(alloc, 199, "g(", "TooLarge")
}

#[test]
fn at_most_200_calls_stand_in_an_expression(rt: HostRuntime) {
    assert!(rt; has_200_calls(rt.alloc()) && has_201_calls(rt.alloc()));
}
