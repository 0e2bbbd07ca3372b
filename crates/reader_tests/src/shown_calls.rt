// Calls as a row of a table writes them.
use expr_reader::{Arg, ArgValue, Call, ExprFault, Word, read_expr};
use std::alloc::{AllocError, Global};
use tuple_values::Memory;

// A word as a row of a table writes it: `<x>` is bare, `"x"` quoted.
fn push_word(out: &mut String, word: &Word) -> Result<(), AllocError> {
    let (open, close) = if word.quoted {
        ("\"", "\"")
    } else {
        ("<", ">")
    };
    out.push_str(open)?;
    out.push_str(word.text.as_str())?;
    out.push_str(close)
}

#[cycle(showing)]
fn push_arg(out: &mut String, arg: &Arg) -> Result<(), AllocError> {
    match arg {
        Arg::Plain(word) => push_word(out, word),
        Arg::Named { key, value } => {
            out.push_str(key.as_str())?;
            out.push_str("=")?;
            match value {
                ArgValue::Plain(word) => push_word(out, word),
                ArgValue::Sub(call) => push_call(out, call),
            }
        }
        Arg::Sub(call) => push_call(out, call),
        Arg::Renamed { call, to } => {
            push_call(out, call)?;
            out.push_str(" as ")?;
            out.push_str(to.as_str())
        }
    }
}

/// A call as a row of a table writes it: its name, and its arguments in brackets.
#[cycle(showing)]
pub(crate) fn push_call(out: &mut String, call: &Call) -> Result<(), AllocError> {
    out.push_str(call.name.as_str())?;
    out.push_str("[")?;
    for k in 0..call.args.count() {
        if k > 0 {
            out.push_str(",")?;
        }
        push_arg(out, call.args.get(k))?;
    }
    out.push_str("]")
}

fn push_fault(alloc: Global, out: &mut String, fault: ExprFault) -> Result<(), Memory> {
    let text = fault.text(alloc)?;
    Ok(out.push_str(text.as_str())?)
}

// What the bytes are read as, or their fault.
fn push_outcome(alloc: Global, out: &mut String, bytes: &[u8]) -> Result<(), Memory> {
    match read_expr(alloc, bytes) {
        Ok(call) => Ok(push_call(out, &call)?),
        Err(fault) => push_fault(alloc, out, fault),
    }
}

/// Whether the bytes are read as this, or have this fault.
pub(crate) fn comes_to(alloc: Global, bytes: &[u8], want: &str) -> bool {
    let mut out = String::new(alloc);
    push_outcome(alloc, &mut out, bytes).is_ok() && out.as_str() == want
}
