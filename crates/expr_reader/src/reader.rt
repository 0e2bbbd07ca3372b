// The reading of a whole input.
ghost use Rattle.std.specs.Prelude.{◌≡◌, ◌<◌, ◌≤◌, take, drop, length, Some, IfOk, IfErr};
ghost use Rattle.std.specs.Prelude.{IsErrOf};
ghost use Rattle.std.specs.Str.{chars};
ghost use Rattle.std.specs.Str.Lossy.{utf8_valid_len};
ghost use Rattle.expr_reader.specs.Tree.{CallTree, KeepsLimits};
ghost use Rattle.expr_reader.specs.Views.{call_tree};
ghost use Rattle.expr_reader.specs.Agreement.{Agrees};
ghost use Rattle.expr_reader.specs.Grammar.{IsExpression, IsPlace, byte_limit};
ghost use Rattle.expr_reader.specs.Machine.{machine, start};
ghost use Rattle.expr_reader.specs.Reading.{run, read_of};
ghost use Rattle.expr_reader.specs.Fault.{IfPlaced, TellsLarge, Answers, EndsIn};

use crate::machine::Reading;
use crate::{Call, ExprFault};
use std::alloc::Global;
use std::str;
use tuple_values::Memory;

// How many bytes an expression may have.
const BYTE_LIMIT: usize = 65_536;

// Runs over a text, up to the first character with which no expression goes on, or past a limit.
fn run(reading: &mut Reading, text: &str) -> Result<Option<ExprFault>, Memory>
    requires fresh { machine reading.old ≡ start }
    requires small { length text.now ≤ byte_limit }
    ensures { IfOk result (λ fault.
        EndsIn (run 0 start (chars text.now)) (machine reading.new) fault) }
{
    let mut at: u64 = 0;
    for c in text.chars() {
        if !reading.step(c)? {
            return Ok(Some(ExprFault::Syntax { at }));
        }
        if reading.is_over() {
            return Ok(Some(ExprFault::TooLarge));
        }
        at += c.len_utf8() as u64;
    }
    Ok(None)
}

// The longest front that is text.
fn text_of(bytes: &[u8]) -> &str
    ensures { result.now ≡ take (utf8_valid_len bytes.now) bytes.now }
{
    match str::from_utf8(bytes) {
        Ok(text) => text,
        Err(fault) => match str::from_utf8(&bytes[..fault.valid_up_to()]) {
            Ok(text) => text,
            Err(_) => unreachable!(),
        },
    }
}

// Reads bytes that aren't too many.
fn read(alloc: Global, bytes: &[u8]) -> Result<Call, ExprFault>
    requires { length bytes.now ≤ byte_limit }
    ensures { Answers (read_of bytes.now) result }
{
    let text = text_of(bytes);
    let mut reading = Reading::new(alloc);
    if let Some(fault) = run(&mut reading, text)? {
        return Err(fault);
    }
    reading.finish(text.len() as u64, &bytes[text.len()..])
}

/// Reads an expression (Solr Reference Guide, "Streaming Expressions"). At most 24 calls may be
/// open at once, and 200 begun in all. A place is the length of the longest front with which some
/// expression begins, in bytes: the place of the first byte that no continuation repairs.
pub fn read_expr(alloc: Global, bytes: &[u8]) -> Result<Call, ExprFault>
    // What is read is what the bytes say, within the limits, and they say nothing else.
    ensures ok { IfOk result (λ call. IsExpression bytes.now (call_tree call)) }
    ensures limits { IfOk result (λ call. KeepsLimits (call_tree call)) }
    ensures only { IfOk result (λ call. (other : CallTree)
        → IsExpression bytes.now other → other ≡ call_tree call) }

    // Bytes are too large for their number alone, or by the calls in what can be read of them.
    ensures too_long { byte_limit < length bytes.now → IsErrOf result ExprFault.TooLarge }
    ensures too_large { TellsLarge bytes.now result }

    // A fault with a place comes only where they are no expression, and the place is theirs.
    ensures refused { IfErr result (λ fault. IfPlaced fault
        (λ at. (other : CallTree) → ¬ (IsExpression bytes.now other))) }
    ensures place { IfErr result (λ fault. IfPlaced fault (IsPlace bytes.now)) }

    // All of this as a function of the bytes.
    ensures computed { Answers (read_of bytes.now) result }
{
    if bytes.len() > BYTE_LIMIT {
        return Err(ExprFault::TooLarge);
    }
    read(alloc, bytes)
}

/// The computed reading is what the bytes say within the limits, and its faults are theirs: for all
/// bytes it agrees with the grammar. No memory comes into it.
pub fn readings_agree()
    ensures { Agrees read_of }
{}
