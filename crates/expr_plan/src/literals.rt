// Literals and numbers that words are read as.
ghost use Rattle.std.specs.Prelude.{◌≡◌, IfOk};
ghost use Rattle.expr_plan.specs.Literals.{literal, literal_or_null, within, flag_of};

use expr_reader::Word;
use std::alloc::Global;
use tuple_values::{Memory, TryCopy, Value, whole};

/// A number where the word is bare and whole, else a text.
pub(crate) fn literal(alloc: Global, word: &Word) -> Result<Value, Memory>
    ensures { IfOk result (λ value. value ≡ literal word.now.text word.now.quoted) }
{
    match whole(word.text.as_str()) {
        Some(n) if !word.quoted => Ok(Value::Long(n)),
        _ => Ok(Value::Text(word.text.copy(alloc)?)),
    }
}

/// The literal that a word is, but none for a bare `null`.
pub(crate) fn literal_or_null(alloc: Global, word: &Word) -> Result<Option<Value>, Memory>
    ensures { IfOk result (λ value. value ≡ literal_or_null word.now) }
{
    if !word.quoted && word.text.as_str() == "null" {
        return Ok(None);
    }
    Ok(Some(literal(alloc, word)?))
}

/// The number, where it is within the limits.
pub(crate) fn within(low: u64, high: u64, number: Option<i64>) -> Option<u64>
    ensures { result ≡ within low high number }
{
    match number {
        Some(n) if n >= 0 => {
            let n = n as u64;
            if low <= n && n <= high { Some(n) } else { None }
        }
        _ => None,
    }
}

/// The number of 16 bits, where it is within the limits.
pub(crate) fn within_small(low: u16, high: u16, number: Option<i64>) -> Option<u16>
    ensures { result ≡ within low high number }
{
    match number {
        Some(n) if n >= 0 => {
            let n = n as u64;
            if u64::from(low) <= n && n <= u64::from(high) {
                Some(n as u16)
            } else {
                None
            }
        }
        _ => None,
    }
}

/// What `true` or `false` says; none for another text.
pub(crate) fn flag_of(text: &str) -> Option<bool>
    ensures { result ≡ flag_of text.now }
{
    if text == "true" {
        Some(true)
    } else if text == "false" {
        Some(false)
    } else {
        None
    }
}
