// One case, and its answer.
use crate::runs::{Then, tell};
use crate::texts::bytes_of;
use std::alloc::Global;
use tuple_values::{Bytes, Memory, Numbers};

// The numbers with a comma between them; what is none is left out.
fn numbers_of(alloc: Global, text: &str) -> Result<Numbers, Memory> {
    let mut numbers = Numbers::new(alloc);
    for word in text.split(',') {
        if let Ok(number) = word.parse::<u64>() {
            numbers.push(number)?;
        }
    }
    Ok(numbers)
}

// What is done at the end: `CALLS/BYTES` for a stop.
fn then_of(word: Option<&str>) -> Then {
    let Some((calls, bytes)) = word.and_then(|word| word.split_once('/')) else {
        return Then::Reopen;
    };
    Then::Stop {
        calls: calls.parse().unwrap_or(0),
        bytes: bytes.parse().unwrap_or(0),
    }
}

/// The answer to a case.
pub fn answer(alloc: Global, line: &str) -> Result<String, Memory> {
    let mut text = String::new(alloc);
    let mut words = line.split_whitespace();
    let (Some(file), Some(failing), Some(steps)) = (words.next(), words.next(), words.next()) else {
        text.push_str("no case")?;
        return Ok(text);
    };
    let bytes = Bytes::from_vec(bytes_of(alloc, file)?);
    let failing = numbers_of(alloc, failing)?;
    tell(
        alloc,
        &mut text,
        bytes,
        failing,
        steps,
        then_of(words.next()),
    )?;
    Ok(text)
}
