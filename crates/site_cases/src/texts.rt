// What an answer is told as.
use shard_versions::{CutMark, OwnMark, Record};
use std::alloc::Global;
use stream_site::Sent;
use tuple_values::{Memory, Text, Versions};

fn push_number(alloc: Global, text: &mut String, number: u64) -> Result<(), Memory> {
    let number = format!(in alloc; "{number}")?;
    Ok(text.push_str(number.as_str())?)
}

// The numbers with a blank between them.
fn push_numbers(alloc: Global, text: &mut String, numbers: &Versions) -> Result<(), Memory> {
    for (k, number) in numbers.as_slice().iter().enumerate() {
        if k > 0 {
            text.push_str(" ")?;
        }
        push_number(alloc, text, *number)?;
    }
    Ok(())
}

pub fn numbers_text(alloc: Global, numbers: &Versions) -> Result<Text, Memory> {
    let mut text = String::new(alloc);
    push_numbers(alloc, &mut text, numbers)?;
    Ok(Text::from_string(text))
}

pub fn sent_text(alloc: Global, sent: Sent) -> Result<Text, Memory> {
    let (admitted, refused) = (sent.admitted, sent.refused);
    Ok(Text::from_string(format!(in alloc; "admitted {admitted} refused {refused}")?))
}

fn push_look(alloc: Global, text: &mut String, mark: &CutMark) -> Result<(), Memory> {
    let (cell, upto) = (mark.cell, mark.upto);
    let look = format!(in alloc; " {cell}:{upto}")?;
    Ok(text.push_str(look.as_str())?)
}

// Each look is a cell with how many entries were seen; `-` for none.
fn push_looks(alloc: Global, text: &mut String, marks: &[CutMark]) -> Result<(), Memory> {
    text.push_str("looks")?;
    if marks.is_empty() {
        text.push_str(" -")?;
    }
    for mark in marks {
        push_look(alloc, text, mark)?;
    }
    Ok(())
}

fn push_step(alloc: Global, text: &mut String, own: &OwnMark) -> Result<(), Memory> {
    let (cell, from, count) = (own.cell, own.from, own.count);
    let step = format!(in alloc; " {cell}:{from}+{count}")?;
    Ok(text.push_str(step.as_str())?)
}

// Each own step is a cell with the place of its first entry and how many there are; `-` for none.
fn push_steps(alloc: Global, text: &mut String, own: &[OwnMark]) -> Result<(), Memory> {
    text.push_str(" own")?;
    if own.is_empty() {
        text.push_str(" -")?;
    }
    for step in own {
        push_step(alloc, text, step)?;
    }
    Ok(())
}

// The looks, and then the own steps.
fn push_record(alloc: Global, text: &mut String, record: &Record) -> Result<(), Memory> {
    push_looks(alloc, text, record.marks.as_slice())?;
    push_steps(alloc, text, record.own.as_slice())
}

pub fn record_text(alloc: Global, record: &Record) -> Result<Text, Memory> {
    let mut text = String::new(alloc);
    push_record(alloc, &mut text, record)?;
    Ok(Text::from_string(text))
}
