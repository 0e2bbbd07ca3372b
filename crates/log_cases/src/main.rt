//! Cases of a log on a disk as data: one case a line of input, and its answer on the same line of
//! output. With words a log in a file of the current folder is written, or read.
#![tactic(auto)]

mod case;
mod files;
mod runs;
mod steps;
mod texts;

use case::answer;
use disk_edge::FolderDisks;
use files::{append_many, count_steps};
use std::alloc::Global;
use std::env;
use std::io::{self, BufRead, BufReader, BufWriter, Write};
use tuple_values::{Text, Words};

fn answer_line<W: Write>(alloc: Global, out: &mut W, line: &str) -> anyhow::Result<()> {
    let answer = answer(alloc, line)?;
    out.write_all(answer.as_bytes())?;
    out.write_all(b"\n")?;
    Ok(())
}

fn answer_lines<W: Write>(rt: &HostRuntime, out: &mut W) -> anyhow::Result<()> {
    let alloc = rt.alloc();
    for line in BufReader::new(alloc, rt.reader())?.lines(alloc) {
        answer_line(alloc, out, line?.as_str())?;
    }
    Ok(())
}

fn answer_all(rt: &HostRuntime) -> anyhow::Result<()> {
    let mut out = BufWriter::new(rt.alloc(), io::writer(rt))?;
    answer_lines(rt, &mut out)?;
    out.flush()?;
    Ok(())
}

// The words behind the program's name.
fn words(rt: &HostRuntime) -> anyhow::Result<Words> {
    let mut words = Words::new(rt.alloc());
    for word in env::args(rt)?.skip(1) {
        words.push(Text::from_string(word))?;
    }
    Ok(words)
}

// A word as a number, and 0 where it is none.
fn number_at(words: &Words, place: usize) -> u64 {
    match words.get(place) {
        Some(word) => word.as_str().parse().unwrap_or(0),
        None => 0,
    }
}

// What the words ask of the file that they name.
fn work_on(rt: &HostRuntime, words: &Words, name: &Text) -> anyhow::Result<()> {
    let mut disks = FolderDisks::new(rt.clone()?, rt.alloc());
    let mut out = io::writer(rt);
    match words.get(0) {
        Some(word) if word.as_str() == "append" => append_many(
            rt.alloc(),
            &mut disks,
            name,
            &mut out,
            number_at(words, 2),
            number_at(words, 3),
        ),
        _ => count_steps(rt.alloc(), &mut disks, name, &mut out),
    }
}

fn main(rt: HostRuntime) -> anyhow::Result<()> {
    let words = words(&rt)?;
    match words.get(1) {
        Some(name) => work_on(&rt, &words, name),
        None => answer_all(&rt),
    }
}
