//! Cases of threads at one site as data: one action a line of input, and its answer on the same
//! line of output.
#![tactic(auto)]

mod agreeing;
mod alone;
mod baton;
mod case;
mod documents;
mod indexing;
mod overtaking;
mod showing;
mod workers;

use case::answer;
use std::alloc::Global;
use std::io::{self, BufRead, BufReader, BufWriter, Write};
use std::sync::Wait;
use std::thread::Threads;

fn answer_line<R: Threads + Wait + Sync, W: Write>(
    rt: &R,
    alloc: Global,
    out: &mut W,
    line: &str,
) -> anyhow::Result<()> {
    let answer = answer(rt, alloc, line)?;
    out.write_all(answer.as_str().as_bytes())?;
    out.write_all(b"\n")?;
    Ok(())
}

// The actions are the lines of the input, and the threads are those of the second handle.
fn answer_lines<R: Threads + Wait + Sync, W: Write>(
    input: &HostRuntime,
    rt: &R,
    out: &mut W,
) -> anyhow::Result<()> {
    let alloc = input.alloc();
    for line in BufReader::new(alloc, input.reader())?.lines(alloc) {
        answer_line(rt, alloc, out, line?.as_str())?;
    }
    Ok(())
}

fn main(rt: HostRuntime) -> anyhow::Result<()> {
    let mut out = BufWriter::new(rt.alloc(), io::writer(&rt))?;
    answer_lines(&rt, &rt, &mut out)?;
    out.flush()?;
    Ok(())
}
