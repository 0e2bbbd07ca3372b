//! Cases of faults as data: one word a line of input, and its answer on the same line of output.
#![tactic(auto)]

mod case;
mod door_faults;
mod faults;
mod messages;
mod scripts;
mod servers;
mod session;
mod tables;

use case::answer_line;
use session::Session;
use std::alloc::Global;
use std::io::{self, BufRead, BufReader, BufWriter, Write};
use std::sync::Wait;
use std::thread::Threads;
use std::time::Clock as SystemClock;

fn write_answer<R: Threads + Wait + SystemClock + Sync, W: Write>(
    rt: &R,
    alloc: Global,
    session: &mut Session,
    out: &mut W,
    line: &str,
) -> anyhow::Result<()> {
    let answer = answer_line(rt, alloc, session, line)?;
    out.write_all(answer.as_bytes())?;
    out.write_all(b"\n")?;
    Ok(())
}

// The cases are the lines of the input, and the threads are those of the second handle.
fn write_answers<R: Threads + Wait + SystemClock + Sync, W: Write>(
    input: &HostRuntime,
    rt: &R,
    session: &mut Session,
    out: &mut W,
) -> anyhow::Result<()> {
    let alloc = input.alloc();
    for line in BufReader::new(alloc, input.reader())?.lines(alloc) {
        write_answer(rt, alloc, session, out, line?.as_str())?;
    }
    Ok(())
}

fn answer_all<R: Threads + Wait + SystemClock + Sync>(
    input: &HostRuntime,
    rt: &R,
    session: &mut Session,
) -> anyhow::Result<()> {
    let mut out = BufWriter::new(input.alloc(), io::writer(input))?;
    write_answers(input, rt, session, &mut out)?;
    out.flush()?;
    Ok(())
}

fn main(rt: HostRuntime) -> anyhow::Result<()> {
    let mut session = Session::empty(rt.alloc());
    answer_all(&rt, &rt, &mut session)
}
