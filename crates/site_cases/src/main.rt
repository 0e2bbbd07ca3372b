//! Cases of topics and deliveries as data: one action a line of input, and its answer on the same
//! line of output.
#![tactic(auto)]

mod case;
mod fixture;
mod keeping;
mod opening;
mod texts;

ghost use Rattle.running_site.specs.Sites.{IsPassAt};

use case::answer;
use fixture::Fixture;
use opening::begin;
use std::alloc::Global;
use std::io::{self, BufRead, BufReader, BufWriter, Write};
use std::sync::Wait;

fn answer_line<R: Wait, W: Write>(
    rt: &R,
    alloc: Global,
    fixture: &mut Fixture,
    out: &mut W,
    line: &str,
) -> anyhow::Result<()>
    requires { IsPassAt fixture.old.site fixture.old.pass }
    ensures { IsPassAt fixture.new.site fixture.new.pass }
{
    let answer = answer(rt, alloc, fixture, line)?;
    out.write_all(answer.as_str().as_bytes())?;
    out.write_all(b"\n")?;
    Ok(())
}

// The actions are the lines of the input, and the waits are those of the second handle.
fn answer_lines<R: Wait, W: Write>(
    input: &HostRuntime,
    rt: &R,
    fixture: &mut Fixture,
    out: &mut W,
) -> anyhow::Result<()>
    requires { IsPassAt fixture.old.site fixture.old.pass }
    ensures { IsPassAt fixture.new.site fixture.new.pass }
{
    let alloc = input.alloc();
    for line in BufReader::new(alloc, input.reader())?.lines(alloc) {
        answer_line(rt, alloc, fixture, out, line?.as_str())?;
    }
    Ok(())
}

fn main(rt: HostRuntime) -> anyhow::Result<()> {
    let mut fixture = begin(rt.alloc(), 1_000_000)?;
    let mut out = BufWriter::new(rt.alloc(), io::writer(&rt))?;
    answer_lines(&rt, &rt, &mut fixture, &mut out)?;
    out.flush()?;
    Ok(())
}
