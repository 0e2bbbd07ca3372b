//! Cases of expressions as data: one case a line of input, and its answer on the same line of output.
#![tactic(auto)]

ghost use Rattle.daemon_board.specs.Rising.{IsKept};
ghost use Rattle.running_site.specs.Sites.{IsPassAt};

mod case;
mod places;
mod requests;
mod sites;

use places::{Place, answer_line, begin};
use std::alloc::Global;
use std::io::{self, BufRead, BufReader, BufWriter, Write};
use std::sync::Wait;
use std::thread::Threads;

/// A shard's counted bytes are at most this, where no case says otherwise.
const LIMIT: u64 = 1_000_000;

fn write_answer<R: Threads + Wait + Sync, W: Write>(
    rt: &R,
    alloc: Global,
    place: &mut Place,
    out: &mut W,
    line: &str,
) -> anyhow::Result<()>
    requires own { IsPassAt place.old.site place.old.pass }
    requires kept { IsKept place.old.board.shown }
    ensures own { IsPassAt place.new.site place.new.pass }
    ensures kept { IsKept place.new.board.shown }
{
    let answer = answer_line(rt, alloc, place, line)?;
    out.write_all(answer.as_slice())?;
    out.write_all(b"\n")?;
    Ok(())
}

// The cases are the lines of the input, and the threads are those of the second handle.
fn write_answers<R: Threads + Wait + Sync, W: Write>(
    input: &HostRuntime,
    rt: &R,
    place: &mut Place,
    out: &mut W,
) -> anyhow::Result<()>
    requires own { IsPassAt place.old.site place.old.pass }
    requires kept { IsKept place.old.board.shown }
{
    let alloc = input.alloc();
    for line in BufReader::new(alloc, input.reader())?.lines(alloc) {
        write_answer(rt, alloc, place, out, line?.as_str())?;
    }
    Ok(())
}

fn answer_all<R: Threads + Wait + Sync>(
    input: &HostRuntime,
    rt: &R,
    place: &mut Place,
) -> anyhow::Result<()>
    requires own { IsPassAt place.old.site place.old.pass }
    requires kept { IsKept place.old.board.shown }
{
    let mut out = BufWriter::new(input.alloc(), io::writer(input))?;
    write_answers(input, rt, place, &mut out)?;
    out.flush()?;
    Ok(())
}

fn main(rt: HostRuntime) -> anyhow::Result<()> {
    let mut place = begin(rt.alloc(), LIMIT, "c=2 d=2")?;
    answer_all(&rt, &rt, &mut *place)
}
