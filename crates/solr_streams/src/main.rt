//! Streaming expressions over collections of flat documents: the program.
#![tactic(auto)]

use io_edge::{NoGate, ReaderSource, Sink, Source, WriterSink};
use server_edge::{SharedListener, SteadyClock, TcpDoor};
use std::alloc::Global;
use std::net::{Net, TcpListener, TcpStream};
use std::process::ExitCode;
use std::sync::Wait;
use std::thread::Threads;
use std::time::Clock;
use stream_commands::{DOORS, DoorRow, Ending, read_words, run_words};
use stream_handler::SessionEnd;
use tuple_values::{Memory, Sequence, Words};

/// A row of real doors, which share one listener.
fn real_doors<'a, R: Net<Listener = TcpListener, Stream = TcpStream> + Wait + Sync>(
    rt: &'a R,
    alloc: Global,
    shared: &'a SharedListener,
) -> Result<Option<DoorRow<TcpDoor<'a, R, SessionEnd>>>, Memory> {
    let mut doors = Sequence::new(alloc);
    for _ in 0..DOORS {
        doors.push(TcpDoor::new(rt, shared))?;
    }
    Ok(DoorRow::of(doors))
}

/// Writes the line of an ending, and answers its status.
fn tell<E: Sink>(ending: Ending, errors: &mut E) -> u8 {
    let status = ending.status();
    ending.say(errors);
    status
}

/// Runs the command of the words over these streams, real doors and the system's clock.
fn run<
    R: Net<Listener = TcpListener, Stream = TcpStream> + Threads + Wait + Clock + Sync,
    I: Source,
    O: Sink,
    E: Sink,
>(rt: &R, alloc: Global, words: &Words, input: &mut I, output: &mut O, errors: &mut E) -> u8 {
    let shared = SharedListener::unbound();
    let Ok(Some(mut row)) = real_doors(rt, alloc, &shared) else {
        return tell(Ending::OutOfMemory, errors);
    };
    let clock = SteadyClock::new(rt);
    run_words(
        rt, alloc, words, input, output, errors, &mut row, &clock, &NoGate,
    )
}

fn main(rt: HostRuntime) -> ExitCode {
    let mut errors = WriterSink::new(rt.stderr());
    let status = match read_words(&rt) {
        Ok(words) => run(
            &rt,
            rt.alloc(),
            &words,
            &mut ReaderSource::new(rt.stdin()),
            &mut WriterSink::new(rt.stdout()),
            &mut errors,
        ),
        Err(ending) => tell(ending, &mut errors),
    };
    ExitCode::from(status)
}
