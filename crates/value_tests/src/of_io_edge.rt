// Tests of io_edge: what the calls answer, and what the adapters make of readers and writers.
ghost use Rattle.std.specs.Prelude.{◌<◌, length};

use io_edge::{
    Gate, MemorySink, MemorySource, NoGate, Point, Put, ReaderSource, Sink, Source, Taken,
    WriterSink,
};
use std::alloc::Global;
use std::io;
use std::io::{ErrorKind, Read, Write};
use tuple_values::{Bytes, Memory, Numbers};

fn bytes_of(alloc: Global, text: &str) -> Result<Bytes, Memory> {
    let mut bytes = Bytes::new(alloc);
    bytes.extend(text.as_bytes())?;
    Ok(bytes)
}

fn numbers_of(alloc: Global, first: u64) -> Result<Numbers, Memory> {
    let mut numbers = Numbers::new(alloc);
    numbers.push(first)?;
    Ok(numbers)
}

fn numbers_of_two(alloc: Global, first: u64, second: u64) -> Result<Numbers, Memory> {
    let mut numbers = numbers_of(alloc, first)?;
    numbers.push(second)?;
    Ok(numbers)
}

// A take of any source, through the bound.
fn taken<S: Source>(source: &mut S, room: &mut [u8]) -> Taken
    requires { 0 < length room.old }
{
    source.take(room)
}

// A put to any sink, through the bound.
fn answered<S: Sink>(sink: &mut S, piece: &str) -> Put {
    sink.put(piece.as_bytes())
}

// A reader that gives one byte at a call, fails at its call 1 and ends at its call 3.
#[derive(Drop)]
struct Flaky {
    calls: u8,
}

impl Read for Flaky {
    fn read(&mut self, buf: &mut [u8]) -> io::Result<usize> {
        let call = self.calls;
        self.calls = self.calls.saturating_add(1);
        if call == 1 {
            return Err(io::Error::from(ErrorKind::BrokenPipe));
        }
        if call >= 3 || buf.is_empty() {
            return Ok(0);
        }
        buf[0] = b'x';
        Ok(1)
    }
}

// A writer that takes two bytes at a call, fails at its call 1 and takes nothing from its call 3.
#[derive(Drop)]
struct Narrow {
    calls: u8,
}

impl Write for Narrow {
    fn write(&mut self, buf: &[u8]) -> io::Result<usize> {
        let call = self.calls;
        self.calls = self.calls.saturating_add(1);
        if call == 1 {
            return Err(io::Error::from(ErrorKind::BrokenPipe));
        }
        if call >= 3 {
            return Ok(0);
        }
        Ok(buf.len().min(2))
    }

    fn flush(&mut self) -> io::Result<()> {
        Ok(())
    }
}

// Whether a take of at most so many bytes is so answered, and what it gave.
fn gives<S: Source>(source: &mut S, size: usize, want: Taken, front: &str) -> bool {
    let mut room = [0u8; 10];
    if size == 0 || size > 10 || front.len() > 10 {
        return false;
    }
    taken(source, &mut room[..size]) == want && &room[..front.len()] == front.as_bytes()
}

fn gives_as_the_rules_say(source: &mut MemorySource) -> bool {
    gives(source, 3, Taken::Got(3), "abc")
        && gives(source, 10, Taken::Failed, "")
        && gives(source, 1, Taken::Got(1), "d")
        && gives(source, 10, Taken::Got(2), "ef")
        && gives(source, 10, Taken::Ended, "")
        && gives(source, 10, Taken::Failed, "")
        && gives(source, 10, Taken::Ended, "")
}

fn source_that_fails(alloc: Global) -> Result<MemorySource, Memory> {
    let bytes = bytes_of(alloc, "abcdef")?;
    Ok(MemorySource::new(bytes, 4, numbers_of_two(alloc, 1, 5)?))
}

fn fails_where_it_is_to(alloc: Global) -> Result<bool, Memory> {
    let mut source = source_that_fails(alloc)?;
    Ok(gives_as_the_rules_say(&mut source))
}

#[test]
fn a_source_in_memory_gives_pieces_and_fails_where_it_is_to(rt: HostRuntime) {
    assert!(rt; matches!(fails_where_it_is_to(rt.alloc()), Ok(true)));
}

fn gives_two_pieces(alloc: Global) -> Result<bool, Memory> {
    let bytes = bytes_of(alloc, "abcdef")?;
    let mut source = MemorySource::new(bytes, 4, Numbers::new(alloc));
    let first = gives(&mut source, 10, Taken::Got(4), "abcd");
    Ok(first && gives(&mut source, 10, Taken::Got(2), "ef"))
}

#[test]
fn no_piece_is_longer_than_the_greatest(rt: HostRuntime) {
    assert!(rt; matches!(gives_two_pieces(rt.alloc()), Ok(true)));
}

// Whether a put is so answered, and what is kept then.
fn keeps(sink: &mut MemorySink, piece: &str, want: Put, kept: &str) -> bool {
    answered(sink, piece) == want && sink.bytes() == kept.as_bytes()
}

fn keeps_as_the_rules_say(sink: &mut MemorySink) -> bool {
    keeps(sink, "ab", Put::All, "ab")
        && keeps(sink, "cd", Put::Failed, "ab")
        && keeps(sink, "", Put::All, "ab")
        && keeps(sink, "ef", Put::All, "abef")
}

fn keeps_the_pieces(alloc: Global) -> Result<bool, Memory> {
    let mut sink = MemorySink::new(alloc, numbers_of(alloc, 1)?);
    Ok(keeps_as_the_rules_say(&mut sink))
}

#[test]
fn a_sink_in_memory_keeps_the_pieces_and_fails_where_it_is_to(rt: HostRuntime) {
    assert!(rt; matches!(keeps_the_pieces(rt.alloc()), Ok(true)));
}

fn reads_as_the_rules_say(source: &mut ReaderSource<Flaky>, room: &mut [u8; 4]) -> bool {
    taken(source, room) == Taken::Got(1)
        && taken(source, room) == Taken::Failed
        && taken(source, room) == Taken::Got(1)
        && taken(source, room) == Taken::Ended
}

#[test]
fn a_reader_that_errs_is_a_source_that_fails(rt: HostRuntime) {
    let mut source = ReaderSource::new(Flaky { calls: 0 });
    let mut room = [0u8; 4];
    assert!(rt; reads_as_the_rules_say(&mut source, &mut room));
    assert_eq!(rt; room[0], b'x');
}

fn writes_as_the_rules_say(sink: &mut WriterSink<Narrow>) -> bool {
    answered(sink, "ab") == Put::All
        && answered(sink, "c") == Put::Failed
        && answered(sink, "c") == Put::All
        && answered(sink, "") == Put::All
        && answered(sink, "d") == Put::Failed
}

#[test]
fn a_writer_that_errs_or_takes_nothing_is_a_sink_that_fails(rt: HostRuntime) {
    let mut sink = WriterSink::new(Narrow { calls: 0 });
    assert!(rt; writes_as_the_rules_say(&mut sink));
}

#[test]
fn the_process_has_a_source_and_two_sinks(rt: HostRuntime) {
    let _input = ReaderSource::new(rt.stdin());
    let mut output = WriterSink::new(rt.stdout());
    let mut errors = WriterSink::new(rt.stderr());
    assert_eq!(rt; answered(&mut output, ""), Put::All);
    assert_eq!(rt; answered(&mut errors, ""), Put::All);
}

#[test]
fn the_gate_of_the_program_lets_all_pass(_rt: HostRuntime) {
    for point in [
        Point::WorkerStarts { part: 0 },
        Point::WorkerEnds { part: 1023 },
        Point::BeforeSend,
        Point::BeforeStore,
    ] {
        NoGate.at(point);
    }
}
