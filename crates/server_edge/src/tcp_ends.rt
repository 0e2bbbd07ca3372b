// The two ends of a connection over TCP. Neither tells its content.
ghost use Rattle.std.specs.Prelude.{◌≡◌, ◌≤◌, None, IfSome, length};

use io_edge::{Put, Sink, Source, Taken};
use std::io::{ErrorKind, Read, Write};
use std::marker::Model;
use std::net::{Shutdown, TcpStream};

// How many bytes one write gives to a stream at most. What a write may wait is meant for so many
// bytes: a long reply has as long as it needs, if the other side goes on reading.
const PART_BYTES: usize = 65_536;

/// Where the bytes of a connection come from. A contract sees how often it failed.
#[derive(Drop)]
pub struct TcpSource {
    stream: TcpStream,
    faults: u64,
}

impl Model for TcpSource {
    ghost use Rattle.std.specs.Prelude.{ℕ};

    ghost Value = { ℕ };

    ghost view = { λ s. s.faults };
}

impl TcpSource {
    /// A source over this stream, which is moved in.
    pub(crate) fn new(stream: TcpStream) -> Self
        ensures { result ≡ 0 }
    {
        TcpSource { stream, faults: 0 }
    }
}

impl Source for TcpSource {
    ghost left = { λ _. None };

    ghost faults = { λ faults. faults };

    fn take(&mut self, room: &mut [u8]) -> Taken {
        match read_on(&mut self.stream, room) {
            Some(0) => Taken::Ended,
            Some(count) => Taken::Got(count),
            None => {
                self.faults = self.faults.saturating_add(1);
                Taken::Failed
            }
        }
    }
}

// How many bytes were read, also where a signal came before them; none where the stream failed.
fn read_on(stream: &mut TcpStream, room: &mut [u8]) -> Option<usize>
    ensures { IfSome result (λ count. count ≤ length room.new) }
{
    for _ in 0..u64::MAX {
        match stream.read(room) {
            Ok(count) => return Some(count),
            Err(error) => {
                if error.kind() != ErrorKind::Interrupted {
                    return None;
                }
            }
        }
    }
    None
}

/// Where the bytes of its replies go. A contract sees how often it failed.
#[derive(Drop)]
pub struct TcpSink {
    stream: TcpStream,
    faults: u64,
}

impl Model for TcpSink {
    ghost use Rattle.std.specs.Prelude.{ℕ};

    ghost Value = { ℕ };

    ghost view = { λ s. s.faults };
}

impl TcpSink {
    /// A sink over this stream, which is moved in.
    pub(crate) fn new(stream: TcpStream) -> Self
        ensures { result ≡ 0 }
    {
        TcpSink { stream, faults: 0 }
    }

    /// Tells the other side that nothing more is written.
    pub(crate) fn finish(&self) {
        let _ = self.stream.shutdown(Shutdown::Write);
    }
}

impl Sink for TcpSink {
    ghost written = { λ _. None };

    ghost faults = { λ faults. faults };

    fn put(&mut self, piece: &[u8]) -> Put {
        if !write_parts(&mut self.stream, piece) {
            self.faults = self.faults.saturating_add(1);
            return Put::Failed;
        }
        Put::All
    }
}

// Whether the whole piece was written, part by part.
fn write_parts(stream: &mut TcpStream, piece: &[u8]) -> bool {
    for part in piece.chunks(PART_BYTES) {
        if !write_on(stream, part) {
            return false;
        }
    }
    true
}

// Whether the whole part was written, also where a signal came before it. A stream takes less only
// where its time ran out, it failed or a signal came meanwhile: the rest isn't tried then.
fn write_on(stream: &mut TcpStream, part: &[u8]) -> bool {
    for _ in 0..u64::MAX {
        match stream.write(part) {
            Ok(count) => return count == part.len(),
            Err(error) => {
                if error.kind() != ErrorKind::Interrupted {
                    return false;
                }
            }
        }
    }
    false
}
