// The real outside: any reader and any writer of std. Neither tells its content.
ghost use Rattle.std.specs.Prelude.{◌≡◌, None};

use crate::{Put, Sink, Source, Taken};
use std::io::{Read, Write};
use std::marker::Model;

/// A source over a reader. A contract sees how often the reader failed.
#[derive(Drop)]
pub struct ReaderSource<R: Read + Drop> {
    reader: R,
    faults: u64,
}

impl<R: Read + Drop> Model for ReaderSource<R> {
    ghost use Rattle.std.specs.Prelude.{ℕ};

    ghost Value = { ℕ };

    ghost view = { λ s. s.faults };
}

impl<R: Read + Drop> ReaderSource<R> {
    /// A source over this reader, which is moved in.
    pub fn new(reader: R) -> Self
        ensures { result ≡ 0 }
    {
        ReaderSource { reader, faults: 0 }
    }
}

impl<R: Read + Drop> Source for ReaderSource<R> {
    ghost left = { λ _. None };

    ghost faults = { λ faults. faults };

    fn take(&mut self, room: &mut [u8]) -> Taken {
        match self.reader.read(room) {
            Ok(0) => Taken::Ended,
            Ok(count) => Taken::Got(count),
            Err(_) => {
                self.faults = self.faults.saturating_add(1);
                Taken::Failed
            }
        }
    }
}

/// A sink over a writer, which is flushed after each piece. A contract sees how often the writer
/// failed.
#[derive(Drop)]
pub struct WriterSink<W: Write + Drop> {
    writer: W,
    faults: u64,
}

impl<W: Write + Drop> Model for WriterSink<W> {
    ghost use Rattle.std.specs.Prelude.{ℕ};

    ghost Value = { ℕ };

    ghost view = { λ s. s.faults };
}

impl<W: Write + Drop> WriterSink<W> {
    /// A sink over this writer, which is moved in.
    pub fn new(writer: W) -> Self
        ensures { result ≡ 0 }
    {
        WriterSink { writer, faults: 0 }
    }
}

impl<W: Write + Drop> Sink for WriterSink<W> {
    ghost written = { λ _. None };

    ghost faults = { λ faults. faults };

    fn put(&mut self, piece: &[u8]) -> Put {
        if self.writer.write_all(piece).is_err() || self.writer.flush().is_err() {
            self.faults = self.faults.saturating_add(1);
            return Put::Failed;
        }
        Put::All
    }
}
