// A sink in memory, which tells what is written.
ghost use Rattle.std.specs.Prelude.{◌≡◌, Some};
ghost use Rattle.io_edge.specs.Edge.{PutGives, PutHasCause};
ghost use Rattle.io_edge.specs.Memory.{fresh_sink, PutAnswers};

use crate::{Put, Sink};
use std::alloc::Global;
use std::marker::Model;
use tuple_values::{Bytes, Numbers};

/// Bytes that are kept in memory, with calls that are to fail.
#[derive(Drop)]
pub struct MemorySink {
    bytes: Bytes,
    calls: u64,
    failing: Numbers,
    faults: u64,
}

impl Model for MemorySink {
    ghost use Rattle.io_edge.specs.Memory.{SinkState};

    ghost Value = { SinkState };

    ghost view = { λ s. record {
      bytes = s.bytes;
      calls = s.calls;
      failing = s.failing;
      faults = s.faults;
    } };
}

impl MemorySink {
    /// A sink to which nothing is written. The calls of `put` whose numbers, counted from 0, are
    /// in `failing` fail and write nothing. Takes no memory.
    pub fn new(alloc: Global, failing: Numbers) -> Self
        ensures { result ≡ fresh_sink failing }
    {
        MemorySink {
            bytes: Bytes::new(alloc),
            calls: 0,
            failing,
            faults: 0,
        }
    }

    /// What is written.
    pub fn bytes(&self) -> &[u8]
        ensures { result.now ≡ self.now.bytes }
    {
        self.bytes.as_slice()
    }
}

impl Sink for MemorySink {
    ghost written = { λ s. Some s.bytes };

    ghost faults = { λ s. s.faults };

    /// A call that isn't to fail fails where memory is wanting, and then writes nothing.
    fn put(&mut self, piece: &[u8]) -> Put
        ensures gives { PutGives (Some self.old.bytes) (Some self.new.bytes) piece.now result }
        ensures cause { PutHasCause self.old.faults self.new.faults result }
        ensures after { PutAnswers self.old piece.now self.new result }
    {
        let call = self.calls;
        self.calls = self.calls.saturating_add(1);
        if self.failing.as_slice().contains(&call) || self.bytes.extend(piece).is_err() {
            self.faults = self.faults.saturating_add(1);
            return Put::Failed;
        }
        Put::All
    }
}
