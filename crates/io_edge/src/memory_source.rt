// A source in memory, which tells what it has left.
ghost use Rattle.std.specs.Prelude.{◌≡◌, ◌<◌, Some, length};
ghost use Rattle.io_edge.specs.Edge.{TakeGives, TakeHasCause};
ghost use Rattle.io_edge.specs.Memory.{fresh_source, source_answer, after_take};

use crate::{Source, Taken};
use std::marker::Model;
use tuple_values::{Bytes, Numbers};

/// Bytes in memory, given in pieces of at most so many, with calls that are to fail.
#[derive(Drop)]
pub struct MemorySource {
    bytes: Bytes,
    /// The bytes before this place were given.
    at: usize,
    most: usize,
    calls: u64,
    failing: Numbers,
    faults: u64,
}

impl Model for MemorySource {
    ghost use Rattle.std.specs.Prelude.{◌<◌, ◌≤◌, drop, length};
    ghost use Rattle.io_edge.specs.Memory.{SourceState};

    ghost Value = { SourceState };

    ghost view = { λ s. record {
      left = drop s.at s.bytes;
      most = s.most;
      calls = s.calls;
      failing = s.failing;
      faults = s.faults;
    } };

    ghost invariant = { λ s. (s.at ≤ length s.bytes) × (0 < s.most) };
}

impl MemorySource {
    /// These bytes, at most `most` of them at a call. The calls of `take` whose numbers, counted
    /// from 0, are in `failing` fail. Takes no memory.
    pub fn new(bytes: Bytes, most: usize, failing: Numbers) -> Self
        requires { 0 < most }
        ensures { result ≡ fresh_source bytes most failing }
    {
        MemorySource {
            bytes,
            at: 0,
            most,
            calls: 0,
            failing,
            faults: 0,
        }
    }
}

impl Source for MemorySource {
    ghost left = { λ s. Some s.left };

    ghost faults = { λ s. s.faults };

    fn take(&mut self, room: &mut [u8]) -> Taken
        requires { 0 < length room.old }
        ensures gives { TakeGives (Some self.old.left) (Some self.new.left) room.new result }
        ensures cause { TakeHasCause self.old.faults self.new.faults result }
        ensures answer { result ≡ source_answer self.old (length room.old) }
        ensures after { self.new ≡ after_take self.old result }
    {
        let call = self.calls;
        self.calls = self.calls.saturating_add(1);
        if self.failing.as_slice().contains(&call) {
            self.faults = self.faults.saturating_add(1);
            return Taken::Failed;
        }
        let left = &self.bytes.as_slice()[self.at..];
        let count = left.len().min(self.most).min(room.len());
        if count == 0 {
            return Taken::Ended;
        }
        room[..count].copy_from_slice(&left[..count]);
        self.at += count;
        Taken::Got(count)
    }
}
