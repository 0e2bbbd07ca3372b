// A door in memory, which tells its connections.
ghost use Rattle.std.specs.Prelude.{◌≡◌, IfOk, Some};
ghost use Rattle.server_edge.specs.Doors.{ListenHasCause, NextGives, NextHasCause};
ghost use Rattle.server_edge.specs.Memory.{fresh_door, listen_answer, after_listen, NextAnswers};

use crate::{Back, Door, Listen, Next};
use io_edge::{MemorySink, MemorySource};
use std::alloc::Global;
use std::collections::VecDeque;
use std::marker::Model;
use tuple_values::{Memory, Numbers};

/// The two ends of a connection in memory.
#[derive(Drop)]
pub struct Connection {
    pub input: MemorySource,
    pub output: MemorySink,
}

/// Connections in memory, with calls that are to fail. The room for those that come back is made at
/// the start.
#[derive(Drop)]
pub struct MemoryDoor<N: Drop> {
    waiting: VecDeque<Connection>,
    given: u64,
    came: Vec<Back<MemorySource, MemorySink, N>>,
    listens: u64,
    deaf_at: Numbers,
    nexts: u64,
    failing: Numbers,
    faults: u64,
    deaf: u64,
}

impl<N: Drop> Model for MemoryDoor<N> {
    ghost use Rattle.std.specs.Prelude.{◌+◌, ◌≤◌, length, map, vec_capacity};
    ghost use Rattle.server_edge.specs.Memory.{DoorState, ends_of};

    ghost Value = { DoorState N };

    ghost view = { λ d. record {
      row = record { given = d.given; left = map ends_of d.waiting.items; came = d.came.items };
      listens = d.listens;
      deaf_at = d.deaf_at;
      nexts = d.nexts;
      failing = d.failing;
      faults = d.faults;
      deaf = d.deaf;
    } };

    ghost invariant = { λ d. d.given + length d.waiting.items ≤ vec_capacity d.came };
}

impl<N: Drop> MemoryDoor<N> {
    /// A door of these connections. The calls of `listen` and those of `next` whose numbers, counted
    /// from 0, are in these lists fail.
    pub fn new(
        alloc: Global,
        waiting: VecDeque<Connection>,
        deaf_at: Numbers,
        failing: Numbers,
    ) -> Result<Self, Memory>
        ensures { IfOk result (λ door. door ≡ fresh_door waiting.items deaf_at failing) }
    {
        let came = Vec::with_capacity(alloc, waiting.len())?;
        Ok(MemoryDoor {
            waiting,
            given: 0,
            came,
            listens: 0,
            deaf_at,
            nexts: 0,
            failing,
            faults: 0,
            deaf: 0,
        })
    }

    /// The connections that came back, in their order.
    pub fn came(&self) -> &[Back<MemorySource, MemorySink, N>]
        ensures { result.now ≡ self.now.row.came }
    {
        self.came.as_slice()
    }
}

impl<N: Drop + Send> Door for MemoryDoor<N> {
    type In = MemorySource;

    type Out = MemorySink;

    type Note = N;

    ghost told = { λ d. Some d.row };

    ghost faults = { λ d. d.faults };

    ghost deaf = { λ d. d.deaf };

    fn listen(&mut self, _port: u16) -> Listen
        ensures row { Some self.new.row ≡ Some self.old.row }
        ensures cause { ListenHasCause self.old.faults self.new.faults self.old.deaf self.new.deaf
            result }
        ensures answer { result ≡ listen_answer self.old }
        ensures after { self.new ≡ after_listen self.old }
    {
        let call = self.listens;
        self.listens = self.listens.saturating_add(1);
        if self.deaf_at.as_slice().contains(&call) {
            self.faults = self.faults.saturating_add(1);
            self.deaf = self.deaf.saturating_add(1);
            return Listen::Failed;
        }
        Listen::Ready
    }

    fn next(&mut self) -> Next<MemorySource, MemorySink>
        ensures gives { NextGives (Some self.old.row) (Some self.new.row) result }
        ensures cause { NextHasCause self.old.faults self.new.faults result }
        ensures deaf { self.new.deaf ≡ self.old.deaf }
        ensures answer { NextAnswers self.old self.new result }
    {
        let call = self.nexts;
        self.nexts = self.nexts.saturating_add(1);
        if self.failing.as_slice().contains(&call) {
            self.faults = self.faults.saturating_add(1);
            return Next::Failed;
        }
        match self.waiting.pop_front() {
            Some(Connection { input, output }) => {
                self.given += 1;
                Next::Got { input, output }
            }
            None => Next::Closed,
        }
    }

    fn back(&mut self, input: MemorySource, output: MemorySink, note: N) {
        let back = Back {
            input,
            output,
            note,
        };
        if self.came.len() < self.came.capacity() {
            self.came.push_reserved(back);
        }
    }
}
