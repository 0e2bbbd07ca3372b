// A stream of requests, in whatever pieces it comes.
ghost use Rattle.std.specs.Prelude.{◌≡◌, ◌≤◌, IfOk, OnOk, OnErr, drop, length};
ghost use Rattle.form_request.specs.Streams.{Answers, begun, fed, held_count};

use crate::Step100;
use crate::plan::Stage;
use crate::search::{FRESH, Search, blank_lines};
use crate::turning::make_turn;
use std::alloc::Global;
use std::marker::Model;
use std::mem;
use tuple_values::{Memory, Names};

/// The requests of a byte stream. A contract sees where the stream stands and the bytes that came
/// and weren't taken.
pub struct Requests {
    buf: Vec<u8>,
    /// The bytes before this place were taken.
    from: usize,
    search: Search,
    stage: Stage,
}

impl Drop for Requests {
    fn drop(self) {
        let Requests {
            buf,
            from: _,
            search,
            stage,
        } = self;
        drop(buf);
        drop(search);
        drop(stage);
    }
}

impl Model for Requests {
    ghost use Rattle.std.specs.Prelude.{◌≤◌, drop, length};
    ghost use Rattle.form_request.specs.Heads.{front_of};
    ghost use Rattle.form_request.specs.Searches.{IsSearched};
    ghost use Rattle.form_request.specs.Streams.{Held};

    ghost Value = { Held };

    ghost view = { λ s. record { stage = s.stage; bytes = drop s.from s.buf.items } };

    ghost invariant = { λ s. (s.from ≤ length s.buf.items)
        × IsSearched (front_of (drop s.from s.buf.items)) s.search };
}

impl Requests {
    /// A stream of which nothing has come. Takes no memory.
    pub fn begin(alloc: Global) -> Requests
        ensures { result ≡ begun }
    {
        Requests {
            buf: Vec::new(alloc),
            from: 0,
            search: FRESH,
            stage: Stage::Head,
        }
    }

    /// Takes the next piece of the stream. What comes behind a message that was refused or that
    /// closes is dropped.
    pub fn feed(&mut self, piece: &[u8]) -> Result<(), Memory>
        ensures ok { OnOk result (self.new ≡ fed self.old piece.now) }
        ensures err { OnErr result (self.new ≡ self.old) }
    {
        if self.stage.is_over() {
            return Ok(());
        }
        self.from = drop_taken(&mut self.buf, self.from)?;
        self.buf.extend_from_slice(piece)?;
        Ok(())
    }

    /// What the bytes so far answer. A message is judged by the names that are given when its head
    /// has come.
    pub fn next(&mut self, names: &Names) -> Result<Step100, Memory>
        ensures ok { IfOk result (λ answer. Answers names.now self.old answer self.new) }
        ensures err { OnErr result (self.new ≡ self.old) }
    {
        let alloc = *self.buf.allocator();
        let stage = mem::replace(&mut self.stage, Stage::Closed);
        match make_turn(alloc, names, stage, &self.buf[self.from..], self.search) {
            Ok(turned) => {
                self.stage = turned.stage;
                self.from += turned.taken;
                self.search = turned.search;
                Ok(turned.answer)
            }
            Err(undone) => {
                self.stage = undone.stage;
                Err(undone.fault)
            }
        }
    }

    /// The number of bytes that are held of an unfinished message, without the empty lines before
    /// it.
    pub fn held(&self) -> u64
        ensures { result ≡ held_count self.now }
    {
        let bytes = &self.buf[self.from..];
        match &self.stage {
            Stage::Head => (bytes.len() - blank_lines(bytes, self.search)) as u64,
            Stage::Body(plan) => {
                let come = (plan.length as usize).min(bytes.len());
                u64::from(plan.size) + come as u64
            }
            Stage::Stopped(_) => 0,
            Stage::Closed => 0,
        }
    }
}

// Drops the bytes that were taken once they are more than the others, so that each byte is moved a
// constant number of times, and answers where the others begin.
fn drop_taken(buf: &mut Vec<u8>, from: usize) -> Result<usize, Memory>
    requires { from ≤ length buf.old.items }
    ensures within { IfOk result (λ start. start ≤ length buf.new.items) }
    ensures ok { IfOk result (λ start. drop start buf.new.items ≡ drop from buf.old.items) }
    ensures err { OnErr result (buf.new.items ≡ buf.old.items) }
{
    if from <= buf.len() - from {
        return Ok(from);
    }
    let rest = Vec::from_slice(*buf.allocator(), &buf[from..])?;
    *buf = rest;
    Ok(0)
}
