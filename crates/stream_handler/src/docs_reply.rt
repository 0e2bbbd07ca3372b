// Responses whose bytes are made as they are asked for.
ghost use Rattle.std.specs.Prelude.{◌≡◌, true, false, IfErr, IfOk, IsErr, OnOk};
ghost use Rattle.stream_handler.specs.Chunkings.{Adds, Gives, begun};

use crate::chunking::Chunking;
use json_text::EndTuple;
use root_runs::Docs;
use std::alloc::Global;
use std::marker::Model;
use tuple_values::{Bytes, Memory};

/// The response of a result set in chunks (RFC 9112, section 7.1): its head, and then its chunks, made
/// as they are asked for. A contract sees what is still given, one after another, and whether memory
/// was wanting.
pub struct DocsReply {
    chunking: Chunking,
    failed: bool,
}

impl Drop for DocsReply {
    fn drop(self) {
        let DocsReply {
            chunking,
            failed: _,
        } = self;
        drop(chunking);
    }
}

impl Model for DocsReply {
    ghost use Rattle.std.specs.Prelude.{ℕ, List, Bool};
    ghost use Rattle.std.specs.Coded.{coded×, coded_ℕ, coded_bool, coded_list};
    ghost use Rattle.stream_handler.specs.Chunkings.{items_of};

    ghost Value = { List (List ℕ) × Bool };

    ghost coded = { coded× (coded_list (coded_list coded_ℕ)) coded_bool };

    ghost view = { λ s. (items_of s.chunking, s.failed) };
}

impl DocsReply {
    /// The response with these tuples and this end. The connection closes with it, or not. Takes no
    /// memory.
    pub(crate) fn begin(alloc: Global, docs: Docs, end: EndTuple, closes: bool) -> DocsReply
        ensures gives { result.0 ≡ begun closes docs end }
        ensures lives { result.1 ≡ false }
    {
        DocsReply {
            chunking: Chunking::begin(alloc, docs, end, closes),
            failed: false,
        }
    }

    /// Adds what is given next to these bytes, and says whether there was anything: the head, then
    /// the chunks, of which the last has no bytes. After a want of memory a part of it may be added,
    /// and each call answers that.
    pub fn add_next(&mut self, alloc: Global, out: &mut Bytes) -> Result<bool, Memory>
        ensures next { IfOk result (λ more. Adds self.old.0 more self.new.0 out.old out.new) }
        ensures fails { IfErr result (λ _. self.new.1 ≡ true) }
        ensures failed { self.old.1 ≡ true → IsErr result }
        ensures lives { OnOk result (self.new.1 ≡ false) }
    {
        if self.failed {
            return Err(Memory::OutOfMemory);
        }
        let more = self.chunking.add_next(alloc, out);
        if more.is_err() {
            self.failed = true;
        }
        more
    }

    /// What is given next: the head, then the chunks, of which the last has no bytes; none exactly at
    /// the end, and from then on. After a want of memory each call answers that.
    pub fn next(&mut self, alloc: Global) -> Result<Option<Bytes>, Memory>
        ensures next { IfOk result (λ item. Gives self.old.0 item self.new.0) }
        ensures fails { IfErr result (λ _. self.new.1 ≡ true) }
        ensures failed { self.old.1 ≡ true → IsErr result }
        ensures lives { OnOk result (self.new.1 ≡ false) }
    {
        let mut item = Bytes::new(alloc);
        if self.add_next(alloc, &mut item)? {
            return Ok(Some(item));
        }
        Ok(None)
    }
}
