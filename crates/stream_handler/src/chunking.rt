// A result set that goes in chunks.
ghost use Rattle.std.specs.Prelude.{◌≡◌, ◌++◌, [], true, IfOk, OnOk};
ghost use Rattle.stream_handler.specs.Chunkings.{Adds, Fills, IsGiven, IsJoining, Joins, begun, items_of};
ghost use Rattle.stream_handler.specs.Chunks.{chunk, last_chunk};
ghost use Rattle.stream_handler.specs.declared.chunking.Stage.TheVariants.{Tuples};

use crate::response::{push_chunk, push_chunked_head};
use json_text::{EndTuple, Pieces};
use root_runs::Docs;
use std::alloc::Global;
use std::mem::replace;
use tuple_values::{Bytes, Memory};

/// As soon as pieces that are joined have so many bytes, they go as one chunk.
const CHUNK_LEAST: usize = 4_096;

/// Where a result set in chunks stands.
#[derive(Clone, Copy, PartialEq, Eq)]
pub(crate) enum Stage {
    /// The response's head is due.
    Head,
    /// Nothing is joined yet.
    Opening,
    /// The opening is joined, and tuples are to be.
    Tuples,
    /// The end tuple is joined.
    Closing,
    /// All pieces are joined.
    Joined,
    /// The last chunk is due.
    Last,
    /// Nothing is due.
    Over,
}

/// A result set that goes in chunks: its tuples that are to come, its pieces, and the bytes that are
/// joined and not given.
pub(crate) struct Chunking {
    docs: Docs,
    pieces: Pieces,
    joined: Bytes,
    closes: bool,
    stage: Stage,
}

impl Drop for Chunking {
    fn drop(self) {
        let Chunking {
            docs,
            pieces,
            joined,
            closes: _,
            stage: _,
        } = self;
        drop(docs);
        drop(pieces);
        drop(joined);
    }
}

/// Leaves no bytes, and the room that they had.
pub(crate) fn empty(alloc: Global, bytes: &mut Bytes)
    ensures { bytes.new ≡ [] }
{
    let mut room = replace(bytes, Bytes::new(alloc)).into_vec();
    room.clear();
    *bytes = Bytes::from_vec(room);
}

impl Chunking {
    /// The response with these tuples and this end. The connection closes with it, or not. Takes no
    /// memory.
    pub(crate) fn begin(alloc: Global, docs: Docs, end: EndTuple, closes: bool) -> Chunking
        ensures { items_of result ≡ begun closes docs end }
    {
        Chunking {
            docs,
            pieces: Pieces::begin(end),
            joined: Bytes::new(alloc),
            closes,
            stage: Stage::Head,
        }
    }

    // Joins the next tuple, or the end tuple.
    fn join_tuple(&mut self, alloc: Global) -> Result<(), Memory>
        requires { self.old.stage ≡ Tuples }
        ensures { OnOk result (Joins self.old true self.new) }
    {
        match self.docs.next()? {
            Some(tuple) => self.pieces.push_tuple(alloc, &tuple, &mut self.joined),
            None => {
                self.pieces.push_end(alloc, &mut self.joined)?;
                self.stage = Stage::Closing;
                Ok(())
            }
        }
    }

    // Joins the next piece, and says whether there is one.
    fn join(&mut self, alloc: Global) -> Result<bool, Memory>
        requires { IsJoining self.old.stage }
        ensures { IfOk result (λ more. Joins self.old more self.new) }
    {
        match self.stage {
            Stage::Opening => {
                self.pieces.push_head(&mut self.joined)?;
                self.stage = Stage::Tuples;
            }
            Stage::Tuples => self.join_tuple(alloc)?,
            Stage::Closing => {
                self.pieces.push_close(&mut self.joined)?;
                self.stage = Stage::Joined;
            }
            Stage::Joined | Stage::Head | Stage::Last | Stage::Over => return Ok(false),
        }
        Ok(true)
    }

    // Joins pieces until they are long enough, and says whether they are; else none is left.
    fn fill(&mut self, alloc: Global) -> Result<bool, Memory>
        requires { IsJoining self.old.stage }
        ensures { IfOk result (λ full. Fills self.old full self.new) }
    {
        while self.join(alloc)? {
            if self.joined.len() >= CHUNK_LEAST {
                return Ok(true);
            }
        }
        Ok(false)
    }

    // Gives the joined bytes as a chunk.
    fn give(&mut self, alloc: Global, out: &mut Bytes) -> Result<(), Memory>
        ensures given { OnOk result (out.new ≡ out.old ++ chunk self.old.joined) }
        ensures left { OnOk result (IsGiven self.old self.new) }
    {
        push_chunk(alloc, out, self.joined.as_slice())?;
        empty(alloc, &mut self.joined);
        Ok(())
    }

    // Gives the last chunk.
    fn give_last(&mut self, out: &mut Bytes) -> Result<(), Memory>
        ensures given { OnOk result (out.new ≡ out.old ++ last_chunk) }
        ensures left { OnOk result (items_of self.new ≡ []) }
    {
        out.extend(b"0\r\n\r\n")?;
        self.stage = Stage::Over;
        Ok(())
    }

    // Gives the next chunk.
    fn add_chunk(&mut self, alloc: Global, out: &mut Bytes) -> Result<(), Memory>
        requires { IsJoining self.old.stage }
        ensures { OnOk result (Adds (items_of self.old) true (items_of self.new) out.old out.new) }
    {
        if self.fill(alloc)? {
            return self.give(alloc, out);
        }
        if self.joined.as_slice().is_empty() {
            return self.give_last(out);
        }
        self.give(alloc, out)?;
        self.stage = Stage::Last;
        Ok(())
    }

    /// Adds what is due next, and says whether there was anything.
    pub(crate) fn add_next(&mut self, alloc: Global, out: &mut Bytes) -> Result<bool, Memory>
        ensures { IfOk result (λ more. Adds (items_of self.old) more (items_of self.new) out.old
            out.new) }
    {
        match self.stage {
            Stage::Head => {
                push_chunked_head(alloc, out, self.closes)?;
                self.stage = Stage::Opening;
            }
            Stage::Opening | Stage::Tuples | Stage::Closing | Stage::Joined => {
                self.add_chunk(alloc, out)?;
            }
            Stage::Last => self.give_last(out)?,
            Stage::Over => return Ok(false),
        }
        Ok(true)
    }
}
