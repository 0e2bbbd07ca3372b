// Responses that are still to be written.
ghost use Rattle.std.specs.List.{concat};
ghost use Rattle.stream_handler.specs.Replies.{Puts, WritesReply, WritesSome, reply_text};
ghost use Rattle.stream_handler.specs.Waiting.{WritesCount};

use crate::chunking::empty;
use crate::{DocsReply, End};
use io_edge::{Put, Sink};
use std::alloc::Global;
use tuple_values::Bytes;

/// A response that is still to be written.
#[derive(Drop)]
pub enum Reply {
    /// Its bytes.
    Whole(Bytes),
    /// A result set, whose bytes are made as they are asked for.
    Docs(DocsReply),
}

/// What is made is written as soon as it has so many bytes, so that a short response is written in
/// one piece, its head with it.
const WRITTEN_LEAST: usize = 4_096;

// Writes these bytes.
fn put_all<K: Sink>(sink: &mut K, bytes: &[u8]) -> Option<End>
    ensures writes { Puts bytes.now (K.written sink.old) (K.written sink.new) result }
    ensures counts { WritesCount (K.faults sink.old) (K.faults sink.new) result }
{
    match sink.put(bytes) {
        Put::All => None,
        Put::Failed => Some(End::WriteFault),
    }
}

// Writes these bytes where they are many, and leaves none then.
fn put_many<K: Sink>(alloc: Global, sink: &mut K, bytes: &mut Bytes) -> Option<End>
    ensures writes { WritesSome bytes.old bytes.new (K.written sink.old) (K.written sink.new)
        result }
    ensures counts { WritesCount (K.faults sink.old) (K.faults sink.new) result }
{
    if bytes.len() < WRITTEN_LEAST {
        return None;
    }
    let end = put_all(sink, bytes.as_slice());
    empty(alloc, bytes);
    end
}

// Writes a response as it is made.
fn write_docs<K: Sink>(alloc: Global, docs: &mut DocsReply, sink: &mut K) -> Option<End>
    ensures writes { WritesReply (concat docs.old.0) (K.written sink.old) (K.written sink.new)
        result }
    ensures counts { WritesCount (K.faults sink.old) (K.faults sink.new) result }
{
    let mut bytes = Bytes::new(alloc);
    while let Ok(more) = docs.add_next(alloc, &mut bytes) {
        if !more {
            return put_all(sink, bytes.as_slice());
        }
        if let Some(end) = put_many(alloc, sink, &mut bytes) {
            return Some(end);
        }
    }
    Some(End::OutOfMemory)
}

/// Writes a response, and says why where it isn't written whole: the sink failed, or memory was
/// wanting as it was made. Then a part of it is written.
pub(crate) fn write_reply<K: Sink>(alloc: Global, reply: Reply, sink: &mut K) -> Option<End>
    ensures writes { WritesReply (reply_text reply) (K.written sink.old) (K.written sink.new)
        result }
    ensures counts { WritesCount (K.faults sink.old) (K.faults sink.new) result }
{
    match reply {
        Reply::Whole(bytes) => put_all(sink, bytes.as_slice()),
        Reply::Docs(docs) => {
            let mut docs = docs;
            write_docs(alloc, &mut docs, sink)
        }
    }
}
