// What a request is answered.
ghost use Rattle.std.specs.List.{concat};
ghost use Rattle.std.specs.Prelude.{◌≡◌, ◌++◌, ◌∷◌, [], false, IfOk, OnOk};
ghost use Rattle.json_text.specs.Pieces.{pieces_from};
ghost use Rattle.json_text.specs.Replies.{body};
ghost use Rattle.stream_handler.specs.Outcomes.{body_of, due_for, exception};
ghost use Rattle.stream_handler.specs.Replies.{due};
ghost use Rattle.stream_handler.specs.Responses.{response};
ghost use Rattle.stream_handler.specs.declared.outcome.Outcome.TheVariants.{ResultSet};

use crate::response::response;
use crate::{DocsReply, Framing, Reply};
use json_text::{EndTuple, Pieces, error_text, update_text};
use root_runs::Docs;
use std::alloc::Global;
use tuple_values::{Bytes, Memory, Text, Tuples};

/// What a request is answered, before the time is known.
#[derive(Drop)]
pub enum Outcome {
    /// An update was carried out.
    Indexed,
    /// An update was refused, with a status code and a text.
    Refused { code: u16, msg: Text },
    /// Tuples, and the text of a fault where there is one.
    ResultSet { docs: Docs, exception: Option<Text> },
}

// Adds the pieces of tuples, the end tuple's and the closing.
fn push_rest(
    alloc: Global,
    docs: &mut Docs,
    pieces: &mut Pieces,
    out: &mut Bytes,
) -> Result<(), Memory>
    ensures { OnOk result (out.new
        ≡ out.old ++ concat (pieces_from pieces.old.later docs.old pieces.old.exception
        pieces.old.millis)) }
{
    while let Some(tuple) = docs.next()? {
        pieces.push_tuple(alloc, &tuple, out)?;
    }
    pieces.push_end(alloc, out)?;
    pieces.push_close(out)
}

// The text of a result set.
fn result_set(alloc: Global, docs: Docs, end: EndTuple) -> Result<Bytes, Memory>
    ensures { IfOk result (λ bytes. bytes ≡ body docs end.exception end.millis) }
{
    let mut docs = docs;
    let mut pieces = Pieces::begin(end);
    let mut out = Bytes::new(alloc);
    pieces.push_head(&mut out)?;
    push_rest(alloc, &mut docs, &mut pieces, &mut out)?;
    Ok(out)
}

// A response with its length before it.
fn whole(alloc: Global, status: u16, closes: bool, body: Bytes) -> Result<Reply, Memory>
    ensures { IfOk result (λ reply. due reply ≡ (response status closes body ∷ [], false)) }
{
    let bytes = response(alloc, status, closes, body)?;
    Ok(Reply::Whole(bytes))
}

// The response of a result set.
fn set_reply(alloc: Global, docs: Docs, end: EndTuple, framing: Framing) -> Result<Reply, Memory>
    ensures { IfOk result (λ reply.
        due reply ≡ due_for framing end.millis (ResultSet docs end.exception)) }
{
    if framing.chunks {
        return Ok(Reply::Docs(DocsReply::begin(alloc, docs, end, framing.closes)));
    }
    let body = result_set(alloc, docs, end)?;
    whole(alloc, 200, framing.closes, body)
}

impl Outcome {
    /// An exception alone.
    pub(crate) fn exception(alloc: Global, text: Text) -> Outcome
        ensures { result ≡ exception text }
    {
        Outcome::ResultSet {
            docs: Docs::listed(Tuples::empty(alloc)),
            exception: Some(text),
        }
    }

    /// The body of the response after so many milliseconds. The outcome's tuples are dropped one
    /// after another.
    pub fn body(self, alloc: Global, millis: u64) -> Result<Bytes, Memory>
        ensures { IfOk result (λ bytes. bytes ≡ body_of self millis) }
    {
        match self {
            Outcome::Indexed => update_text(alloc, millis),
            Outcome::Refused { code, msg } => error_text(alloc, code, &msg, millis),
            Outcome::ResultSet { docs, exception } => {
                result_set(alloc, docs, EndTuple { exception, millis })
            }
        }
    }

    /// The response after so many milliseconds. Where it is framed so, the bytes of a result set are
    /// made as they are asked for, and no memory is taken before; else the outcome's tuples are
    /// dropped (RFC 9112, sections 4, 6 and 7.1).
    pub fn reply(self, alloc: Global, framing: Framing, millis: u64) -> Result<Reply, Memory>
        ensures { IfOk result (λ reply. due reply ≡ due_for framing millis self) }
    {
        match self {
            Outcome::Indexed => {
                let body = update_text(alloc, millis)?;
                whole(alloc, 200, framing.closes, body)
            }
            Outcome::Refused { code, msg } => {
                let body = error_text(alloc, code, &msg, millis)?;
                whole(alloc, code, framing.closes, body)
            }
            Outcome::ResultSet { docs, exception } => {
                set_reply(alloc, docs, EndTuple { exception, millis }, framing)
            }
        }
    }
}
