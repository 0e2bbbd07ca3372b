// The bytes of result sets, whole and in pieces.
ghost use Rattle.std.specs.Prelude.{◌≡◌, ◌++◌, true, false, IfOk, OnOk, OnErr};
ghost use Rattle.serde_json.specs.Written.{comma_if};
ghost use Rattle.json_text.specs.Replies.{tuple_text, exception_text, end_text, body};
ghost use Rattle.json_text.specs.Pieces.{docs_opening, docs_closing};

use crate::pieces::{push_comma, push_count, push_text};
use crate::tuples::push_tuple;
use std::alloc::Global;
use std::marker::Model;
use tuple_values::{Bytes, Memory, Text, Tuple, Tuples};

/// What a result set ends with: the text of a fault, where there is one, and how long the
/// request took, in milliseconds.
#[derive(Drop)]
pub struct EndTuple {
    pub exception: Option<Text>,
    pub millis: u64,
}

/// The pieces of a result set, one after another: what stands before the tuples, each tuple, and
/// the end tuple with what stands behind it (Solr Reference Guide, "Streaming Expressions"; cutting
/// in pieces is own). A piece is given as bytes of its own, or added to others by the calls `push_`,
/// whose bytes are to be let go after an `Err`.
#[derive(Drop)]
pub struct Pieces {
    end: EndTuple,
    // Whether a tuple has gone before what comes next.
    later: bool,
}

impl Model for Pieces {
    ghost use Rattle.json_text.specs.Pieces.{PiecesState};

    ghost Value = { PiecesState };

    ghost view = { λ p. record {
      exception = p.end.exception;
      millis = p.end.millis;
      later = p.later;
    } };
}

impl Pieces {
    /// The pieces of a result set with this end tuple, before its first tuple.
    pub fn begin(end: EndTuple) -> Pieces
        ensures { result ≡ record {
          exception = end.exception;
          millis = end.millis;
          later = false;
        } }
    {
        Pieces { end, later: false }
    }

    /// What stands before the tuples, which begin anew.
    pub fn head(&mut self, alloc: Global) -> Result<Bytes, Memory>
        ensures ok { IfOk result (λ bytes. bytes ≡ docs_opening) }
        ensures anew { OnOk result (self.new ≡ record self.old { later = false }) }
        ensures err { OnErr result (self.new ≡ self.old) }
    {
        let mut out = Bytes::new(alloc);
        self.push_head(&mut out)?;
        Ok(out)
    }

    /// The next tuple, a comma before it where it isn't the first.
    pub fn tuple(&mut self, alloc: Global, t: &Tuple) -> Result<Bytes, Memory>
        ensures ok { IfOk result (λ bytes. bytes ≡ comma_if self.old.later ++ tuple_text t.now) }
        ensures later { OnOk result (self.new ≡ record self.old { later = true }) }
        ensures err { OnErr result (self.new ≡ self.old) }
    {
        let mut out = Bytes::new(alloc);
        self.push_tuple(alloc, t, &mut out)?;
        Ok(out)
    }

    /// The end tuple, a comma before it where a tuple has gone before, and what stands behind it.
    pub fn close(&mut self, alloc: Global) -> Result<Bytes, Memory>
        ensures ok { IfOk result (λ bytes. bytes ≡ comma_if self.old.later
            ++ end_text self.old.exception self.old.millis ++ docs_closing) }
        ensures same { self.new ≡ self.old }
    {
        let mut out = Bytes::new(alloc);
        self.push_end(alloc, &mut out)?;
        self.push_close(&mut out)?;
        Ok(out)
    }

    /// Adds what `head` gives.
    pub fn push_head(&mut self, out: &mut Bytes) -> Result<(), Memory>
        ensures ok { OnOk result (out.new ≡ out.old ++ docs_opening) }
        ensures anew { OnOk result (self.new ≡ record self.old { later = false }) }
        ensures err { OnErr result (self.new ≡ self.old) }
    {
        push_opening(out)?;
        self.later = false;
        Ok(())
    }

    /// Adds what `tuple` gives.
    pub fn push_tuple(&mut self, alloc: Global, t: &Tuple, out: &mut Bytes) -> Result<(), Memory>
        ensures ok { OnOk result (out.new ≡ out.old
            ++ (comma_if self.old.later ++ tuple_text t.now)) }
        ensures later { OnOk result (self.new ≡ record self.old { later = true }) }
        ensures err { OnErr result (self.new ≡ self.old) }
    {
        push_next(alloc, out, self.later, t)?;
        self.later = true;
        Ok(())
    }

    /// Adds the end tuple alone, a comma before it where a tuple has gone before.
    pub fn push_end(&self, alloc: Global, out: &mut Bytes) -> Result<(), Memory>
        ensures { OnOk result (out.new ≡ out.old
            ++ (comma_if self.now.later ++ end_text self.now.exception self.now.millis)) }
    {
        push_last(alloc, out, self.later, &self.end)
    }

    /// Adds what stands behind the end tuple.
    pub fn push_close(&self, out: &mut Bytes) -> Result<(), Memory>
        ensures { OnOk result (out.new ≡ out.old ++ docs_closing) }
    {
        push_closing(out)
    }
}

/// The reply with the tuples and then the end tuple (Solr Reference Guide, "Streaming
/// Expressions").
pub fn result_set_text(alloc: Global, docs: &Tuples, end: &EndTuple) -> Result<Bytes, Memory>
    ensures { IfOk result (λ bytes. bytes ≡ body docs.now end.now.exception end.now.millis) }
{
    let mut out = Bytes::new(alloc);
    push_opening(&mut out)?;
    for k in 0..docs.count() {
        push_next(alloc, &mut out, k > 0, docs.get(k))?;
    }
    push_last(alloc, &mut out, docs.count() > 0, end)?;
    push_closing(&mut out)?;
    Ok(out)
}

fn push_opening(out: &mut Bytes) -> Result<(), Memory>
    ensures { OnOk result (out.new ≡ out.old ++ docs_opening) }
{
    out.extend(b"{\"result-set\":{\"docs\":[")
}

fn push_next(alloc: Global, out: &mut Bytes, later: bool, t: &Tuple) -> Result<(), Memory>
    ensures { OnOk result (out.new ≡ out.old ++ (comma_if later ++ tuple_text t.now)) }
{
    push_comma(out, later)?;
    push_tuple(alloc, out, t)
}

// Adds the end tuple, a comma before it where it stands later.
fn push_last(alloc: Global, out: &mut Bytes, later: bool, end: &EndTuple) -> Result<(), Memory>
    ensures { OnOk result (out.new ≡ out.old
        ++ (comma_if later ++ end_text end.now.exception end.now.millis)) }
{
    push_comma(out, later)?;
    out.extend(b"{\"EOF\":true,")?;
    push_exception(alloc, out, &end.exception)?;
    out.extend(b"\"RESPONSE_TIME\":")?;
    push_count(out, end.millis)?;
    out.extend(b"}")
}

fn push_exception(alloc: Global, out: &mut Bytes, exception: &Option<Text>) -> Result<(), Memory>
    ensures { OnOk result (out.new ≡ out.old ++ exception_text exception.now) }
{
    if let Some(exception) = exception {
        out.extend(b"\"EXCEPTION\":")?;
        push_text(alloc, out, exception.as_str())?;
        out.extend(b",")?;
    }
    Ok(())
}

fn push_closing(out: &mut Bytes) -> Result<(), Memory>
    ensures { OnOk result (out.new ≡ out.old ++ docs_closing) }
{
    out.extend(b"]}}")
}
