// Tuples that are given one after another.
ghost use Rattle.std.specs.Prelude.{◌≡◌, IfOk};
ghost use Rattle.source_streams.specs.Reads.{IsNext};

use std::alloc::Global;
use std::marker::Model;
use stream_engine::{Stream, drain, listed};
use tuple_values::{Memory, Tuple, Tuples};

/// The tuples that an expression gives, one after another: a list that is there, or an open stream,
/// whose tuples are made as they are asked for. A contract sees the list of those that are still to
/// come.
pub struct Docs {
    stream: Stream,
}

impl Drop for Docs {
    fn drop(self) {
        let Docs { stream } = self;
        drop(stream);
    }
}

impl Model for Docs {
    ghost use Rattle.std.specs.Prelude.{List};
    ghost use Rattle.tuple_values.specs.Document.{Doc};
    ghost use Rattle.tuple_values.specs.Codes.{docs_code};

    ghost Value = { List Doc };

    ghost coded = { docs_code };

    ghost view = { λ s. s.stream.0 };
}

impl Docs {
    /// Those of a list, which is moved in. Takes no memory.
    pub fn listed(tuples: Tuples) -> Docs
        ensures { result ≡ tuples }
    {
        Docs {
            stream: listed(tuples),
        }
    }

    /// Those of a stream.
    pub fn streamed(stream: Stream) -> Docs
        ensures { result ≡ stream.0 }
    {
        Docs { stream }
    }

    /// The next tuple; none exactly at the end, and from then on.
    pub fn next(&mut self) -> Result<Option<Tuple>, Memory>
        ensures { IfOk result (λ next. IsNext self.old next self.new) }
    {
        self.stream.read()
    }

    /// All that are still to come, as a list.
    pub fn gathered(self, alloc: Global) -> Result<Tuples, Memory>
        ensures { IfOk result (λ tuples. tuples ≡ self) }
    {
        let Docs { stream } = self;
        drain(alloc, stream)
    }
}
