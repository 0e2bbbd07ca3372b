// What a search keeps of the documents that it looks at.
ghost use Rattle.std.specs.Prelude.{◌≡◌, ◌<◌};
ghost use Rattle.source_streams.specs.Wants.{is_wanted};

use crate::Part;
use query_syntax::Query;
use shard_segments::{DocTest, Slot};
use tuple_values::{FieldList, Tuple};

/// The documents that a query takes and whose cuts to the fields are of a part by the keys.
#[derive(Clone, Copy)]
pub(crate) struct Wanted<'a> {
    pub(crate) q: &'a Query,
    pub(crate) fl: &'a FieldList,
    pub(crate) keys: &'a FieldList,
    pub(crate) part: Part,
    ghost in_range: { part.index < part.of },
}

impl Wanted<'_> {
    /// Whether the document is one of them. Takes no memory.
    pub(crate) fn takes(&self, document: &Tuple) -> bool
        ensures { result ≡ is_wanted self.now.q.now.clauses self.now.fl.now self.now.keys.now
            self.now.part document.now }
    {
        self.q.matches(document) && self.part.holds(self.keys, self.fl, document)
    }
}

impl DocTest for Wanted<'_> {
    ghost use Rattle.source_streams.specs.Wants.{is_wanted_slot};

    ghost meets = { λ w slot. is_wanted_slot w.q.now.clauses w.fl.now w.keys.now w.part slot };

    fn holds(&self, slot: &Slot) -> bool {
        match &slot.document {
            Some(document) => self.takes(document.tuple()),
            None => false,
        }
    }
}
