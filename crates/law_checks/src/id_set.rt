// Ids that are looked up.
ghost use Rattle.std.specs.Prelude.{◌≡◌, ◌||◌, not, [], bytes_eq, IfOk, OnErr, OnOk};
ghost use Rattle.tuple_values.specs.Document.{ByteList, is_named};

use std::alloc::Global;
use std::collections::BTreeSet;
use std::marker::Model;
use tuple_values::Memory;

/// Ids, each once, in the order of their bytes.
pub(crate) struct IdSet<'a> {
    ids: BTreeSet<&'a str>,
}

impl Drop for IdSet<'_> {
    fn drop(self) {
        let IdSet { ids } = self;
        drop(ids);
    }
}

impl<'a> Model for IdSet<'a> {
    ghost use Rattle.std.specs.Prelude.{List, ℕ, map};

    ghost Value = { List (List ℕ) };

    ghost view = { λ s. map (λ id. id.now) s.ids.keys };
}

impl<'a> IdSet<'a> {
    /// The set of no id.
    pub(crate) fn new(alloc: Global) -> IdSet<'a>
        ensures { result ≡ [] }
    {
        IdSet {
            ids: BTreeSet::new(alloc),
        }
    }

    /// Adds an id, and says whether it is a new one. An `Err` leaves all as it was.
    pub(crate) fn add(&mut self, id: &'a str) -> Result<bool, Memory>
        ensures new { IfOk result (λ new. new ≡ not (is_named id.now self.old)) }
        ensures added { OnOk result ((other : ByteList) → is_named other self.new
            ≡ (bytes_eq id.now other || is_named other self.old)) }
        ensures err { OnErr result (self.new ≡ self.old) }
    {
        Ok(self.ids.insert(id)?)
    }
}
