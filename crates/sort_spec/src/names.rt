// Names that are looked up.
ghost use Rattle.std.specs.Prelude.{◌≡◌, ◌||◌, not, [], bytes_eq, IfOk, OnErr, OnOk};
ghost use Rattle.tuple_values.specs.Document.{ByteList, is_named};
ghost use Rattle.sort_spec.specs.Texts.{once};

use std::alloc::Global;
use std::collections::BTreeSet;
use std::marker::Model;
use tuple_values::{FieldList, Memory, Sequence, Text, TryCopy};

/// Names of a list, among which another one is found by few comparisons. A contract sees them each
/// once, in the order of their bytes.
pub struct NameSet<'a> {
    names: BTreeSet<&'a str>,
}

impl Drop for NameSet<'_> {
    fn drop(self) {
        let NameSet { names } = self;
        drop(names);
    }
}

impl<'a> Model for NameSet<'a> {
    ghost use Rattle.std.specs.Prelude.{List, ℕ, map};

    ghost Value = { List (List ℕ) };

    ghost view = { λ s. map (λ name. name.now) s.names.keys };
}

impl<'a> NameSet<'a> {
    /// The set of no name.
    pub fn new(alloc: Global) -> NameSet<'a>
        ensures { result ≡ [] }
    {
        NameSet {
            names: BTreeSet::new(alloc),
        }
    }

    /// The set of a list's names.
    pub fn of(alloc: Global, list: &'a FieldList) -> Result<NameSet<'a>, Memory>
        ensures { IfOk result (λ set. (name : ByteList)
            → is_named name set ≡ is_named name list.now) }
    {
        let mut set = NameSet::new(alloc);
        for name in list.as_slice() {
            set.add(name.as_str())?;
        }
        Ok(set)
    }

    /// Adds a name, and says whether it is a new one. An `Err` leaves all as it was.
    pub fn add(&mut self, name: &'a str) -> Result<bool, Memory>
        ensures new { IfOk result (λ new. new ≡ not (is_named name.now self.old)) }
        ensures added { OnOk result ((other : ByteList) → is_named other self.new
            ≡ (bytes_eq name.now other || is_named other self.old)) }
        ensures err { OnErr result (self.new ≡ self.old) }
    {
        Ok(self.names.insert(name)?)
    }

    /// Whether the name is in the set.
    pub fn has(&self, name: &str) -> bool
        ensures { result ≡ is_named name.now self.now }
    {
        self.names.contains(name)
    }
}

/// The names without those that stand before.
pub fn once(alloc: Global, names: Sequence<Text>) -> Result<FieldList, Memory>
    ensures { IfOk result (λ list. list ≡ once names) }
{
    let mut seen = NameSet::new(alloc);
    let mut list = FieldList::new(alloc);
    for name in names.as_slice() {
        if seen.add(name.as_str())? {
            list.push(name.copy(alloc)?)?;
        }
    }
    Ok(list)
}
