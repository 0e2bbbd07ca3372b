// The greatest numbers that were told under two texts and a number.
ghost use Rattle.std.specs.Prelude.{◌≡◌, ℕ, None, OnOk, if◌then◌else◌};
ghost use Rattle.tuple_values.specs.Document.{ByteList};
ghost use Rattle.shard_versions.specs.Indexes.{greater};
ghost use Rattle.law_checks.specs.Numbers.{number_at, same_place};

use std::alloc::Global;
use std::collections::BTreeMap;
use tuple_values::Memory;

/// The greatest of the numbers that were told under two texts and a number.
#[derive(Drop)]
pub(crate) struct Greatest<'a> {
    numbers: BTreeMap<(&'a str, &'a str, u64), u64>,
}

impl<'a> Greatest<'a> {
    /// No number was told.
    pub(crate) fn none(alloc: Global) -> Self
        ensures { (a b : ByteList) (n : ℕ) → number_at result a b n ≡ None }
    {
        Greatest {
            numbers: BTreeMap::new(alloc),
        }
    }

    /// The greatest number that was told there.
    pub(crate) fn at(&self, first: &'a str, second: &'a str, third: u64) -> Option<u64>
        ensures { result ≡ number_at self.now first.now second.now third }
    {
        self.numbers.get(&(first, second, third)).copied()
    }

    /// Tells a number.
    pub(crate) fn raise(
        &mut self,
        first: &'a str,
        second: &'a str,
        third: u64,
        number: u64,
    ) -> Result<(), Memory>
        ensures { OnOk result ((a b : ByteList) (n : ℕ) → number_at self.new a b n
            ≡ (if same_place first.now second.now third a b n
            then greater number (number_at self.old a b n)
            else number_at self.old a b n)) }
    {
        let greatest = match self.at(first, second, third) {
            Some(before) => before.max(number),
            None => number,
        };
        self.numbers.insert((first, second, third), greatest)?;
        Ok(())
    }
}
