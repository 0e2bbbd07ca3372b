// What is counted of shards.
ghost use Rattle.std.specs.Prelude.{◌≡◌, ◌+◌, ◌<◌, ◌^◌, codes};
ghost use Rattle.load_rules.specs.Summary.{natural_of, number_in};

use tuple_values::{Tuple, Value};

/// What is counted of a shard, or of several: current documents, writes, and the sums of two fields
/// over the current documents.
#[derive(Clone, Copy, Drop)]
pub(crate) struct Counts {
    pub(crate) documents: u128,
    pub(crate) writes: u128,
    pub(crate) amounts: u128,
    pub(crate) revisions: u128,
}

impl Counts {
    /// Nothing.
    pub(crate) fn none() -> Counts
        ensures { result ≡ record { documents = 0; writes = 0; amounts = 0; revisions = 0 } }
    {
        Counts {
            documents: 0,
            writes: 0,
            amounts: 0,
            revisions: 0,
        }
    }

    /// Counts a current document.
    pub(crate) fn add(&mut self, document: &Tuple)
        requires documents { self.old.documents + 1 < 2 ^ 128 }
        requires amounts { self.old.amounts + 2 ^ 63 < 2 ^ 128 }
        requires revisions { self.old.revisions + 2 ^ 63 < 2 ^ 128 }
        ensures counts { self.new ≡ record {
          documents = self.old.documents + 1;
          writes = self.old.writes;
          amounts = self.old.amounts + number_in (codes "a_i") document.now;
          revisions = self.old.revisions + number_in (codes "rev_i") document.now;
        } }
        ensures low_amount { self.new.amounts < self.old.amounts + 2 ^ 63 }
        ensures low_revision { self.new.revisions < self.old.revisions + 2 ^ 63 }
    {
        self.documents += 1;
        self.amounts += number_in("a_i", document) as u128;
        self.revisions += number_in("rev_i", document) as u128;
    }

    /// Both together.
    pub(crate) fn plus(self, other: Counts) -> Counts
        requires documents { self.documents + other.documents < 2 ^ 128 }
        requires writes { self.writes + other.writes < 2 ^ 128 }
        requires amounts { self.amounts + other.amounts < 2 ^ 128 }
        requires revisions { self.revisions + other.revisions < 2 ^ 128 }
        ensures { result ≡ record {
          documents = self.documents + other.documents;
          writes = self.writes + other.writes;
          amounts = self.amounts + other.amounts;
          revisions = self.revisions + other.revisions;
        } }
    {
        Counts {
            documents: self.documents + other.documents,
            writes: self.writes + other.writes,
            amounts: self.amounts + other.amounts,
            revisions: self.revisions + other.revisions,
        }
    }
}

// The number that a document has under a name, and 0 where it has none, or a negative one.
fn number_in(name: &str, document: &Tuple) -> u64
    ensures number { result ≡ number_in name.now document.now }
    ensures low { result < 2 ^ 63 }
{
    match document.get(name) {
        Some(Value::Long(number)) => natural_of(*number),
        _ => 0,
    }
}

// The number, and 0 where it is negative.
fn natural_of(number: i64) -> u64
    ensures number { result ≡ natural_of number }
    ensures low { result < 2 ^ 63 }
{
    if number < 0 { 0 } else { number as u64 }
}
