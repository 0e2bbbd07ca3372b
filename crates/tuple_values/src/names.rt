// Names of fields and of collections.
ghost use Rattle.std.specs.Prelude.{◌≡◌, IfSome, is_some, option_map};
ghost use Rattle.tuple_values.specs.Collections.{is_known, shards_in, shards_of};
ghost use Rattle.tuple_values.specs.Document.{is_named};

use crate::{Memory, Sequence, Text, TryCopy};
use std::alloc::Global;

/// Names of fields.
pub type FieldList = Sequence<Text>;

/// The words of a command line, after the program's name.
pub type Words = Sequence<Text>;

impl Sequence<Text> {
    /// Whether the name is in the list.
    pub fn contains(&self, name: &str) -> bool
        ensures { result ≡ is_named name.now self.now }
    {
        for item in self.as_slice() {
            if item.as_str() == name {
                return true;
            }
        }
        false
    }
}

/// A collection with its number of shards.
#[derive(Drop)]
pub struct NameShards {
    pub name: Text,
    pub shards: u16,
}

/// Collections, in the order in which they are named.
pub type Names = Sequence<NameShards>;

impl Sequence<NameShards> {
    /// The first collection of this name; none exactly where there is none.
    #[tactic(auto, unfolding(crate::specs::Collections::shards_of))]
    pub fn find(&self, name: &[u8]) -> Option<&NameShards>
        ensures found { IfSome result (λ n. n.now.name ≡ name.now) }
        ensures known { is_some result ≡ is_known name.now self.now }
        ensures shards { shards_in (option_map (λ n. n.now) result) ≡ shards_of self.now name.now }
    {
        for entry in self.as_slice() {
            if entry.name.as_str().as_bytes() == name {
                return Some(entry);
            }
        }
        None
    }
}

impl TryCopy for NameShards {
    fn copy(&self, alloc: Global) -> Result<Self, Memory> {
        let name = self.name.copy(alloc)?;
        Ok(NameShards {
            name,
            shards: self.shards,
        })
    }
}
