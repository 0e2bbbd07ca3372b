// Lists that a contract sees as their items alone.
ghost use Rattle.std.specs.Prelude.{◌≡◌, ◌++◌, ◌∷◌, [], IfOk, OnOk, OnErr, length, option_copied, slice_get};

use crate::{Memory, TryCopy};
use std::alloc::Global;
use std::marker::Model;

/// Items in the order in which they were added. A contract sees the list of them.
#[derive(Debug)]
pub struct Sequence<T> {
    items: Vec<T>,
}

impl<T: Drop> Drop for Sequence<T> {
    fn drop(self) {
        let Sequence { items } = self;
        drop(items);
    }
}

impl<T> Model for Sequence<T> {
    ghost use Rattle.std.specs.Prelude.{List};

    ghost Value = { List T };

    ghost view = { λ s. s.items.items };
}

/// Bytes, of a reply or of a key.
pub type Bytes = Sequence<u8>;

/// Numbers.
pub type Numbers = Sequence<u64>;

/// Versions of a collection, one for each shard, in the order of shards.
pub type Versions = Sequence<u64>;

/// Places in a list, counted from 0.
pub type Places = Sequence<u64>;

impl<T> Sequence<T> {
    /// The list of no item.
    pub fn new(alloc: Global) -> Self
        ensures { result ≡ [] }
    {
        Sequence {
            items: Vec::new(alloc),
        }
    }

    /// The list of a vector's items, which is moved in. Takes no memory.
    pub fn from_vec(items: Vec<T>) -> Self
        ensures { result ≡ items.items }
    {
        Sequence { items }
    }

    /// The items as a vector. Takes no memory.
    pub fn into_vec(self) -> Vec<T>
        ensures { result.items ≡ self }
    {
        let Sequence { items } = self;
        items
    }

    /// The items as a slice.
    pub fn as_slice(&self) -> &[T]
        ensures { result.now ≡ self.now }
    {
        &self.items
    }

    /// How many items there are.
    pub fn len(&self) -> usize
        ensures { result ≡ length self.now }
    {
        self.items.len()
    }

    /// The item at a place, counted from 0; none past the last.
    pub fn get(&self, place: usize) -> Option<&T>
        ensures { option_copied result ≡ slice_get self.now place }
    {
        self.items.get(place)
    }
}

impl<T: Drop> Sequence<T> {
    /// Adds an item at the end. After an `Err` the item is dropped.
    pub fn push(&mut self, item: T) -> Result<(), Memory>
        ensures ok { OnOk result (self.new ≡ self.old ++ item ∷ []) }
        ensures err { OnErr result (self.new ≡ self.old) }
    {
        self.items.push(item)?;
        Ok(())
    }
}

impl Sequence<u8> {
    /// Adds bytes at the end.
    pub fn extend(&mut self, bytes: &[u8]) -> Result<(), Memory>
        ensures ok { OnOk result (self.new ≡ self.old ++ bytes.now) }
        ensures err { OnErr result (self.new ≡ self.old) }
    {
        self.items.extend_from_slice(bytes)?;
        Ok(())
    }
}

impl<T: TryCopy> TryCopy for Sequence<T> {
    fn copy(&self, alloc: Global) -> Result<Self, Memory> {
        let mut items = Vec::new(alloc);
        for item in &self.items {
            items.push(item.copy(alloc)?)?;
        }
        Ok(Sequence { items })
    }
}
