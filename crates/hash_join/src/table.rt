// Right tuples by their keys.
ghost use Rattle.std.specs.Prelude.{◌≡◌, [], OnOk, IfSome, IfNone};
ghost use Rattle.tuple_values.specs.Document.{ByteList};
ghost use Rattle.hash_join.specs.Buckets.{bucket_of, bucket_at, AddsUnder};

use indexmap::IndexMap;
use std::alloc::Global;
use tuple_values::{Bytes, Memory, Tuple};

/// For each key the tuples that were added under it, in order.
#[derive(Drop)]
pub(crate) struct Table {
    buckets: IndexMap<Vec<u8>, Vec<Tuple>>,
}

impl Table {
    /// The table of no tuple.
    pub fn empty(alloc: Global) -> Table
        ensures { (key : ByteList) → bucket_of result key ≡ [] }
    {
        Table {
            buckets: IndexMap::new(alloc),
        }
    }

    /// Adds a tuple behind those of its key. After an `Err` the tuple is dropped.
    pub fn add(&mut self, alloc: Global, key: Bytes, right: Tuple) -> Result<(), Memory>
        ensures { OnOk result (AddsUnder key right self.old self.new) }
    {
        let key = key.into_vec();
        if let Some(bucket) = self.buckets.get_mut(&key) {
            bucket.push(right)?;
            return Ok(());
        }
        let mut bucket = Vec::new(alloc);
        bucket.push(right)?;
        self.buckets.insert(key, bucket)?;
        Ok(())
    }

    /// The number of a key's bucket.
    pub fn find(&self, key: &[u8]) -> Option<usize>
        ensures found { IfSome result (λ i. bucket_at self.now i ≡ bucket_of self.now key.now) }
        ensures absent { IfNone result (bucket_of self.now key.now ≡ []) }
    {
        self.buckets.get_index_of(key)
    }

    /// The tuples of the bucket with a number.
    pub fn bucket(&self, i: usize) -> &[Tuple]
        ensures { result.now ≡ bucket_at self.now i }
    {
        match self.buckets.get_index(i) {
            Some((_, bucket)) => bucket.as_slice(),
            None => &[],
        }
    }
}
