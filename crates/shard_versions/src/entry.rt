// Entries of a shard's history.
ghost use Rattle.std.specs.Prelude.{◌≡◌};

use std::alloc::Global;
use tuple_values::{Memory, Sequence, Text, TryCopy, Tuple};

/// What an entry does: a document is put under its id, an id is deleted, a document comes from a
/// version of another collection, or the writes before are committed.
#[derive(Drop)]
pub enum Kind {
    Put(Tuple),
    Del(Text),
    Sent {
        src: Text,
        version: u64,
        document: Tuple,
    },
    Mark,
}

/// An entry of a shard's history, with the number of its writer.
pub struct Entry {
    pub by: u64,
    pub kind: Kind,
}

impl Drop for Entry {
    fn drop(self) {
        let Entry { by: _, kind } = self;
        drop(kind);
    }
}

/// Entries that are appended together.
pub type Step = Sequence<Entry>;

impl Entry {
    /// The document is put under its id.
    pub fn put(by: u64, document: Tuple) -> Entry
        ensures { result ≡ record { by = by; kind = Kind.Put document } }
    {
        Entry {
            by,
            kind: Kind::Put(document),
        }
    }

    /// The document of this id is deleted.
    pub fn del(by: u64, id: Text) -> Entry
        ensures { result ≡ record { by = by; kind = Kind.Del id } }
    {
        Entry {
            by,
            kind: Kind::Del(id),
        }
    }

    /// The document comes from a version of another collection.
    pub fn sent(by: u64, src: Text, version: u64, document: Tuple) -> Entry
        ensures { result ≡ record { by = by; kind = Kind.Sent src version document } }
    {
        Entry {
            by,
            kind: Kind::Sent {
                src,
                version,
                document,
            },
        }
    }

    /// The writes before are committed.
    pub fn mark(by: u64) -> Entry
        ensures { result ≡ record { by = by; kind = Kind.Mark } }
    {
        Entry {
            by,
            kind: Kind::Mark,
        }
    }
}

impl TryCopy for Kind {
    fn copy(&self, alloc: Global) -> Result<Self, Memory> {
        match self {
            Kind::Put(document) => Ok(Kind::Put(document.copy(alloc)?)),
            Kind::Del(id) => Ok(Kind::Del(id.copy(alloc)?)),
            Kind::Sent {
                src,
                version,
                document,
            } => Ok(Kind::Sent {
                src: src.copy(alloc)?,
                version: *version,
                document: document.copy(alloc)?,
            }),
            Kind::Mark => Ok(Kind::Mark),
        }
    }
}

impl TryCopy for Entry {
    fn copy(&self, alloc: Global) -> Result<Self, Memory> {
        let kind = self.kind.copy(alloc)?;
        Ok(Entry { by: self.by, kind })
    }
}
