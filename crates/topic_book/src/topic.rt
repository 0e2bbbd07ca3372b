// Topics, their bindings, and the entries of the book.
use std::alloc::Global;
use tuple_values::{FieldList, Memory, Sequence, Text, TryCopy, Versions};

/// What a topic is known by: the collection of its checkpoints and its id.
pub struct TopicKey {
    pub checkpoints: Text,
    pub id: Text,
}

impl Drop for TopicKey {
    fn drop(self) {
        let TopicKey { checkpoints, id } = self;
        drop(checkpoints);
        drop(id);
    }
}

/// What a topic is bound to: its source, query and fields, where it delivers to, if anywhere, and
/// the version at which it began in each shard of its source.
#[derive(Debug)]
pub struct Binding {
    pub src: Text,
    pub q: Text,
    pub fields: FieldList,
    pub dest: Option<Text>,
    pub init: Versions,
}

impl Drop for Binding {
    fn drop(self) {
        let Binding {
            src,
            q,
            fields,
            dest,
            init,
        } = self;
        drop(src);
        drop(q);
        drop(fields);
        drop(dest);
        drop(init);
    }
}

/// An entry of the book, with the number of its writer: a topic is bound, or the versions up to
/// which it was delivered are stored.
pub enum BookEntry {
    Bind {
        by: u64,
        key: TopicKey,
        binding: Binding,
    },
    Store {
        by: u64,
        key: TopicKey,
        upto: Versions,
    },
}

impl Drop for BookEntry {
    fn drop(self) {
        match self {
            BookEntry::Bind {
                by: _,
                key,
                binding,
            } => {
                drop(key);
                drop(binding);
            }
            BookEntry::Store { by: _, key, upto } => {
                drop(key);
                drop(upto);
            }
        }
    }
}

/// Entries of the book, in order.
pub type BookEntries = Sequence<BookEntry>;

impl TryCopy for TopicKey {
    fn copy(&self, alloc: Global) -> Result<Self, Memory> {
        let checkpoints = self.checkpoints.copy(alloc)?;
        let id = self.id.copy(alloc)?;
        Ok(TopicKey { checkpoints, id })
    }
}

impl TryCopy for Binding {
    fn copy(&self, alloc: Global) -> Result<Self, Memory> {
        let src = self.src.copy(alloc)?;
        let q = self.q.copy(alloc)?;
        let fields = self.fields.copy(alloc)?;
        let dest = match &self.dest {
            Some(dest) => Some(dest.copy(alloc)?),
            None => None,
        };
        let init = self.init.copy(alloc)?;
        Ok(Binding {
            src,
            q,
            fields,
            dest,
            init,
        })
    }
}

impl TryCopy for BookEntry {
    fn copy(&self, alloc: Global) -> Result<Self, Memory> {
        match self {
            BookEntry::Bind { by, key, binding } => Ok(BookEntry::Bind {
                by: *by,
                key: key.copy(alloc)?,
                binding: binding.copy(alloc)?,
            }),
            BookEntry::Store { by, key, upto } => Ok(BookEntry::Store {
                by: *by,
                key: key.copy(alloc)?,
                upto: upto.copy(alloc)?,
            }),
        }
    }
}
