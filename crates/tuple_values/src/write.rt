// Writes of an update.
use crate::{Memory, Sequence, Text, TryCopy, Tuple};
use std::alloc::Global;

/// One write of an update: a document to keep under its id, or the id of one to take away.
#[derive(Drop)]
pub enum Write {
    Put(Tuple),
    Del(Text),
}

/// Writes, in the order in which they are carried out.
pub type Writes = Sequence<Write>;

impl TryCopy for Write {
    fn copy(&self, alloc: Global) -> Result<Self, Memory> {
        match self {
            Write::Put(document) => Ok(Write::Put(document.copy(alloc)?)),
            Write::Del(id) => Ok(Write::Del(id.copy(alloc)?)),
        }
    }
}
