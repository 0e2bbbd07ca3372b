// A write as it is read.
ghost use Rattle.std.specs.Prelude.{◌≡◌, IfOk};

use std::alloc::Global;
use std::marker::Model;
use std::sync::Arc;
use tuple_values::{Memory, Tuple};

/// A document that all who hold it share. A contract sees the document.
pub struct Document {
    tuple: Arc<Tuple>,
}

impl Drop for Document {
    fn drop(self) {
        let Document { tuple } = self;
        drop(tuple);
    }
}

impl Model for Document {
    ghost use Rattle.std.specs.Arc.{arc_value};
    ghost use Rattle.tuple_values.specs.Codes.{doc_code};
    ghost use Rattle.tuple_values.specs.Document.{Doc};

    ghost Value = { Doc };

    ghost coded = { doc_code };

    ghost view = { λ d. arc_value d.tuple };
}

impl Document {
    /// The document of a tuple, which is moved in.
    pub fn of(alloc: Global, tuple: Tuple) -> Result<Document, Memory>
        ensures { IfOk result (λ document. document ≡ tuple) }
    {
        let tuple = Arc::new(alloc, tuple)?;
        Ok(Document { tuple })
    }

    /// The document as it is read.
    pub fn tuple(&self) -> &Tuple
        ensures { result.now ≡ self.now }
    {
        &self.tuple
    }

    /// The same document once more, which is not copied.
    pub fn share(&self) -> Result<Document, Memory>
        ensures { IfOk result (λ document. document ≡ self.now) }
    {
        let tuple = Arc::try_clone(&self.tuple)?;
        Ok(Document { tuple })
    }
}

/// A write in its version: the document that it left under its id, and none where it deleted it.
#[derive(Drop)]
pub struct Slot {
    pub version: u64,
    pub document: Option<Document>,
}

impl Slot {
    /// The same slot once more. Its document is not copied.
    pub fn share(&self) -> Result<Slot, Memory>
        ensures { IfOk result (λ slot. slot ≡ self.now) }
    {
        let version = self.version;
        match &self.document {
            Some(document) => {
                let document = Some(document.share()?);
                Ok(Slot { version, document })
            }
            None => Ok(Slot {
                version,
                document: None,
            }),
        }
    }
}
