// A document that a search keeps, and one that it gives.
ghost use Rattle.std.specs.Prelude.{◌≡◌, ◌<◌, IfOk, length, slice_index_or};
ghost use Rattle.source_streams.specs.Keeps.{doc_of, given_doc};

use shard_segments::Document;
use shard_versions::Snapshot;
use sort_spec::Lends;
use tuple_values::{Memory, Tuple};

/// What a search keeps of a document that it finds.
pub(crate) trait Keeps<'a>: Lends + Drop {
    /// What is kept of the document, which is not copied.
    fn of(document: &'a Document) -> Result<Self, Memory>
        ensures { IfOk result (λ kept. Self.doc kept ≡ document.now) };
}

/// A document that a search keeps, which its shard lends.
#[derive(Clone, Copy)]
pub(crate) struct Kept<'a> {
    pub(crate) document: &'a Document,
}

impl Lends for Kept<'_> {
    ghost use Rattle.source_streams.specs.Keeps.{doc_of};

    ghost doc = { doc_of };

    fn tuple(&self) -> &Tuple {
        self.document.tuple()
    }
}

impl<'a> Keeps<'a> for Kept<'a> {
    fn of(document: &'a Document) -> Result<Self, Memory> {
        Ok(Kept { document })
    }
}

/// A document that a search gives, which is shared with its shard.
#[derive(Drop)]
pub(crate) struct Given {
    pub(crate) document: Document,
}

impl Lends for Given {
    ghost use Rattle.source_streams.specs.Keeps.{given_doc};

    ghost doc = { given_doc };

    fn tuple(&self) -> &Tuple {
        self.document.tuple()
    }
}

impl<'a> Keeps<'a> for Given {
    fn of(document: &'a Document) -> Result<Self, Memory> {
        let document = document.share()?;
        Ok(Given { document })
    }
}

/// The k-th current document of a snapshot.
pub(crate) fn document_at<'a>(snapshot: &'a Snapshot, k: u64) -> &'a Document
    requires { k < length snapshot.now.documents }
    ensures { (d : _) → result.now ≡ (slice_index_or snapshot.now.documents k d).1 }
{
    match &snapshot.chunks().get(snapshot.place(k)).document {
        Some(document) => document,
        None => unreachable!(),
    }
}
