// A cut of one collection.
ghost use Rattle.std.specs.Prelude.{◌≡◌, IfOk, OnOk};
ghost use Rattle.exchange_rules.specs.Bindings.{book_seen};
ghost use Rattle.case_items.specs.Items.{AreShown};
ghost use Rattle.case_items.specs.Stores.{ShowsAll};

use shard_versions::Cut;
use std::alloc::Global;
use stream_site::{Turns, take_cut_over};
use tuple_values::{FieldList, Memory, Text, TryCopy};

/// One look at each shard of the collection, and none at the book.
pub(crate) fn cut_of<T: Turns>(
    alloc: Global,
    site: &mut T,
    collection: &Text,
) -> Result<Cut, Memory>
    ensures shown { IfOk result (AreShown (T.layout site.old).names (T.writer site.new).seen
        collection.now) }
    ensures whole { IfOk result (ShowsAll (T.layout site.old).names (T.writer site.new).seen
        collection.now) }
    ensures book { OnOk result (book_seen (T.layout site.old) (T.writer site.new)
        ≡ book_seen (T.layout site.old) (T.writer site.old)) }
    ensures layout { T.layout site.new ≡ T.layout site.old }
    ensures home { T.home site.new ≡ T.home site.old }
{
    let mut collections = FieldList::new(alloc);
    collections.push(collection.copy(alloc)?)?;
    match take_cut_over(alloc, site, &collections) {
        Ok(cut) => Ok(cut),
        // A cut is refused for want of memory alone.
        Err(_) => Err(Memory::OutOfMemory),
    }
}
