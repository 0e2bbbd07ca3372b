// The current documents of a collection, of which some are asked for.
ghost use Rattle.std.specs.Prelude.{◌≡◌, ◌<◌, IfOk, IfSome};
ghost use Rattle.std.specs.List.{AllByRecursion};
ghost use Rattle.topic_book.specs.Fitness.{shards_of};
ghost use Rattle.site_laws.specs.Duties.{IsItem};

use crate::items::cut_items;
use crate::source::cut_of;
use shard_versions::id_of;
use std::alloc::Global;
use stream_site::{Batch, BatchItem, Turns};
use tuple_values::{FieldList, Memory, Text};

// Whether the item is asked for: its id is named, or none is.
fn is_wanted(item: &BatchItem, ids: &FieldList) -> bool {
    ids.len() == 0 || ids.contains(id_of(&item.document))
}

// The items that are asked for.
fn wanted(alloc: Global, items: Batch, ids: &FieldList) -> Result<Batch, Memory>
    ensures { (names seen dest src : _) → AllByRecursion (IsItem names seen dest src) items
        → IfOk result (AllByRecursion (IsItem names seen dest src)) }
{
    let mut kept = Batch::new(alloc);
    for item in items.into_vec() {
        if is_wanted(&item, ids) {
            kept.push(item)?;
        }
    }
    Ok(kept)
}

/// The current documents of the source as items of a batch, shard by shard and then by version:
/// those with these ids, or all where there is no id; none where one of all can't be kept. Each of
/// its shards is looked at. The writer has no turn afterwards.
pub fn current_items<T: Turns>(
    alloc: Global,
    site: &mut T,
    src: &Text,
    ids: &FieldList,
) -> Result<Option<Batch>, Memory>
    requires { 0 < shards_of (T.layout site.old).names src.now }
    ensures items { (dest : _) → IfOk result (λ items. IfSome items (AllByRecursion
        (IsItem (T.layout site.old).names (T.writer site.new).seen dest src.now))) }
    ensures free { T.free site.new }
    ensures layout { T.layout site.new ≡ T.layout site.old }
    ensures home { T.home site.new ≡ T.home site.old }
{
    let cut = cut_of(alloc, site, src);
    site.leave();
    let Some(items) = cut_items(alloc, site.names(), src, &cut?)? else {
        return Ok(None);
    };
    Ok(Some(wanted(alloc, items, ids)?))
}
