// Cuts: shards as they are read, one after another.
ghost use Rattle.std.specs.Prelude.{◌≡◌, ◌++◌, ◌∷◌, [], IfOk};
ghost use Rattle.topic_book.specs.Fitness.{shards_of};
ghost use Rattle.exchange_rules.specs.Calls.{Completed};
ghost use Rattle.exchange_rules.specs.Cells.{history_in};
ghost use Rattle.exchange_rules.specs.Courses.{ends, looks};
ghost use Rattle.exchange_rules.specs.Rows.{HasCell, cut_course, cut_shards, part_of};

use crate::place::{locate, width};
use crate::spot::Spot;
use crate::{SiteFault, Turns};
use shard_versions::{Cut, CutPart, Snapshot};
use std::alloc::Global;
use tuple_values::{FieldList, Memory, Text, TryCopy};

/// The cut with a part behind it.
fn with_part(alloc: Global, mut cut: Cut, at: &Spot, snapshot: Snapshot) -> Result<Cut, Memory>
    ensures { IfOk result (λ parts. parts ≡ cut ++ record {
      collection = at.now.collection.now;
      shard = at.now.shard;
      snapshot = snapshot;
    } ∷ []) }
{
    let collection = at.collection.copy(alloc)?;
    cut.push(CutPart {
        collection,
        shard: at.shard,
        snapshot,
    })?;
    Ok(cut)
}

/// One look where the call is; the part of that shard follows the cut.
fn look_part_over<T: Turns>(
    alloc: Global,
    site: &mut T,
    at: &Spot,
    cut: Cut,
) -> Result<Cut, SiteFault>
    requires { HasCell (T.layout site.old) (T.writer site.old) at.now.cell }
    ensures course { Completed (T.writer site.old) (T.writer site.new)
        (looks at.now.cell (λ log. ends
        (cut ++ part_of at.now.collection.now at.now.shard (history_in log) ∷ []))) result }
    ensures layout { T.layout site.new ≡ T.layout site.old }
    ensures home { T.home site.new ≡ T.home site.old }
    ensures later { T.later site.old site.new }
{
    site.look(at.cell)?;
    let snapshot = site.snapshot(alloc, at.cell)?;
    let cut = with_part(alloc, cut, at, snapshot)?;
    Ok(cut)
}

/// One look at each shard of the collection, whose parts follow the cut.
fn cut_collection_over<T: Turns>(
    alloc: Global,
    site: &mut T,
    collection: &Text,
    cut: Cut,
) -> Result<Cut, SiteFault>
    ensures course { Completed (T.writer site.old) (T.writer site.new)
        (cut_shards (T.layout site.old).names collection.now 0
        (shards_of (T.layout site.old).names collection.now) cut) result }
    ensures layout { T.layout site.new ≡ T.layout site.old }
    ensures home { T.home site.new ≡ T.home site.old }
    ensures later { T.later site.old site.new }
{
    let mut cut = cut;
    for shard in 0..width(site, collection) {
        let at = locate(site, collection, shard, 0);
        cut = look_part_over(alloc, site, &at, cut)?;
    }
    Ok(cut)
}

/// One look at each shard of the collections, in their order and then by shard.
fn cut_parts_over<T: Turns>(
    alloc: Global,
    site: &mut T,
    collections: &FieldList,
) -> Result<Cut, SiteFault>
    ensures course { Completed (T.writer site.old) (T.writer site.new)
        (cut_course (T.layout site.old).names [] collections.now) result }
    ensures layout { T.layout site.new ≡ T.layout site.old }
    ensures home { T.home site.new ≡ T.home site.old }
    ensures later { T.later site.old site.new }
{
    let mut cut = Cut::new(alloc);
    for collection in collections.as_slice() {
        cut = cut_collection_over(alloc, site, collection, cut)?;
    }
    Ok(cut)
}

/// How many looks a cut of the collections takes.
fn count_looks<T: Turns>(site: &T, collections: &FieldList) -> usize {
    let mut looks: usize = 0;
    for collection in collections.as_slice() {
        looks = looks.saturating_add(usize::from(width(site, collection)));
    }
    looks
}

/// The same, once there is room for the looks.
fn cut_ready_over<T: Turns>(
    alloc: Global,
    site: &mut T,
    collections: &FieldList,
) -> Result<Cut, SiteFault>
    ensures course { Completed (T.writer site.old) (T.writer site.new)
        (cut_course (T.layout site.old).names [] collections.now) result }
    ensures layout { T.layout site.new ≡ T.layout site.old }
    ensures home { T.home site.new ≡ T.home site.old }
    ensures later { T.later site.old site.new }
{
    let looks = count_looks(site, collections);
    site.make_room(looks)?;
    cut_parts_over(alloc, site, collections)
}

/// One look at each shard of the collections, in their order and then by shard. The writer has no
/// turn afterwards.
pub fn take_cut_over<T: Turns>(
    alloc: Global,
    site: &mut T,
    collections: &FieldList,
) -> Result<Cut, SiteFault>
    ensures course { Completed (T.writer site.old) (T.writer site.new)
        (cut_course (T.layout site.old).names [] collections.now) result }
    ensures free { T.free site.new }
    ensures layout { T.layout site.new ≡ T.layout site.old }
    ensures home { T.home site.new ≡ T.home site.old }
    ensures later { T.later site.old site.new }
{
    let result = cut_ready_over(alloc, site, collections);
    site.leave();
    result
}
