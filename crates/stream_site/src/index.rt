// Updates and commits.
ghost use Rattle.std.specs.Prelude.{◌≡◌, ◌<◌, ℕ, [], get_or, length};
ghost use Rattle.topic_book.specs.Cells.{cell_of};
ghost use Rattle.topic_book.specs.Fitness.{shards_of};
ghost use Rattle.exchange_rules.specs.Calls.{Answered, Passed};
ghost use Rattle.exchange_rules.specs.Rows.{commit_course, index_course, length_below, commit_shards, writes_course};
ghost use Rattle.exchange_rules.specs.Steps.{AreStorableWrites};
ghost use Rattle.site_laws.specs.Duties.{IsFitStep};
ghost use Rattle.stream_site.specs.Shares.{AreSteps, share_in};

use crate::place::{locate, width};
use crate::routing::{counts_of, route, take_step};
use crate::step::{commit_unless_over, write_over};
use crate::{SiteFault, Turns};
use shard_versions::Step;
use std::alloc::Global;
use tuple_values::{Text, Writes};

/// The count at this place, and 0 where there is none.
fn count_at(counts: &[usize], place: u16) -> usize
    ensures { result ≡ get_or counts.now place 0 }
{
    match counts.get(place as usize) {
        Some(count) => *count,
        None => 0,
    }
}

/// Commits each shard of the collection, but for those to which writes went.
fn commit_shards_over<T: Turns>(
    alloc: Global,
    site: &mut T,
    collection: &Text,
    counts: &[usize],
    stand: u64,
) -> Result<(), SiteFault>
    ensures course { Passed stand (T.writer site.old) (T.writer site.new)
        (commit_shards (T.layout site.old) collection.now
        (λ shard. get_or counts.now shard 0) stand)
        0 result }
    ensures layout { T.layout site.new ≡ T.layout site.old }
    ensures home { T.home site.new ≡ T.home site.old }
{
    for shard in 0..width(site, collection) {
        let writes = count_at(counts, shard);
        let at = locate(site, collection, shard, stand);
        commit_unless_over(alloc, site, &at, writes)?;
    }
    Ok(())
}

/// Appends each step at its shard of the collection, and leaves an empty one in its place.
fn write_all_over<T: Turns>(
    alloc: Global,
    site: &mut T,
    collection: &Text,
    steps: &mut Vec<Step>,
    commit: bool,
) -> Result<(), SiteFault>
    requires steps { AreSteps (T.writer site.old).me
        (shards_of (T.layout site.old).names collection.now) steps.old.items }
    requires fit { (shard : ℕ) → shard < shards_of (T.layout site.old).names collection.now
        → IsFitStep (T.layout site.old).names
        (cell_of (T.layout site.old).names collection.now shard) (get_or steps.old.items shard []) }
    ensures course { Passed 0 (T.writer site.old) (T.writer site.new)
        (writes_course (T.layout site.old) collection.now (share_in steps.old.items) commit)
        (length_below (share_in steps.old.items)
        (shards_of (T.layout site.old).names collection.now)) result }
    ensures layout { T.layout site.new ≡ T.layout site.old }
    ensures home { T.home site.new ≡ T.home site.old }
{
    let mut stand: u64 = 0;
    for shard in 0..width(site, collection) {
        let step = take_step(alloc, steps, shard);
        let count = step.len() as u64;
        let at = locate(site, collection, shard, stand);
        write_over(alloc, site, &at, step, commit)?;
        stand += count;
    }
    Ok(())
}

/// The writes at the collection's shards, and with a commit a Mark on each shard where a write is
/// pending. The answer is the number of writes.
fn index_steps_over<T: Turns>(
    alloc: Global,
    site: &mut T,
    collection: &Text,
    writes: Writes,
    commit: bool,
) -> Result<u64, SiteFault>
    requires known { 0 < shards_of (T.layout site.old).names collection.now }
    requires storable { AreStorableWrites writes }
    ensures course { Answered (T.writer site.old) (T.writer site.new)
        (index_course (T.layout site.old) collection.now writes commit) result }
    ensures layout { T.layout site.new ≡ T.layout site.old }
    ensures home { T.home site.new ≡ T.home site.old }
{
    let total = writes.len() as u64;
    let shards = width(site, collection);
    let mut steps = route(alloc, site.number(), shards, writes)?;
    let counts = counts_of(alloc, &steps)?;
    write_all_over(alloc, site, collection, &mut steps, commit)?;
    if !commit {
        return Ok(total);
    }
    commit_shards_over(alloc, site, collection, &counts, total)?;
    Ok(total)
}

/// The same, once there is room for the looks.
fn index_ready_over<T: Turns>(
    alloc: Global,
    site: &mut T,
    collection: &Text,
    writes: Writes,
    commit: bool,
) -> Result<u64, SiteFault>
    requires known { 0 < shards_of (T.layout site.old).names collection.now }
    requires storable { AreStorableWrites writes }
    ensures course { Answered (T.writer site.old) (T.writer site.new)
        (index_course (T.layout site.old) collection.now writes commit) result }
    ensures layout { T.layout site.new ≡ T.layout site.old }
    ensures home { T.home site.new ≡ T.home site.old }
{
    let shards = width(site, collection);
    site.make_room(usize::from(shards))?;
    index_steps_over(alloc, site, collection, writes, commit)
}

/// A Mark on each shard of the collection where a write is pending.
fn commit_steps_over<T: Turns>(
    alloc: Global,
    site: &mut T,
    collection: &Text,
) -> Result<(), SiteFault>
    ensures course { Answered (T.writer site.old) (T.writer site.new)
        (commit_course (T.layout site.old) collection.now) result }
    ensures layout { T.layout site.new ≡ T.layout site.old }
    ensures home { T.home site.new ≡ T.home site.old }
{
    let shards = width(site, collection);
    site.make_room(usize::from(shards))?;
    commit_shards_over(alloc, site, collection, &[], 0)
}

/// The writes at the collection's shards, and with a commit a Mark on each shard where a write is
/// pending. The answer is the number of writes. The writer has no turn afterwards.
pub fn index_over<T: Turns>(
    alloc: Global,
    site: &mut T,
    collection: &Text,
    writes: Writes,
    commit: bool,
) -> Result<u64, SiteFault>
    requires known { 0 < shards_of (T.layout site.old).names collection.now }
    requires storable { AreStorableWrites writes }
    ensures course { Answered (T.writer site.old) (T.writer site.new)
        (index_course (T.layout site.old) collection.now writes commit) result }
    ensures free { T.free site.new }
    ensures layout { T.layout site.new ≡ T.layout site.old }
    ensures home { T.home site.new ≡ T.home site.old }
{
    let result = index_ready_over(alloc, site, collection, writes, commit);
    site.leave();
    result
}

/// A Mark on each shard of the collection where a write is pending. The writer has no turn
/// afterwards.
pub fn commit_all_over<T: Turns>(
    alloc: Global,
    site: &mut T,
    collection: &Text,
) -> Result<(), SiteFault>
    ensures course { Answered (T.writer site.old) (T.writer site.new)
        (commit_course (T.layout site.old) collection.now) result }
    ensures free { T.free site.new }
    ensures layout { T.layout site.new ≡ T.layout site.old }
    ensures home { T.home site.new ≡ T.home site.old }
{
    let result = commit_steps_over(alloc, site, collection);
    site.leave();
    result
}
