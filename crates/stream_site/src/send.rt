// Deliveries.
ghost use Rattle.std.specs.Prelude.{ℕ, ◌≡◌, ◌<◌, ◌≤◌, ◌^◌, [], IfOk, get_or, length};
ghost use Rattle.topic_book.specs.Cells.{cell_of};
ghost use Rattle.topic_book.specs.Fitness.{shards_of};
ghost use Rattle.exchange_rules.specs.Calls.{Answered, PassedSent};
ghost use Rattle.exchange_rules.specs.Cells.{Log};
ghost use Rattle.exchange_rules.specs.Deliveries.{send_course, send_shards, sent_share};
ghost use Rattle.exchange_rules.specs.Following.{Grows};
ghost use Rattle.exchange_rules.specs.Rows.{length_below};
ghost use Rattle.site_laws.specs.Duties.{MayDeliver, MaySend};
ghost use Rattle.stream_site.specs.Shares.{AreDeliveries, share_in};

use crate::place::{locate, width};
use crate::routing::{route_batch, take_step};
use crate::step::deliver_over;
use crate::{SiteFault, Turns};
use exchange_rules::{Batch, Sent};
use shard_versions::Step;
use std::alloc::Global;
use tuple_values::Text;

/// Delivers each step at its shard of the destination, and leaves an empty one in its place. The
/// answer is how many entries were admitted.
fn deliver_all_over<T: Turns>(
    alloc: Global,
    site: &mut T,
    dest: &Text,
    steps: &mut Vec<Step>,
) -> Result<u64, SiteFault>
    requires { AreDeliveries (T.layout site.old).names (T.writer site.old).me
        (T.writer site.old).seen dest.now steps.old.items }
    ensures course { PassedSent 0 (T.writer site.old) (T.writer site.new)
        (send_shards (T.layout site.old) dest.now (share_in steps.old.items) 0 0
        (shards_of (T.layout site.old).names dest.now)) result }
    ensures few { IfOk result (λ n. n ≤ length_below (share_in steps.old.items)
        (shards_of (T.layout site.old).names dest.now)) }
    ensures layout { T.layout site.new ≡ T.layout site.old }
    ensures home { T.home site.new ≡ T.home site.old }
{
    let mut admitted: u64 = 0;
    for shard in 0..width(site, dest) {
        let step = take_step(alloc, steps, shard);
        let at = locate(site, dest, shard, admitted);
        admitted += deliver_over(alloc, site, &at, step)?;
    }
    Ok(admitted)
}

/// Per shard of the destination to which an item routes one look, and the step of those that it
/// admits.
fn send_steps_over<T: Turns>(
    alloc: Global,
    site: &mut T,
    dest: &Text,
    src: &Text,
    batch: Batch,
) -> Result<Sent, SiteFault>
    requires { MaySend (T.layout site.old).names (T.writer site.old).seen dest.now src.now batch }
    ensures course { Answered (T.writer site.old) (T.writer site.new)
        (send_course (T.layout site.old) dest.now src.now batch) result }
    ensures layout { T.layout site.new ≡ T.layout site.old }
    ensures home { T.home site.new ≡ T.home site.old }
{
    let total = batch.len() as u64;
    let shards = width(site, dest);
    let mut steps = route_batch(alloc, site.number(), shards, src, batch)?;
    let admitted = deliver_all_over(alloc, site, dest, &mut steps)?;
    Ok(Sent {
        admitted,
        refused: total - admitted,
    })
}

/// The same, once there is room for the looks.
fn send_ready_over<T: Turns>(
    alloc: Global,
    site: &mut T,
    dest: &Text,
    src: &Text,
    batch: Batch,
) -> Result<Sent, SiteFault>
    requires { MaySend (T.layout site.old).names (T.writer site.old).seen dest.now src.now batch }
    ensures course { Answered (T.writer site.old) (T.writer site.new)
        (send_course (T.layout site.old) dest.now src.now batch) result }
    ensures layout { T.layout site.new ≡ T.layout site.old }
    ensures home { T.home site.new ≡ T.home site.old }
{
    let shards = width(site, dest);
    site.make_room(usize::from(shards))?;
    send_steps_over(alloc, site, dest, src, batch)
}

/// Delivers the batch to its destination: at each shard to which an item routes those that the
/// shard admits, and a Mark. The answer is how many were admitted, and how many weren't. The writer
/// has seen the writes that the items come from. It has no turn afterwards.
pub fn send_over<T: Turns>(
    alloc: Global,
    site: &mut T,
    dest: &Text,
    src: &Text,
    batch: Batch,
) -> Result<Sent, SiteFault>
    requires { MaySend (T.layout site.old).names (T.writer site.old).seen dest.now src.now batch }
    ensures course { Answered (T.writer site.old) (T.writer site.new)
        (send_course (T.layout site.old) dest.now src.now batch) result }
    ensures free { T.free site.new }
    ensures layout { T.layout site.new ≡ T.layout site.old }
    ensures home { T.home site.new ≡ T.home site.old }
{
    let result = send_ready_over(alloc, site, dest, src, batch);
    site.leave();
    result
}
