// Topics that are delivered.
ghost use Rattle.std.specs.Prelude.{◌≡◌, ◌≢◌, ◌<◌, IfOk, IfErr, OnOk, Some};
ghost use Rattle.topic_book.specs.Fitness.{shards_of};
ghost use Rattle.exchange_rules.specs.Batches.{none_sunk};
ghost use Rattle.exchange_rules.specs.Topics.{run_course, stopped_by};
ghost use Rattle.update_sink.specs.Given.{AreGiven, AreThereNow};
ghost use Rattle.update_sink.specs.Promises.{HasDelivered, HasReached, HasStood, IsKept, IsRunAlone, IsUnstoredBy, stand_of};
ghost use Rattle.update_sink.specs.Runs.{IsRun};
ghost use Rattle.update_sink.specs.Sends.{IsToldOf, MayFinish, finish_course};
ghost use Rattle.update_sink.specs.Topics.{asked_of, batches_over, key_of, run_at, run_of, sink_of, IsCheckedDelivery, IsSinkThere};

use crate::asking::key_of;
use crate::delivering::{Delivery, deliver_all, stand_in};
use crate::taking::{Taken, begin_topic, take_source};
use exchange_rules::{SiteFault, TopicFault, TopicRun};
use io_edge::{Gate, Point};
use std::alloc::Global;
use stream_site::{Turns, store_topic_over};
use topic_book::TopicKey;
use tuple_values::{TryCopy, Tuples};

// A run that stops before its first batch.
fn halted(alloc: Global, fault: SiteFault) -> TopicFault
    ensures { result ≡ stopped_by none_sunk fault }
{
    let stand = stand_in(&fault);
    TopicFault {
        summaries: Tuples::empty(alloc),
        stand,
        fault,
    }
}

// What was taken is delivered, and then its tops are stored. The gate is told before it.
fn finish<T: Turns, G: Gate>(
    alloc: Global,
    site: &mut T,
    delivery: &Delivery<'_>,
    key: &TopicKey,
    taken: Taken,
    gate: &G,
) -> Result<TopicRun, TopicFault>
    requires known { 0 < shards_of (T.layout site.old).names delivery.now.dest.now }
    requires elsewhere { delivery.now.topic.collection.now ≢ delivery.now.dest.now }
    requires size { 0 < delivery.now.batch_size }
    requires given { AreGiven (T.layout site.old).names (T.writer site.old).seen
        delivery.now.topic.collection.now delivery.now.topic.fl.now taken.items }
    requires may { MayFinish (T.layout site.old).names (T.writer site.old).seen key.now
        delivery.now.dest.now delivery.now.topic.collection.now taken.items taken.tops }
    ensures course { IsRun (T.writer site.old) (T.writer site.new)
        (finish_course (T.layout site.old) key.now delivery.now.dest.now
        delivery.now.topic.collection.now delivery.now.batch_size taken.items taken.tops
        (run_at taken.before taken.cut taken.tops)) result }
    ensures told { IfOk result
        (λ run. IsToldOf taken.before taken.cut taken.tops run) }
    ensures there { OnOk result (AreThereNow (T.layout site.old).names (T.writer site.new).seen
        delivery.now.dest.now delivery.now.topic.collection.now taken.items) }
    ensures reached { OnOk result (HasReached (T.layout site.old).names (T.writer site.new).seen
        key.now taken.tops) }
    ensures unstored { IfErr result (λ stop. IsUnstoredBy (T.layout site.old).names
        (T.writer site.old) (T.writer site.new) stop.fault) }
    ensures layout { T.layout site.new ≡ T.layout site.old }
    ensures home { T.home site.new ≡ T.home site.old }
{
    let Taken {
        before,
        cut,
        tops,
        items,
    } = taken;
    let upto = match tops.copy(alloc) {
        Ok(upto) => upto,
        Err(_) => return Err(halted(alloc, SiteFault::OutOfMemory { stand: 0 })),
    };
    let done = deliver_all(alloc, site, delivery, items.as_slice(), gate)?;
    gate.at(Point::BeforeStore);
    match store_topic_over(alloc, site, key, upto) {
        Ok(()) => Ok(TopicRun {
            cut,
            before,
            stored: tops,
            summaries: done.summaries,
            read: done.read,
            stand: done.stand,
        }),
        Err(fault) => Err(TopicFault {
            summaries: done.summaries,
            stand: done.stand,
            fault,
        }),
    }
}

// The run of a topic, with a turn that may be left.
fn run_delivery<T: Turns, G: Gate>(
    alloc: Global,
    site: &mut T,
    delivery: &Delivery<'_>,
    gate: &G,
) -> Result<TopicRun, TopicFault>
    requires delivery { IsCheckedDelivery delivery.now }
    requires there { IsSinkThere (T.layout site.old).names (sink_of delivery.now) }
    ensures course { IsRun (T.writer site.old) (T.writer site.new)
        (run_course (T.layout site.old)
        (asked_of (sink_of delivery.now).topic (Some (sink_of delivery.now).dest))
        (sink_of delivery.now).dest (batches_over (sink_of delivery.now)) run_of) result }
    ensures kept { IfOk result (IsKept (T.layout site.old) (T.writer site.new)
        (sink_of delivery.now)) }
    ensures unstored { IfErr result (λ stop. IsUnstoredBy (T.layout site.old).names
        (T.writer site.old) (T.writer site.new) stop.fault) }
    ensures layout { T.layout site.new ≡ T.layout site.old }
    ensures home { T.home site.new ≡ T.home site.old }
{
    let (topic, dest) = (&delivery.topic, delivery.dest);
    let expr = delivery.input.expr();
    let key = match key_of(alloc, topic) {
        Ok(key) => key,
        Err(_) => return Err(halted(alloc, SiteFault::OutOfMemory { stand: 0 })),
    };
    let before = match begin_topic(alloc, site, topic, Some(dest), &key) {
        Ok(before) => before,
        Err(fault) => return Err(halted(alloc, fault)),
    };
    let taken = match take_source(alloc, site, topic, expr, before) {
        Ok(taken) => taken,
        Err(fault) => return Err(halted(alloc, fault)),
    };
    // What may be delivered rests on what the site tells of all that was seen.
    let _names = site.names();
    finish(alloc, site, delivery, &key, taken, gate)
}

/// Delivers what a topic gives above its checkpoint, which is bound first where it isn't, to the
/// destination of its update, in batches; then stores the tops of the cut that it read. The gate is
/// told before each batch and before the store, while the writer has no turn. After an `Err` what
/// stands of the batches isn't delivered again, since its versions are there. The writer has no
/// turn afterwards.
pub fn run_topic<T: Turns, G: Gate>(
    alloc: Global,
    site: &mut T,
    delivery: &Delivery<'_>,
    gate: &G,
) -> Result<TopicRun, TopicFault>
    requires delivery { IsCheckedDelivery delivery.now }
    requires there { IsSinkThere (T.layout site.old).names (sink_of delivery.now) }
    ensures course { IsRun (T.writer site.old) (T.writer site.new)
        (run_course (T.layout site.old)
        (asked_of (sink_of delivery.now).topic (Some (sink_of delivery.now).dest))
        (sink_of delivery.now).dest (batches_over (sink_of delivery.now)) run_of) result }

    // What the topic gives of the cut, above the checkpoint that was read, stands in the destination
    // in its version or a later one; the topic's checkpoint has reached the cut's tops. Nothing else
    // was delivered.
    ensures kept { IfOk result (IsKept (T.layout site.old) (T.writer site.new)
        (sink_of delivery.now)) }
    ensures delivered { IfOk result (HasDelivered (T.writer site.old) (T.writer site.new)
        (sink_of delivery.now)) }

    // The writer appended at most one Bind and one Store of the topic, and else documents of its
    // source and Marks; after an `Err` it stored nothing, but after a fault of the book's log the
    // Store stands or it doesn't.
    ensures alone { IsRunAlone (key_of (sink_of delivery.now).topic)
        (sink_of delivery.now).topic.collection (T.writer site.old) (T.writer site.new) }
    ensures unstored { IfErr result (λ stop. IsUnstoredBy (T.layout site.old).names
        (T.writer site.old) (T.writer site.new) stop.fault) }

    // Whatever the answer is, just so many writes of this call stand as it tells.
    ensures stood { HasStood (T.writer site.old) (T.writer site.new) (stand_of result) }
    ensures free { T.free site.new }
    ensures layout { T.layout site.new ≡ T.layout site.old }
    ensures home { T.home site.new ≡ T.home site.old }
{
    let result = run_delivery(alloc, site, delivery, gate);
    site.leave();
    result
}
