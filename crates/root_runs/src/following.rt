// Topics that give their tuples, and topics that are delivered.
ghost use Rattle.std.specs.Prelude.{◌≡◌, ◌<◌, IfOk, Err};
ghost use Rattle.exchange_rules.specs.Calls.{Carried};
ghost use Rattle.expr_check.specs.Roots.{topic_parts, IsTopicOf};
ghost use Rattle.expr_check.specs.Views.{tree_of};
ghost use Rattle.root_runs.specs.Dones.{delivered, followed};
ghost use Rattle.root_runs.specs.Runs.{deliver_course, follow_course, where_both};
ghost use Rattle.root_runs.specs.Texts.{Told};
ghost use Rattle.topic_book.specs.Fitness.{shards_of};
ghost use Rattle.update_sink.specs.Topics.{key_of, sink_of};
ghost use Rattle.update_sink.specs.Topics.{IsCheckedDelivery, IsSinkThere, IsThere};
ghost use Rattle.root_runs.specs.Stays.{Stays};

use crate::texts::topic_told;
use crate::there::is_there;
use crate::{Docs, Done};
use exchange_rules::{SiteFault, TopicFault};
use expr_check::{Checked, TopicRoot};
use io_edge::Gate;
use std::alloc::Global;
use stream_site::Turns;
use tuple_values::{Memory, Tuples};
use update_sink::{Delivery, read_topic, run_topic};

// A topic that gives its tuples, refused.
fn follow_refused(alloc: Global, topic: &TopicRoot<'_>, fault: &SiteFault) -> Result<Done, Memory>
    ensures { IfOk result (λ done. Told fault.now (done
        ≡ followed (key_of (topic_parts topic.now)) (Err fault.now))) }
{
    let text = topic_told(alloc, topic, 0, fault)?;
    Done::stopped(alloc, text.as_str())
}

// A topic that is delivered, stopped.
fn delivery_stopped(alloc: Global, topic: &TopicRoot<'_>, stop: TopicFault) -> Result<Done, Memory>
    ensures { IfOk result (λ done. Told stop.fault (done
        ≡ delivered (key_of (topic_parts topic.now)) (Err stop))) }
{
    let text = topic_told(alloc, topic, stop.stand, &stop.fault)?;
    Ok(Done {
        docs: Docs::listed(stop.summaries),
        exception: Some(text),
        read: 0,
        stand: stop.stand,
    })
}

// A topic that gives its tuples, whose collections are there.
fn follow_there<T: Turns>(
    alloc: Global,
    site: &mut T,
    topic: &TopicRoot<'_>,
    checked: &Checked,
) -> Result<Done, Memory>
    requires topic { IsTopicOf (tree_of checked.now) topic.now }
    requires there { IsThere (T.layout site.old).names (topic_parts topic.now) }
    ensures course { Carried (T.writer site.old) (T.writer site.new)
        (follow_course (T.layout site.old) (topic_parts topic.now)) result }
    ensures stays { Stays T.layout T.home T.free site.old site.new }
{
    match read_topic(alloc, site, topic, checked) {
        Ok(read) => Ok(Done::given(Docs::listed(read.tuples))),
        Err(fault) => follow_refused(alloc, topic, &fault),
    }
}

/// A topic that gives its tuples.
pub(crate) fn run_follow<T: Turns>(
    alloc: Global,
    site: &mut T,
    topic: &TopicRoot<'_>,
    checked: &Checked,
) -> Result<Done, Memory>
    requires topic { IsTopicOf (tree_of checked.now) topic.now }
    ensures course { Carried (T.writer site.old) (T.writer site.new)
        (where_both (T.layout site.old).names topic.now.checkpoints.now topic.now.collection.now
        (follow_course (T.layout site.old) (topic_parts topic.now))) result }
    ensures stays { Stays T.layout T.home T.free site.old site.new }
{
    if !is_there(site, topic.checkpoints) {
        return Done::unknown(alloc, topic.checkpoints);
    }
    if !is_there(site, topic.collection) {
        return Done::unknown(alloc, topic.collection);
    }
    follow_there(alloc, site, topic, checked)
}

// A topic that is delivered, whose collections are there.
fn deliver_there<T: Turns, G: Gate>(
    alloc: Global,
    site: &mut T,
    delivery: &Delivery<'_>,
    gate: &G,
) -> Result<Done, Memory>
    requires delivery { IsCheckedDelivery delivery.now }
    requires there { IsSinkThere (T.layout site.old).names (sink_of delivery.now) }
    ensures course { Carried (T.writer site.old) (T.writer site.new)
        (deliver_course (T.layout site.old) (sink_of delivery.now)) result }
    ensures stays { Stays T.layout T.home T.free site.old site.new }
{
    match run_topic(alloc, site, delivery, gate) {
        Ok(run) => Ok(Done {
            docs: Docs::listed(run.summaries),
            exception: None,
            read: run.read,
            stand: run.stand,
        }),
        Err(stop) => delivery_stopped(alloc, &delivery.topic, stop),
    }
}

/// A topic that is delivered to a collection that is there.
pub(crate) fn run_delivery<T: Turns, G: Gate>(
    alloc: Global,
    site: &mut T,
    delivery: &Delivery<'_>,
    gate: &G,
) -> Result<Done, Memory>
    requires delivery { IsCheckedDelivery delivery.now }
    requires dest { 0 < shards_of (T.layout site.old).names delivery.now.dest.now }
    ensures course { Carried (T.writer site.old) (T.writer site.new)
        (where_both (T.layout site.old).names delivery.now.topic.checkpoints.now
        delivery.now.topic.collection.now
        (deliver_course (T.layout site.old) (sink_of delivery.now))) result }
    ensures stays { Stays T.layout T.home T.free site.old site.new }
{
    if !is_there(site, delivery.topic.checkpoints) {
        return Done::unknown(alloc, delivery.topic.checkpoints);
    }
    if !is_there(site, delivery.topic.collection) {
        return Done::unknown(alloc, delivery.topic.collection);
    }
    deliver_there(alloc, site, delivery, gate)
}
