// Updates, commits and topics.
ghost use Rattle.std.specs.Prelude.{◌≡◌, ◌<◌, IfErr, IfOk, None, Some};
ghost use Rattle.topic_book.specs.Fitness.{shards_of};
ghost use Rattle.exchange_rules.specs.Updates.{commit_round_course, tuples_course};
ghost use Rattle.exchange_rules.specs.Calls.{Answered, Carried, Ended};
ghost use Rattle.exchange_rules.specs.Topics.{read_course, run_course};
ghost use Rattle.expr_check.specs.Roots.{topic_parts, IsTopicOf};
ghost use Rattle.expr_check.specs.Views.{tree_of};
ghost use Rattle.running_site.specs.Passes.{number_of, writer_of};
ghost use Rattle.running_site.specs.Sites.{layout_at, IsPassAt};
ghost use Rattle.update_sink.specs.Promises.{HasDelivered, HasStood, IsKept, IsRunAlone, IsUnstoredBy, stand_of};
ghost use Rattle.update_sink.specs.Runs.{IsRun};
ghost use Rattle.update_sink.specs.Topics.{asked_of, batches_over, key_of, read_of, run_of, sink_of};
ghost use Rattle.update_sink.specs.Topics.{IsCheckedDelivery, IsSinkThere, IsThere};

use exchange_rules::{Ran, SiteFault, TopicFault, TopicRead, TopicRun};
use expr_check::{Checked, TopicRoot};
use io_edge::Gate;
use running_site::{Pass, Site};
use std::alloc::Global;
use std::sync::Wait;
use tuple_values::{Memory, Text, Tuples};
use update_sink::Delivery;

/// Writes tuples to a collection, in batches of so many, as `run_update` of `update_sink` says.
pub fn run_update<R: Wait>(
    rt: &R,
    alloc: Global,
    site: &Site,
    pass: &mut Pass,
    dest: &Text,
    batch_size: u64,
    tuples: Tuples,
) -> Result<Ran, Memory>
    requires own { IsPassAt site.now pass.old }
    requires known { 0 < shards_of site.now.names dest.now }
    requires size { 0 < batch_size }
    ensures own { IsPassAt site.now pass.new }
    ensures number { number_of pass.new ≡ number_of pass.old }
    ensures now { pass.new.now ≡ pass.old.now }
    ensures course { Carried (writer_of pass.old) (writer_of pass.new)
        (tuples_course (layout_at site.now) dest.now batch_size tuples) result }
{
    let mut visit = site.visit(rt, pass);
    let result = update_sink::run_update(alloc, &mut visit, dest, batch_size, tuples);
    visit.end(pass);
    result
}

/// Gives the tuples of a topic above its checkpoint, as `read_topic` of `update_sink` says.
pub fn read_topic<R: Wait>(
    rt: &R,
    alloc: Global,
    site: &Site,
    pass: &mut Pass,
    topic: &TopicRoot<'_>,
    checked: &Checked,
) -> Result<TopicRead, SiteFault>
    requires own { IsPassAt site.now pass.old }
    requires topic { IsTopicOf (tree_of checked.now) topic.now }
    requires there { IsThere site.now.names (topic_parts topic.now) }
    ensures own { IsPassAt site.now pass.new }
    ensures number { number_of pass.new ≡ number_of pass.old }
    ensures now { pass.new.now ≡ pass.old.now }
    ensures course { Answered (writer_of pass.old) (writer_of pass.new)
        (read_course site.now.names (asked_of (topic_parts topic.now) None)
        (read_of (topic_parts topic.now))) result }
{
    let mut visit = site.visit(rt, pass);
    let result = update_sink::read_topic(alloc, &mut visit, topic, checked);
    visit.end(pass);
    result
}

/// Delivers what a topic gives above its checkpoint to the destination of its update, as
/// `run_topic` of `update_sink` says. The gate is told while the pass has no turn.
pub fn run_topic<R: Wait, G: Gate>(
    rt: &R,
    alloc: Global,
    site: &Site,
    pass: &mut Pass,
    delivery: &Delivery<'_>,
    gate: &G,
) -> Result<TopicRun, TopicFault>
    requires own { IsPassAt site.now pass.old }
    requires delivery { IsCheckedDelivery delivery.now }
    requires there { IsSinkThere site.now.names (sink_of delivery.now) }
    ensures own { IsPassAt site.now pass.new }
    ensures number { number_of pass.new ≡ number_of pass.old }
    ensures now { pass.new.now ≡ pass.old.now }
    ensures course { IsRun (writer_of pass.old) (writer_of pass.new)
        (run_course (layout_at site.now)
        (asked_of (sink_of delivery.now).topic (Some (sink_of delivery.now).dest))
        (sink_of delivery.now).dest (batches_over (sink_of delivery.now)) run_of) result }
    ensures kept { IfOk result (IsKept (layout_at site.now) (writer_of pass.new)
        (sink_of delivery.now)) }
    ensures delivered { IfOk result (HasDelivered (writer_of pass.old) (writer_of pass.new)
        (sink_of delivery.now)) }
    ensures alone { IsRunAlone (key_of (sink_of delivery.now).topic)
        (sink_of delivery.now).topic.collection (writer_of pass.old) (writer_of pass.new) }
    ensures unstored { IfErr result (λ stop. IsUnstoredBy site.now.names (writer_of pass.old)
        (writer_of pass.new) stop.fault) }
    ensures stood { HasStood (writer_of pass.old) (writer_of pass.new) (stand_of result) }
{
    let mut visit = site.visit(rt, pass);
    let result = update_sink::run_topic(alloc, &mut visit, delivery, gate);
    visit.end(pass);
    result
}

/// Commits a collection as the tuples of its input reach a number, and once at the end, as
/// `run_commit` of `update_sink` says.
pub fn run_commit<R: Wait>(
    rt: &R,
    alloc: Global,
    site: &Site,
    pass: &mut Pass,
    dest: &Text,
    batch_size: Option<u64>,
    tuples: &Tuples,
    summaries: bool,
) -> Result<(), SiteFault>
    requires own { IsPassAt site.now pass.old }
    ensures own { IsPassAt site.now pass.new }
    ensures number { number_of pass.new ≡ number_of pass.old }
    ensures now { pass.new.now ≡ pass.old.now }
    ensures course { Ended (writer_of pass.old) (writer_of pass.new)
        (commit_round_course (layout_at site.now) dest.now batch_size summaries tuples.now) result }
{
    let mut visit = site.visit(rt, pass);
    let result = update_sink::run_commit(alloc, &mut visit, dest, batch_size, tuples, summaries);
    visit.end(pass);
    result
}
