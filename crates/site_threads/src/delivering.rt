// A worker that delivers what a topic gives.
ghost use Rattle.std.specs.Prelude.{◌≡◌, IfSome};
ghost use Rattle.running_site.specs.Passes.{number_of, writer_of};
ghost use Rattle.running_site.specs.Sites.{layout_at, IsPassAt};
ghost use Rattle.update_sink.specs.Topics.{sink_of, IsCheckedDelivery, IsSinkThere};
ghost use Rattle.site_threads.specs.Work.{HasWorked, IsRun};

use expr_check::{Checked, Feed, Root, Roots};
use expr_text::read_checked;
use io_edge::{Gate, NoGate};
use running_site::{Pass, Site};
use std::alloc::Global;
use std::sync::Wait;
use std::thread::yield_now;
use stream_site::shards_of;
use tuple_values::Names;
use update_sink::{Delivery, TopicRun, run_topic};

/// A topic, whose documents go from the first collection to the second.
pub const FIRST: &[u8] =
    b"update(c1,batchSize=50,topic(c0,c0,id=\"t\",q=\"*:*\",fl=\"id,a_s\",initialCheckpoint=0))";

/// Another topic, which does the same.
pub const SECOND: &[u8] =
    b"update(c1,topic(c0,c0,id=\"u\",q=\"*:*\",fl=\"id,n_i\",initialCheckpoint=0))";

/// How often the topic runs at most.
const ROUNDS: u64 = 1_000_000;

/// The update of a topic that a checked expression is, if its collections are there.
pub fn delivery_of<'a>(names: &Names, checked: &'a Checked) -> Option<Delivery<'a>>
    ensures { IfSome result
        (λ d. IsCheckedDelivery d × IsSinkThere names.now (sink_of d)) }
{
    let Root::Update(update) = checked.root() else {
        return None;
    };
    let Feed::Topic(topic) = update.feed else {
        return None;
    };
    let is_there = shards_of(names, topic.checkpoints.as_str()) > 0
        && shards_of(names, topic.collection.as_str()) > 0
        && shards_of(names, update.dest.as_str()) > 0;
    if !is_there {
        return None;
    }
    Some(Delivery {
        topic,
        input: update.input,
        dest: update.dest,
        batch_size: update.batch_size,
    })
}

// Runs the topic once; what it did, if that isn't refused.
fn run<R: Wait, G: Gate>(
    rt: &R,
    alloc: Global,
    site: &Site,
    pass: &mut Pass,
    delivery: &Delivery<'_>,
    gate: &G,
) -> Option<TopicRun>
    requires own { IsPassAt site.now pass.old }
    requires delivery { IsCheckedDelivery delivery.now }
    requires there { IsSinkThere site.now.names (sink_of delivery.now) }
    ensures own { IsPassAt site.now pass.new }
    ensures number { number_of pass.new ≡ number_of pass.old }
    ensures work { HasWorked (layout_at site.now) IsRun (writer_of pass.old)
        (writer_of pass.new) }
{
    let mut visit = site.visit(rt, pass);
    let result = run_topic(alloc, &mut visit, delivery, gate);
    visit.end(pass);
    result.ok()
}

// Runs the topic once; how many documents it read, if that isn't refused.
fn read_by<R: Wait>(
    rt: &R,
    alloc: Global,
    site: &Site,
    pass: &mut Pass,
    delivery: &Delivery<'_>,
) -> Option<u64>
    requires own { IsPassAt site.now pass.old }
    requires delivery { IsCheckedDelivery delivery.now }
    requires there { IsSinkThere site.now.names (sink_of delivery.now) }
    ensures own { IsPassAt site.now pass.new }
    ensures number { number_of pass.new ≡ number_of pass.old }
    ensures work { HasWorked (layout_at site.now) IsRun (writer_of pass.old)
        (writer_of pass.new) }
{
    let run = run(rt, alloc, site, pass, delivery, &NoGate)?;
    Some(run.read)
}

// Runs the topic until so many documents were delivered; how many were, if no run is refused.
fn deliver_until<R: Wait>(
    rt: &R,
    alloc: Global,
    site: &Site,
    pass: &mut Pass,
    delivery: &Delivery<'_>,
    wanted: u64,
) -> Option<u64>
    requires own { IsPassAt site.now pass.old }
    requires delivery { IsCheckedDelivery delivery.now }
    requires there { IsSinkThere site.now.names (sink_of delivery.now) }
    ensures own { IsPassAt site.now pass.new }
    ensures number { number_of pass.new ≡ number_of pass.old }
    ensures work { HasWorked (layout_at site.now) IsRun (writer_of pass.old)
        (writer_of pass.new) }
{
    let mut done: u64 = 0;
    for _ in 0..ROUNDS {
        if done >= wanted {
            break;
        }
        let count = read_by(rt, alloc, site, pass, delivery)?;
        done = done.saturating_add(count);
        yield_now();
    }
    Some(done)
}

/// Runs a topic once; what it did, if that isn't refused.
pub fn deliver_once<R: Wait, G: Gate>(
    rt: &R,
    alloc: Global,
    site: &Site,
    pass: &mut Pass,
    bytes: &[u8],
    gate: &G,
) -> Option<TopicRun>
    requires { IsPassAt site.now pass.old }
    ensures own { IsPassAt site.now pass.new }
    ensures number { number_of pass.new ≡ number_of pass.old }
    ensures work { HasWorked (layout_at site.now) IsRun (writer_of pass.old)
        (writer_of pass.new) }
{
    let checked = read_checked(alloc, site.names(), bytes, Roots::All).ok()?;
    let Some(delivery) = delivery_of(site.names(), &checked) else {
        return None;
    };
    run(rt, alloc, site, pass, &delivery, gate)
}

/// Runs the first topic until so many documents were delivered; how many were, if no run is refused.
pub fn deliver_all<R: Wait>(
    rt: &R,
    alloc: Global,
    site: &Site,
    pass: &mut Pass,
    wanted: u64,
) -> Option<u64>
    requires { IsPassAt site.now pass.old }
    ensures own { IsPassAt site.now pass.new }
    ensures number { number_of pass.new ≡ number_of pass.old }
    ensures work { HasWorked (layout_at site.now) IsRun (writer_of pass.old)
        (writer_of pass.new) }
{
    let checked = read_checked(alloc, site.names(), FIRST, Roots::All).ok()?;
    let Some(delivery) = delivery_of(site.names(), &checked) else {
        return None;
    };
    deliver_until(rt, alloc, site, pass, &delivery, wanted)
}
