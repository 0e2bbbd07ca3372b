// Batches of what a topic gives.
ghost use Rattle.std.specs.Prelude.{◌≡◌, ◌≢◌, ◌+◌, ◌<◌, ◌^◌, IfErr, IfOk, OnErr, OnOk, map};
ghost use Rattle.std.specs.List.{AllByRecursion};
ghost use Rattle.tuple_values.specs.Document.{Rises};
ghost use Rattle.topic_book.specs.Fitness.{shards_of};
ghost use Rattle.exchange_rules.specs.Batches.{batches_of, none_sunk, stand_in, told_sunk};
ghost use Rattle.exchange_rules.specs.Topics.{sends_course, stopped_by};
ghost use Rattle.exchange_rules.specs.declared.fault.SiteFault.TheVariants.{OutOfMemory};
ghost use Rattle.source_streams.specs.declared.batch.TopicItem.{TopicItem};
ghost use Rattle.update_sink.specs.Given.{AreGiven, AreThereNow};
ghost use Rattle.update_sink.specs.Progresses.{sunk_of};
ghost use Rattle.update_sink.specs.Runs.{IsRun};
ghost use Rattle.update_sink.specs.Sends.{IsSent, send_of, sunk_done, told_of};
ghost use Rattle.update_sink.specs.Topics.{sent_item};

use crate::parts::{behind, front};
use crate::progress::{Progress, number, sum, told};
use exchange_rules::{Batch, BatchItem, SiteFault, TopicFault};
use expr_check::{Checked, TopicRoot};
use io_edge::{Gate, Point};
use source_streams::TopicItem;
use std::alloc::Global;
use stream_site::{Turns, send_over};
use tuple_values::{Memory, Text, TryCopy, Tuples, Value};

/// An update of a topic: what the topic gives, which is the input, is delivered to `dest`, in batches
/// of so many documents.
#[derive(Clone, Copy)]
pub struct Delivery<'a> {
    pub topic: TopicRoot<'a>,
    pub input: &'a Checked,
    pub dest: &'a Text,
    pub batch_size: u64,
}

/// What is told of all batches: how many documents they had, and how many of their writes stand.
#[derive(Drop)]
pub(crate) struct Done {
    pub(crate) summaries: Tuples,
    pub(crate) read: u64,
    pub(crate) stand: u64,
}

// The item of a batch that is made of what a topic gives: its document without its version, with
// its source and its version there.
fn shape(alloc: Global, src: &Text, item: &TopicItem) -> Result<BatchItem, Memory>
    ensures item { IfOk result (λ made. made ≡ sent_item src.now item.now) }
    ensures rises { Rises item.now.document }
{
    let _fields = item.document.count();
    let mut document = item.document.copy(alloc)?;
    let _version = document.remove("_version_");
    document.put(Text::of(alloc, "_src_s")?, Value::Text(src.copy(alloc)?))?;
    document.put(Text::of(alloc, "_src_version_l")?, number(item.version)?)?;
    Ok(BatchItem {
        version: item.version,
        document,
    })
}

// The batch that is made of what a topic gives.
fn batch_of(alloc: Global, src: &Text, items: &[TopicItem]) -> Result<Batch, Memory>
    ensures batch { IfOk result (λ batch. batch ≡ map (sent_item src.now) items.now) }
    ensures rise { OnOk result (AllByRecursion (λ (i : TopicItem). Rises i.document) items.now) }
{
    let mut batch = Batch::new(alloc);
    for item in items {
        batch.push(shape(alloc, src, item)?)?;
    }
    Ok(batch)
}

// A batch is delivered. All that takes memory for what is told of it is made before.
fn send_batch<T: Turns>(
    alloc: Global,
    site: &mut T,
    delivery: &Delivery<'_>,
    items: &[TopicItem],
    progress: &mut Progress,
) -> Result<(), SiteFault>
    requires known { 0 < shards_of (T.layout site.old).names delivery.now.dest.now }
    requires elsewhere { delivery.now.topic.collection.now ≢ delivery.now.dest.now }
    requires given { AreGiven (T.layout site.old).names (T.writer site.old).seen
        delivery.now.topic.collection.now delivery.now.topic.fl.now items.now }
    ensures course { IsSent (T.writer site.old) (T.writer site.new)
        (send_of (T.layout site.old) delivery.now.dest.now delivery.now.topic.collection.now
        (map (sent_item delivery.now.topic.collection.now) items.now) (sunk_of progress.old))
        (sunk_of progress.new) result }
    ensures there { OnOk result (AreThereNow (T.layout site.old).names (T.writer site.new).seen
        delivery.now.dest.now delivery.now.topic.collection.now items.now) }
    ensures err { OnErr result (sunk_of progress.new ≡ sunk_of progress.old) }
    ensures fits { IfErr result (λ fault. progress.old.stand + stand_in fault < 2 ^ 64) }
    ensures layout { T.layout site.new ≡ T.layout site.old }
    ensures home { T.home site.new ≡ T.home site.old }
{
    let count = items.len() as u64;
    let _most = sum(progress.stand, count)?;
    let src = delivery.topic.collection;
    let batch = batch_of(alloc, src, items)?;
    let told = progress.prepare(alloc, count)?;
    let sent = send_over(alloc, site, delivery.dest, src, batch)?;
    progress.add_told(told, count, sent.admitted);
    Ok(())
}

/// How many writes of a call stand that was refused so.
pub(crate) fn stand_in(fault: &SiteFault) -> u64
    ensures { result ≡ stand_in fault.now }
{
    match fault {
        SiteFault::ShardFull { stand, .. }
        | SiteFault::LogFault { stand, .. }
        | SiteFault::CellClosed { stand, .. }
        | SiteFault::OutOfMemory { stand } => *stand,
        SiteFault::TopicBound { .. } | SiteFault::BookFull { .. } => 0,
    }
}

// What is told of a run that stops.
fn stopped(progress: Progress, fault: SiteFault) -> TopicFault
    requires { progress.stand + stand_in fault < 2 ^ 64 }
    ensures { result ≡ stopped_by (sunk_of progress) fault }
{
    let more = stand_in(&fault);
    TopicFault {
        summaries: Tuples::from_vec(progress.summaries),
        stand: progress.stand + more,
        fault,
    }
}

// What is told of a run whose batches are delivered. Memory can be wanting only where there was
// none.
fn make_done(alloc: Global, progress: Progress) -> Result<Done, TopicFault>
    ensures ok { IfOk result
        (λ done. sunk_done done ≡ told_sunk (sunk_of progress)) }
    ensures err { IfErr result (λ stop. stop ≡ stopped_by (sunk_of progress) (OutOfMemory 0)) }
{
    let (read, stand) = (progress.total, progress.stand);
    match told(alloc, progress.summaries) {
        Ok(summaries) => Ok(Done {
            summaries,
            read,
            stand,
        }),
        Err(_) => Err(TopicFault {
            summaries: Tuples::empty(alloc),
            stand,
            fault: SiteFault::OutOfMemory { stand: 0 },
        }),
    }
}

/// Delivers what a topic gives, in batches of so many. The gate is told before each batch, while
/// the writer has no turn.
pub(crate) fn deliver_all<T: Turns, G: Gate>(
    alloc: Global,
    site: &mut T,
    delivery: &Delivery<'_>,
    items: &[TopicItem],
    gate: &G,
) -> Result<Done, TopicFault>
    requires known { 0 < shards_of (T.layout site.old).names delivery.now.dest.now }
    requires elsewhere { delivery.now.topic.collection.now ≢ delivery.now.dest.now }
    requires size { 0 < delivery.now.batch_size }
    requires given { AreGiven (T.layout site.old).names (T.writer site.old).seen
        delivery.now.topic.collection.now delivery.now.topic.fl.now items.now }
    ensures course { IsRun (T.writer site.old) (T.writer site.new)
        (sends_course (T.layout site.old) delivery.now.dest.now delivery.now.topic.collection.now
        none_sunk (batches_of delivery.now.batch_size
        (map (sent_item delivery.now.topic.collection.now) items.now))) (told_of result) }
    ensures there { OnOk result (AreThereNow (T.layout site.old).names (T.writer site.new).seen
        delivery.now.dest.now delivery.now.topic.collection.now items.now) }
    ensures layout { T.layout site.new ≡ T.layout site.old }
    ensures home { T.home site.new ≡ T.home site.old }
{
    let mut progress = Progress::none(alloc);
    let mut rest = items;
    while !rest.is_empty() {
        let batch = front(rest, delivery.batch_size);
        gate.at(Point::BeforeSend);
        match send_batch(alloc, site, delivery, batch, &mut progress) {
            Ok(()) => {}
            Err(fault) => return Err(stopped(progress, fault)),
        }
        rest = behind(rest, delivery.batch_size);
    }
    make_done(alloc, progress)
}
