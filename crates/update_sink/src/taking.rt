// Topics that begin, and what is taken of their sources.
ghost use Rattle.std.specs.Prelude.{◌≡◌, ◌<◌, IfOk, length, replicate, map, option_map};
ghost use Rattle.query_syntax.specs.Meaning.{IsReadable};
ghost use Rattle.topic_book.specs.Fitness.{shards_of, IsFitDestination};
ghost use Rattle.expr_types.specs.ExprTree.{expr_tree};
ghost use Rattle.expr_check.specs.Roots.{topic_parts, IsTopicOf};
ghost use Rattle.source_streams.specs.Batches.{topic_items};
ghost use Rattle.exchange_rules.specs.Calls.{Answered, Completed};
ghost use Rattle.exchange_rules.specs.Courses.{ends};
ghost use Rattle.exchange_rules.specs.Topics.{begin_course, init_course, source_course, tops_of};
ghost use Rattle.update_sink.specs.Takes.{cut_in};
ghost use Rattle.update_sink.specs.Topics.{asked_by, IsThere};

use crate::asking::binding_of;
use expr_check::TopicRoot;
use expr_types::Expr;
use shard_versions::Cut;
use source_streams::{TopicBatch, topic_batch};
use std::alloc::Global;
use stream_site::{SiteFault, Turns, bind_topic_over, shards_of, take_cut_over, topic_state_over};
use topic_book::TopicKey;
use tuple_values::{FieldList, Memory, Text, TryCopy, Versions};

/// A cut of a topic's source, the tops of its parts, and what the topic gives of it above the
/// versions that it had reached before.
#[derive(Drop)]
pub(crate) struct Taken {
    pub(crate) before: Versions,
    pub(crate) cut: Cut,
    pub(crate) tops: Versions,
    pub(crate) items: TopicBatch,
}

// So many times the same version.
fn repeated(alloc: Global, count: u16, version: u64) -> Result<Versions, Memory>
    ensures { IfOk result (λ versions. versions ≡ replicate count version) }
{
    let mut versions = Vec::new(alloc);
    for _ in 0..count {
        versions.push(version)?;
    }
    Ok(Versions::from_vec(versions))
}

// The tops of the parts of a cut.
fn tops_of(alloc: Global, cut: &Cut) -> Result<Versions, Memory>
    ensures { IfOk result (λ tops. tops ≡ tops_of cut.now) }
{
    let parts = cut.as_slice();
    let tops = parts.iter().map(|part| part.snapshot.top()).collect(alloc)?;
    Ok(Versions::from_vec(tops))
}

// One look at each shard of the collection.
fn cut_source<T: Turns>(alloc: Global, site: &mut T, src: &Text) -> Result<Cut, SiteFault>
    ensures course { Completed (T.writer site.old) (T.writer site.new)
        (source_course (T.layout site.old).names src.now) result }
    ensures layout { T.layout site.new ≡ T.layout site.old }
    ensures home { T.home site.new ≡ T.home site.old }
{
    let mut collections = FieldList::new(alloc);
    collections.push(src.copy(alloc)?)?;
    take_cut_over(alloc, site, &collections)
}

// The same version for each shard of the collection.
fn begin_at<T: Turns>(
    alloc: Global,
    site: &mut T,
    src: &Text,
    version: u64,
) -> Result<Versions, SiteFault>
    ensures course { Completed (T.writer site.old) (T.writer site.new)
        (ends (replicate (shards_of (T.layout site.old).names src.now) version)) result }
    ensures counted { IfOk result (λ init. length init
        ≡ shards_of (T.layout site.old).names src.now) }
    ensures layout { T.layout site.new ≡ T.layout site.old }
    ensures home { T.home site.new ≡ T.home site.old }
{
    let init = repeated(alloc, shards_of(site.names(), src.as_str()), version)?;
    Ok(init)
}

// The tops of a cut of the collection.
fn begin_now<T: Turns>(alloc: Global, site: &mut T, src: &Text) -> Result<Versions, SiteFault>
    ensures course { Completed (T.writer site.old) (T.writer site.new)
        (init_course (T.layout site.old).names src.now None None) result }
    ensures counted { IfOk result (λ init. length init
        ≡ shards_of (T.layout site.old).names src.now) }
    ensures layout { T.layout site.new ≡ T.layout site.old }
    ensures home { T.home site.new ≡ T.home site.old }
{
    let cut = cut_source(alloc, site, src)?;
    let init = tops_of(alloc, &cut)?;
    Ok(init)
}

// Above which versions a topic begins that was seen in this state.
fn init_of<T: Turns>(
    alloc: Global,
    site: &mut T,
    topic: &TopicRoot<'_>,
    state: Option<Versions>,
) -> Result<Versions, SiteFault>
    ensures course { Completed (T.writer site.old) (T.writer site.new)
        (init_course (T.layout site.old).names topic.now.collection.now topic.now.init state)
        result }
    ensures counted { IfOk result (λ init. length init
        ≡ shards_of (T.layout site.old).names topic.now.collection.now) }
    ensures layout { T.layout site.new ≡ T.layout site.old }
    ensures home { T.home site.new ≡ T.home site.old }
{
    match topic.init {
        Some(version) => begin_at(alloc, site, topic.collection, version),
        None => match state {
            Some(_) => begin_at(alloc, site, topic.collection, 0),
            None => begin_now(alloc, site, topic.collection),
        },
    }
}

/// A topic of this key begins, which is delivered to the destination, if one is given: it is bound,
/// or is bound alike already. The answer is its checkpoint.
pub(crate) fn begin_topic<T: Turns>(
    alloc: Global,
    site: &mut T,
    topic: &TopicRoot<'_>,
    dest: Option<&Text>,
    key: &TopicKey,
) -> Result<Versions, SiteFault>
    requires checkpoints { 0 < shards_of (T.layout site.old).names key.now.checkpoints }
    requires src { 0 < shards_of (T.layout site.old).names topic.now.collection.now }
    requires dest { IsFitDestination (T.layout site.old).names topic.now.collection.now
        (option_map (λ d. d.now) dest) }
    requires readable { IsReadable topic.now.q_text.now }
    ensures course { Answered (T.writer site.old) (T.writer site.new)
        (begin_course (T.layout site.old).names (asked_by key.now (topic_parts topic.now)
        (option_map (λ d. d.now) dest.entry))) result }
    ensures layout { T.layout site.new ≡ T.layout site.old }
    ensures home { T.home site.new ≡ T.home site.old }
{
    let state = topic_state_over(alloc, site, key)?;
    let init = init_of(alloc, site, topic, state)?;
    let binding = binding_of(alloc, topic, dest, init)?;
    bind_topic_over(alloc, site, key, binding)
}

/// One look at each shard of the topic's source, and what the topic, which is this expression, gives
/// of it above these versions.
pub(crate) fn take_source<T: Turns>(
    alloc: Global,
    site: &mut T,
    topic: &TopicRoot<'_>,
    expr: &Expr,
    before: Versions,
) -> Result<Taken, SiteFault>
    requires { IsTopicOf (expr_tree expr.now) topic.now }
    ensures course { Completed (T.writer site.old) (T.writer site.new)
        (source_course (T.layout site.old).names topic.now.collection.now) (cut_in result) }
    ensures before { IfOk result (λ taken. taken.before ≡ before) }
    ensures tops { IfOk result (λ taken. taken.tops ≡ tops_of taken.cut) }
    ensures items { IfOk result (λ taken. taken.items
        ≡ topic_items (topic_parts topic.now) taken.cut taken.before) }
    ensures layout { T.layout site.new ≡ T.layout site.old }
    ensures home { T.home site.new ≡ T.home site.old }
{
    let cut = cut_source(alloc, site, topic.collection)?;
    let tops = tops_of(alloc, &cut)?;
    let items = topic_batch(alloc, expr, &cut, &before)?;
    Ok(Taken {
        before,
        cut,
        tops,
        items,
    })
}
