// Topics that give their tuples.
ghost use Rattle.std.specs.Prelude.{◌≡◌, ◌<◌, IfOk, None, map};
ghost use Rattle.expr_check.specs.Roots.{topic_parts, IsTopicOf};
ghost use Rattle.expr_check.specs.Views.{tree_of};
ghost use Rattle.exchange_rules.specs.Calls.{Answered};
ghost use Rattle.exchange_rules.specs.Topics.{read_course};
ghost use Rattle.source_streams.specs.declared.batch.TopicItem.{TopicItem};
ghost use Rattle.update_sink.specs.Topics.{asked_of, read_of, IsThere};

use crate::asking::key_of;
use crate::taking::{Taken, begin_topic, take_source};
use exchange_rules::TopicRead;
use expr_check::{Checked, TopicRoot};
use source_streams::TopicBatch;
use std::alloc::Global;
use stream_site::{SiteFault, Turns, store_topic_over};
use tuple_values::{Memory, TryCopy, Tuples};

// The documents of what a topic gives.
fn documents_of(alloc: Global, items: TopicBatch) -> Result<Tuples, Memory>
    ensures { IfOk result (λ tuples. tuples ≡ map (λ (i : TopicItem). i.document) items) }
{
    let tuples = items
        .into_vec()
        .into_iter()
        .map(|item| item.document)
        .collect(alloc)?;
    Ok(Tuples::from_vec(tuples))
}

// The same, with a turn that may be left.
fn read_above<T: Turns>(
    alloc: Global,
    site: &mut T,
    topic: &TopicRoot<'_>,
    checked: &Checked,
) -> Result<TopicRead, SiteFault>
    requires topic { IsTopicOf (tree_of checked.now) topic.now }
    requires there { IsThere (T.layout site.old).names (topic_parts topic.now) }
    ensures course { Answered (T.writer site.old) (T.writer site.new)
        (read_course (T.layout site.old).names (asked_of (topic_parts topic.now) None)
        (read_of (topic_parts topic.now))) result }
    ensures layout { T.layout site.new ≡ T.layout site.old }
    ensures home { T.home site.new ≡ T.home site.old }
{
    let expr = checked.expr();
    let key = key_of(alloc, topic)?;
    let before = begin_topic(alloc, site, topic, None, &key)?;
    let taken = take_source(alloc, site, topic, expr, before)?;
    let Taken {
        before,
        cut,
        tops,
        items,
    } = taken;
    let tuples = documents_of(alloc, items)?;
    let upto = tops.copy(alloc)?;
    store_topic_over(alloc, site, &key, upto)?;
    Ok(TopicRead {
        cut,
        before,
        stored: tops,
        tuples,
    })
}

/// Gives the tuples of a topic above its checkpoint, which is bound first where it isn't: those that
/// a cut of its source holds. Their versions are stored before they are given, so after an `Err`
/// what follows gives them again, unless memory was wanting or the book's log failed. The writer has no
/// turn afterwards.
pub fn read_topic<T: Turns>(
    alloc: Global,
    site: &mut T,
    topic: &TopicRoot<'_>,
    checked: &Checked,
) -> Result<TopicRead, SiteFault>
    requires topic { IsTopicOf (tree_of checked.now) topic.now }
    requires there { IsThere (T.layout site.old).names (topic_parts topic.now) }
    ensures course { Answered (T.writer site.old) (T.writer site.new)
        (read_course (T.layout site.old).names (asked_of (topic_parts topic.now) None)
        (read_of (topic_parts topic.now))) result }
    ensures free { T.free site.new }
    ensures layout { T.layout site.new ≡ T.layout site.old }
    ensures home { T.home site.new ≡ T.home site.old }
{
    let result = read_above(alloc, site, topic, checked);
    site.leave();
    result
}
