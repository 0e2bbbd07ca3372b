// The calls of a pass at a shared site, each after the tests of what it asks.
ghost use Rattle.std.specs.Prelude.{◌≡◌, ◌≢◌, ◌<◌, IfOk, IfSome, IsTrue};
ghost use Rattle.std.specs.List.{AllByRecursion};
ghost use Rattle.query_syntax.specs.Meaning.{IsReadable};
ghost use Rattle.topic_book.specs.Fitness.{shards_of, IsOnCollections};
ghost use Rattle.once_core.specs.Allowed.{MayStore};
ghost use Rattle.exchange_rules.specs.Following.{Grows};
ghost use Rattle.exchange_rules.specs.Topics.{tops_of};
ghost use Rattle.site_laws.specs.SiteCells.{histories_in};
ghost use Rattle.running_site.specs.Passes.{number_of, writer_of};
ghost use Rattle.running_site.specs.Sites.{IsPassAt};
ghost use Rattle.case_items.specs.Items.{made_items, AreShown};
ghost use Rattle.update_sink.specs.Given.{IsThereNow};
ghost use Rattle.site_tests.specs.Sights.{IsCutOf, IsTopic};

use crate::making::{Route, binding};
use case_items::cut_items;
use once_core::{is_on_collections, is_readable};
use running_site::{Pass, Sent, Site};
use shard_versions::Cut;
use std::alloc::Global;
use std::sync::Wait;
use std::test::Fail;
use stream_site::{are_storable_writes, shards_of};
use topic_book::{Binding, TopicKey};
use tuple_values::{FieldList, Memory, Text, TryCopy, Versions, Writes};

// Whether the topic may be bound so, if it isn't bound yet.
fn may_bind(alloc: Global, site: &Site, key: &TopicKey, binding: &Binding) -> Result<bool, Memory>
    ensures { IfOk result (λ may. IsTrue may
        → IsOnCollections site.now.names key.now binding.now × IsReadable binding.now.q) }
{
    if !is_on_collections(site.names().as_slice(), key, binding) {
        return Ok(false);
    }
    is_readable(alloc, &binding.q)
}

/// Binds the topic; none where the site doesn't take it.
pub(crate) fn bind<R: Wait>(
    rt: &R,
    alloc: Global,
    site: &Site,
    pass: &mut Pass,
    route: &Route,
) -> Result<Option<Versions>, Fail>
    requires { IsPassAt site.now pass.old }
    ensures own { IsPassAt site.now pass.new }
    ensures number { number_of pass.new ≡ number_of pass.old }
    ensures topic { IfOk result (λ bound. IfSome bound (λ upto. IsTopic site.now.names
        (writer_of pass.new).seen route.now.key route.now.src route.now.dest)) }
{
    let binding = binding(alloc, route)?;
    if !may_bind(alloc, site, &route.key, &binding)? {
        return Ok(None);
    }
    Ok(Some(site.bind_topic(rt, alloc, pass, &route.key, binding)?))
}

/// An update with a commit; none where the site doesn't take it.
pub(crate) fn update<R: Wait>(
    rt: &R,
    alloc: Global,
    site: &Site,
    pass: &mut Pass,
    collection: &Text,
    writes: Writes,
) -> Result<Option<u64>, Fail>
    requires { IsPassAt site.now pass.old }
    ensures own { IsPassAt site.now pass.new }
    ensures number { number_of pass.new ≡ number_of pass.old }
    ensures grown { Grows (writer_of pass.old).seen (writer_of pass.new).seen }
{
    if shards_of(site.names(), collection.as_str()) == 0 || !are_storable_writes(&writes) {
        return Ok(None);
    }
    Ok(Some(site.index(rt, alloc, pass, collection, writes, true)?))
}

/// A cut of the collection.
pub(crate) fn cut<R: Wait>(
    rt: &R,
    alloc: Global,
    site: &Site,
    pass: &mut Pass,
    collection: &Text,
) -> Result<Cut, Fail>
    requires { IsPassAt site.now pass.old }
    ensures own { IsPassAt site.now pass.new }
    ensures number { number_of pass.new ≡ number_of pass.old }
    ensures grown { Grows (writer_of pass.old).seen (writer_of pass.new).seen }
    ensures shown { IfOk result (λ cut. AreShown site.now.names (writer_of pass.new).seen
        collection.now cut) }
    ensures taken { IfOk result (λ cut. IsCutOf site.now.names (writer_of pass.new).seen
        collection.now cut) }
{
    let mut collections = FieldList::new(alloc);
    collections.push(collection.copy(alloc)?)?;
    Ok(site.take_cut(rt, alloc, pass, &collections)?)
}

// Whether these are two collections of the site.
fn are_two(site: &Site, dest: &Text, src: &Text) -> bool
    ensures { IsTrue result → (0 < shards_of site.now.names dest.now)
        × (0 < shards_of site.now.names src.now) × (src.now ≢ dest.now) }
{
    shards_of(site.names(), dest.as_str()) > 0
        && shards_of(site.names(), src.as_str()) > 0
        && dest.as_str() != src.as_str()
}

/// Sends the items of a cut of the source to the destination; none where the site doesn't take
/// them.
pub(crate) fn send<R: Wait>(
    rt: &R,
    alloc: Global,
    site: &Site,
    pass: &mut Pass,
    route: &Route,
    cut: &Cut,
) -> Result<Option<Sent>, Fail>
    requires own { IsPassAt site.now pass.old }
    requires shown { AreShown site.now.names (writer_of pass.old).seen route.now.src cut.now }
    ensures own { IsPassAt site.now pass.new }
    ensures number { number_of pass.new ≡ number_of pass.old }
    ensures grown { Grows (writer_of pass.old).seen (writer_of pass.new).seen }
    ensures there { IfOk result (λ sent. IfSome sent (λ counts. AllByRecursion
        (IsThereNow site.now.names (writer_of pass.new).seen route.now.dest route.now.src)
        (made_items route.now.src cut.now))) }
{
    if !are_two(site, &route.dest, &route.src) {
        return Ok(None);
    }
    let Some(items) = cut_items(alloc, site.names(), &route.src, cut)? else {
        return Ok(None);
    };
    Ok(Some(site.send(rt, alloc, pass, &route.dest, &route.src, items)?))
}

// The tops of the parts of a cut.
fn tops_of(alloc: Global, cut: &Cut) -> Result<Versions, Memory>
    ensures { IfOk result (λ tops. tops ≡ tops_of cut.now) }
{
    let parts = cut.as_slice();
    let tops = parts.iter().map(|part| part.snapshot.top()).collect(alloc)?;
    Ok(Versions::from_vec(tops))
}

/// Stores that the topic was delivered up to the tops of a cut.
pub(crate) fn store<R: Wait>(
    rt: &R,
    alloc: Global,
    site: &Site,
    pass: &mut Pass,
    key: &TopicKey,
    cut: &Cut,
) -> Result<(), Fail>
    requires own { IsPassAt site.now pass.old }
    requires delivered { MayStore site.now.names
        (histories_in site.now.names (writer_of pass.old).seen) key.now (tops_of cut.now) }
    ensures own { IsPassAt site.now pass.new }
    ensures number { number_of pass.new ≡ number_of pass.old }
{
    let tops = tops_of(alloc, cut)?;
    Ok(site.store_topic(rt, alloc, pass, key, tops)?)
}
