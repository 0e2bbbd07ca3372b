// Tests of running_site's calls by two passes: the later version of a document is sent first, and
// then the earlier one isn't admitted.
ghost use Rattle.std.specs.Prelude.{◌≡◌, IfOk, IsTrue};
ghost use Rattle.exchange_rules.specs.Following.{Grows};
ghost use Rattle.running_site.specs.Passes.{number_of, writer_of};
ghost use Rattle.running_site.specs.Sites.{IsPassAt};
ghost use Rattle.case_items.specs.Items.{AreShown};
ghost use Rattle.site_tests.specs.Sights.{IsCutOf, IsTopic};

use crate::calling::{bind, cut, send, store, update};
use crate::making::{Route, from_c_to_d, numbered, three_names};
use crate::telling::{is_delivery, is_mark, is_sent, is_version};
use running_site::{Pass, Passes, Site, SiteOf};
use shard_versions::{Cut, Step};
use std::alloc::Global;
use std::sync::Wait;
use std::test::Fail;
use tuple_values::Memory;

/// A site with two passes, which have the numbers 1 and 2.
fn two_passes(alloc: Global) -> Result<(Site, Pass, Pass), Fail>
    ensures own { IfOk result (λ made. IsPassAt made.0 made.1 × IsPassAt made.0 made.2) }
    ensures numbers { IfOk result (λ made. (number_of made.1 ≡ 1) × (number_of made.2 ≡ 2)) }
    ensures passes { IfOk result (λ made. made.0.passes ≡ 2) }
{
    let (site, passes) = SiteOf::start(alloc, three_names(alloc)?, 2, 1000)?;
    let mut passes = passes.into_vec();
    let Some(second) = passes.pop() else {
        return Err("no second pass".into());
    };
    let Some(first) = passes.pop() else {
        return Err("no first pass".into());
    };
    Ok((site, first, second))
}

// Whether the first pass binds the topic from its start on, and the second finds it so.
fn begins<R: Wait>(
    rt: &R,
    alloc: Global,
    site: &Site,
    first: &mut Pass,
    second: &mut Pass,
    route: &Route,
) -> Result<bool, Fail>
    requires own { IsPassAt site.now first.old × IsPassAt site.now second.old }
    ensures own { IsPassAt site.now first.new × IsPassAt site.now second.new }
    ensures numbers { (number_of first.new ≡ number_of first.old)
        × (number_of second.new ≡ number_of second.old) }
    ensures topic { IfOk result (λ fine. IsTrue fine → IsTopic site.now.names
        (writer_of first.new).seen route.now.key route.now.src route.now.dest) }
{
    let bound = is_version(&bind(rt, alloc, site, first, route)?, 0);
    let state = site.topic_state(rt, alloc, second, &route.key)?;
    Ok(bound && is_version(&state, 0))
}

// Whether the pass puts id 1 with this number.
fn puts<R: Wait>(
    rt: &R,
    alloc: Global,
    site: &Site,
    pass: &mut Pass,
    route: &Route,
    number: i64,
) -> Result<bool, Fail>
    requires { IsPassAt site.now pass.old }
    ensures own { IsPassAt site.now pass.new }
    ensures number { number_of pass.new ≡ number_of pass.old }
    ensures grown { Grows (writer_of pass.old).seen (writer_of pass.new).seen }
{
    let writes = numbered(alloc, number)?;
    let count = update(rt, alloc, site, pass, &route.src, writes)?;
    Ok(count == Some(1))
}

// Whether the first pass delivers its cut, after which the second finds its own refused, and the
// first stores how far it came.
fn delivers<R: Wait>(
    rt: &R,
    alloc: Global,
    site: &Site,
    first: &mut Pass,
    second: &mut Pass,
    route: &Route,
    new: &Cut,
    old: &Cut,
) -> Result<bool, Fail>
    requires own { IsPassAt site.now first.old × IsPassAt site.now second.old }
    requires topic { IsTopic site.now.names (writer_of first.old).seen route.now.key
        route.now.src route.now.dest }
    requires taken { IsCutOf site.now.names (writer_of first.old).seen route.now.src new.now }
    requires new { AreShown site.now.names (writer_of first.old).seen route.now.src new.now }
    requires old { AreShown site.now.names (writer_of second.old).seen route.now.src old.now }
    ensures own { IsPassAt site.now first.new × IsPassAt site.now second.new }
    ensures numbers { (number_of first.new ≡ number_of first.old)
        × (number_of second.new ≡ number_of second.old) }
{
    if !is_sent(&send(rt, alloc, site, first, route, new)?, 1, 0) {
        return Ok(false);
    }
    let refused = is_sent(&send(rt, alloc, site, second, route, old)?, 0, 1);
    store(rt, alloc, site, first, &route.key, new)?;
    let state = site.topic_state(rt, alloc, first, &route.key)?;
    Ok(refused && is_version(&state, 2))
}

// Whether it does so with what it put after the second pass's cut.
fn overtakes<R: Wait>(
    rt: &R,
    alloc: Global,
    site: &Site,
    first: &mut Pass,
    second: &mut Pass,
    route: &Route,
    old: &Cut,
) -> Result<bool, Fail>
    requires own { IsPassAt site.now first.old × IsPassAt site.now second.old }
    requires topic { IsTopic site.now.names (writer_of first.old).seen route.now.key
        route.now.src route.now.dest }
    requires old { AreShown site.now.names (writer_of second.old).seen route.now.src old.now }
    ensures own { IsPassAt site.now first.new × IsPassAt site.now second.new }
    ensures numbers { (number_of first.new ≡ number_of first.old)
        × (number_of second.new ≡ number_of second.old) }
{
    let put = puts(rt, alloc, site, first, route, 2)?;
    let new = cut(rt, alloc, site, first, &route.src)?;
    let delivered = delivers(rt, alloc, site, first, second, route, &new, old)?;
    Ok(put && delivered)
}

// Whether all goes so from the topic's start on.
fn goes_on<R: Wait>(
    rt: &R,
    alloc: Global,
    site: &Site,
    first: &mut Pass,
    second: &mut Pass,
    route: &Route,
) -> Result<bool, Fail>
    requires own { IsPassAt site.now first.old × IsPassAt site.now second.old }
    ensures own { IsPassAt site.now first.new × IsPassAt site.now second.new }
    ensures numbers { (number_of first.new ≡ number_of first.old)
        × (number_of second.new ≡ number_of second.old) }
{
    if !begins(rt, alloc, site, first, second, route)? {
        return Ok(false);
    }
    let put = puts(rt, alloc, site, first, route, 1)?;
    let old = cut(rt, alloc, site, second, &route.src)?;
    let overtaken = overtakes(rt, alloc, site, first, second, route, &old)?;
    Ok(put && overtaken)
}

// Whether a history is a delivery of the second version, and a Mark.
fn is_second(history: Option<&Step>) -> bool {
    match history {
        Some(history) => match history.as_slice() {
            [sent, mark] => is_delivery(sent, 2, 2) && is_mark(mark),
            _ => false,
        },
        None => false,
    }
}

// Ends a site; whether d, whose shard has the third cell, has the second version alone.
fn has_second(alloc: Global, site: Site, first: Pass, second: Pass) -> Result<bool, Memory>
    requires own { IsPassAt site first × IsPassAt site second }
    requires numbers { (number_of first ≡ 1) × (number_of second ≡ 2) }
    requires passes { site.passes ≡ 2 }
{
    let mut passes = Passes::new(alloc);
    passes.push(first)?;
    passes.push(second)?;
    let histories = site.close(alloc, passes)?;
    Ok(is_second(histories.shards.get(2)))
}

#[test]
fn an_earlier_version_is_refused_behind_a_later_one(rt: HostRuntime) -> Result<(), Fail> {
    let route = from_c_to_d(rt.alloc())?;
    let (site, mut first, mut second) = two_passes(rt.alloc())?;
    let went = goes_on(&rt, rt.alloc(), &site, &mut first, &mut second, &route)?;
    let left = has_second(rt.alloc(), site, first, second)?;
    assert!(rt; went && left);
    Ok(())
}
