// Tests of stream_site at a site of one pass: that the courses mean what the rules say, and that
// each call that takes memory succeeds. Of two shards the second holds id `2` and the first id `3`;
// a document of such an id counts 43 bytes, and a Mark 16.
ghost use Rattle.running_site.specs.Sites.{IsPassAt};

use crate::alone::{alone, is_committed, update};
use crate::making::collections;
use crate::telling::{is_count, is_full, is_record};
use running_site::{Pass, Site};
use shard_versions::Cut;
use std::alloc::Global;
use std::sync::Wait;
use std::test::Fail;
use tuple_values::Memory;

// Whether this is the record since the last such call.
fn records(pass: &mut Pass, looks: &[(u32, u64)], steps: &[(u32, u64, u64)]) -> bool {
    is_record(&pass.take_record(), looks, steps)
}

fn touches_both<R: Wait>(
    rt: &R,
    alloc: Global,
    site: &Site,
    pass: &mut Pass,
) -> Result<bool, Memory>
    requires { IsPassAt site.now pass.old }
{
    let counted = is_count(update(rt, alloc, site, pass, "2 3", true)?, 2);
    Ok(counted && records(pass, &[(0, 0), (1, 0)], &[(0, 0, 2), (1, 0, 2)]))
}

#[test]
fn an_update_appends_a_step_at_each_touched_shard(rt: HostRuntime) -> Result<(), Fail> {
    let (site, mut pass) = alone(rt.alloc(), 2, 1000)?;
    assert!(rt; touches_both(&rt, rt.alloc(), &site, &mut pass)?);
    Ok(())
}

fn marks_pending<R: Wait>(
    rt: &R,
    alloc: Global,
    site: &Site,
    pass: &mut Pass,
) -> Result<bool, Memory>
    requires { IsPassAt site.now pass.old }
{
    let counted = is_count(update(rt, alloc, site, pass, "2", false)?, 1);
    let committed = is_committed(rt, alloc, site, pass)?;
    let recorded = records(pass, &[(1, 0), (0, 0), (1, 1)], &[(1, 0, 1), (1, 1, 1)]);
    Ok(counted && committed && recorded)
}

#[test]
fn a_commit_marks_pending_writes_alone(rt: HostRuntime) -> Result<(), Fail> {
    let (site, mut pass) = alone(rt.alloc(), 2, 1000)?;
    assert!(rt; marks_pending(&rt, rt.alloc(), &site, &mut pass)?);
    Ok(())
}

fn commits_others<R: Wait>(
    rt: &R,
    alloc: Global,
    site: &Site,
    pass: &mut Pass,
) -> Result<bool, Memory>
    requires { IsPassAt site.now pass.old }
{
    let first = is_count(update(rt, alloc, site, pass, "2", false)?, 1);
    let second = is_count(update(rt, alloc, site, pass, "3", true)?, 1);
    let looks = [(1, 0), (0, 0), (1, 1)];
    let recorded = records(pass, &looks, &[(1, 0, 1), (0, 0, 2), (1, 1, 1)]);
    Ok(first && second && recorded)
}

#[test]
fn an_update_with_commit_commits_the_other_shards(rt: HostRuntime) -> Result<(), Fail> {
    let (site, mut pass) = alone(rt.alloc(), 2, 1000)?;
    assert!(rt; commits_others(&rt, rt.alloc(), &site, &mut pass)?);
    Ok(())
}

fn ends_at_the_full_one<R: Wait>(
    rt: &R,
    alloc: Global,
    site: &Site,
    pass: &mut Pass,
) -> Result<bool, Memory>
    requires { IsPassAt site.now pass.old }
{
    let counted = is_count(update(rt, alloc, site, pass, "2", false)?, 1);
    let full = is_full(update(rt, alloc, site, pass, "2 3", false)?, 1, 1);
    let recorded = records(pass, &[(1, 0), (0, 0), (1, 1)], &[(1, 0, 1), (0, 0, 1)]);
    Ok(counted && full && recorded)
}

#[test]
fn a_full_shard_ends_the_update_after_the_shards_before(rt: HostRuntime) -> Result<(), Fail> {
    let (site, mut pass) = alone(rt.alloc(), 2, 50)?;
    assert!(rt; ends_at_the_full_one(&rt, rt.alloc(), &site, &mut pass)?);
    Ok(())
}

// Whether the part at a place is that of the shard of this number, with such a snapshot.
fn shows(cut: &Cut, place: usize, top: u64, upto: u64, count: u64) -> bool {
    match cut.get(place) {
        Some(part) => {
            part.shard as usize == place
                && part.snapshot.top() == top
                && part.snapshot.upto() == upto
                && part.snapshot.count() == count
        }
        None => false,
    }
}

fn is_cut<R: Wait>(rt: &R, alloc: Global, site: &Site, pass: &mut Pass) -> Result<bool, Fail>
    requires { IsPassAt site.now pass.old }
    ensures { IsPassAt site.now pass.new }
{
    let cut = site.take_cut(rt, alloc, pass, &collections(alloc)?)?;
    Ok(cut.len() == 2 && shows(&cut, 0, 0, 0, 0) && shows(&cut, 1, 1, 2, 1))
}

// Whether a cut of an update shows it, and a commit after it is answered.
fn is_shown<R: Wait>(rt: &R, alloc: Global, site: &Site, pass: &mut Pass) -> Result<bool, Fail>
    requires { IsPassAt site.now pass.old }
{
    let counted = is_count(update(rt, alloc, site, pass, "2", true)?, 1);
    let cut = is_cut(rt, alloc, site, pass)?;
    let committed = is_committed(rt, alloc, site, pass)?;
    Ok(counted && cut && committed)
}

#[test]
fn a_cut_shows_each_shard_as_it_is(rt: HostRuntime) -> Result<(), Fail> {
    let (site, mut pass) = alone(rt.alloc(), 2, 1000)?;
    assert!(rt; is_shown(&rt, rt.alloc(), &site, &mut pass)?);
    Ok(())
}
