// Tests of running_site at a site of one pass: what a full shard and the end of the site leave. A
// document of an id of one byte counts 43 bytes, and a Mark 16.
ghost use Rattle.std.specs.Prelude.{◌≡◌};
ghost use Rattle.running_site.specs.Passes.{number_of};
ghost use Rattle.running_site.specs.Sites.{IsPassAt};

use crate::alone::{alone, update};
use crate::telling::{is_count, is_full, is_record};
use running_site::{Pass, Passes, Site};
use shard_versions::Step;
use std::alloc::Global;
use std::sync::Wait;
use std::test::Fail;
use tuple_values::Memory;

// Whether a document is taken, and the next one finds the shard full.
fn fills<R: Wait>(rt: &R, alloc: Global, site: &Site, pass: &mut Pass) -> Result<bool, Memory>
    requires { IsPassAt site.now pass.old }
    ensures own { IsPassAt site.now pass.new }
    ensures number { number_of pass.new ≡ number_of pass.old }
{
    let counted = is_count(update(rt, alloc, site, pass, "1", true)?, 1);
    let full = is_full(update(rt, alloc, site, pass, "3", true)?, 0, 0);
    Ok(counted && full)
}

// How many entries the history has under the number.
fn entries_by(history: Option<&Step>, number: u64) -> usize {
    let mut count = 0;
    if let Some(history) = history {
        for entry in history.as_slice() {
            if entry.by == number && count < usize::MAX {
                count += 1;
            }
        }
    }
    count
}

// Ends a site; how many entries the pass left in the first shard.
fn entries_left(alloc: Global, site: Site, pass: Pass) -> Result<usize, Memory>
    requires own { IsPassAt site pass }
    requires number { number_of pass ≡ 1 }
    requires passes { site.passes ≡ 1 }
{
    let mut passes = Passes::new(alloc);
    passes.push(pass)?;
    let histories = site.close(alloc, passes)?;
    Ok(entries_by(histories.shards.get(0), 1))
}

#[test]
fn a_full_shard_stays_as_it_was(rt: HostRuntime) -> Result<(), Fail> {
    let (site, mut pass) = alone(rt.alloc(), 1, 100)?;
    let full = fills(&rt, rt.alloc(), &site, &mut pass)?;
    let recorded = is_record(&pass.take_record(), &[(0, 0), (0, 2)], &[(0, 0, 2)]);
    let entries = entries_left(rt.alloc(), site, pass)?;
    assert!(rt; full && recorded && entries == 2);
    Ok(())
}
