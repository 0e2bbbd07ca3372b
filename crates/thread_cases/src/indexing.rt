// A worker that puts documents.
ghost use Rattle.std.specs.Prelude.{◌≡◌};
ghost use Rattle.running_site.specs.Passes.{number_of, writer_of};
ghost use Rattle.running_site.specs.Sites.{layout_at, IsPassAt};
ghost use Rattle.site_threads.specs.Work.{HasWorked, IsUpdateOf};
ghost use Rattle.thread_cases.specs.Serving.{name_of};

use crate::documents::{collection, puts};
use running_site::{Pass, Site};
use site_threads::index_writes;
use std::alloc::Global;
use std::sync::Wait;

/// Puts the documents of these batches; how many, if none is refused.
pub fn index_all<R: Wait>(
    rt: &R,
    alloc: Global,
    site: &Site,
    pass: &mut Pass,
    number: u64,
    first: u64,
    batches: u64,
) -> Option<u64>
    requires { IsPassAt site.now pass.old }
    ensures own { IsPassAt site.now pass.new }
    ensures number { number_of pass.new ≡ number_of pass.old }
    ensures work { HasWorked (layout_at site.now) (IsUpdateOf (name_of number)) (writer_of pass.old)
        (writer_of pass.new) }
{
    let Ok(collection) = collection(alloc, number) else {
        return None;
    };
    let mut done: u64 = 0;
    for k in 0..batches {
        let writes = puts(alloc, first.saturating_add(k)).ok()?;
        let count = index_writes(rt, alloc, site, pass, &collection, writes)?;
        done = done.saturating_add(count);
    }
    Some(done)
}
