// A worker that puts documents.
ghost use Rattle.std.specs.Prelude.{◌≡◌};
ghost use Rattle.running_site.specs.Passes.{number_of, writer_of};
ghost use Rattle.running_site.specs.Sites.{layout_at, IsPassAt};
ghost use Rattle.site_threads.specs.Work.{HasWorked, IsUpdateBy};

use running_site::{Pass, Site};
use std::alloc::Global;
use std::sync::Wait;
use stream_site::{are_storable_writes, shards_of};
use tuple_values::{Text, Writes};

/// Carries the writes out, and commits them; how many there are, if that isn't refused.
pub fn index_writes<R: Wait>(
    rt: &R,
    alloc: Global,
    site: &Site,
    pass: &mut Pass,
    collection: &Text,
    writes: Writes,
) -> Option<u64>
    requires { IsPassAt site.now pass.old }
    ensures own { IsPassAt site.now pass.new }
    ensures number { number_of pass.new ≡ number_of pass.old }
    ensures work { HasWorked (layout_at site.now)
        (IsUpdateBy collection.now writes) (writer_of pass.old) (writer_of pass.new) }
{
    if shards_of(site.names(), collection.as_str()) == 0 || !are_storable_writes(&writes) {
        return None;
    }
    let count = site.index(rt, alloc, pass, collection, writes, false).ok()?;
    site.commit_all(rt, alloc, pass, collection).ok()?;
    Some(count)
}
