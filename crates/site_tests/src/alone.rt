// A site with one pass, and what tests ask of it.
ghost use Rattle.std.specs.Prelude.{◌≡◌, ◌≤◌, IfOk};
ghost use Rattle.running_site.specs.Passes.{number_of};
ghost use Rattle.running_site.specs.Sites.{IsPassAt};

use crate::making::{names, puts};
use running_site::{Pass, Site, SiteFault, SiteOf};
use std::alloc::Global;
use std::sync::Wait;
use stream_site::{are_storable_writes, shards_of};
use tuple_values::{Memory, Text};

/// A site of the collection c of so many shards with this limit, and its one pass.
pub(crate) fn alone(alloc: Global, shards: u16, limit: u64) -> Result<(Site, Pass), Memory>
    requires { limit ≤ 268435456 }
    ensures own { IfOk result (λ made. IsPassAt made.0 made.1) }
    ensures number { IfOk result (λ made. number_of made.1 ≡ 1) }
    ensures passes { IfOk result (λ made. made.0.passes ≡ 1) }
{
    let (site, pass) = SiteOf::start_alone(alloc, names(alloc, shards)?, limit)?;
    Ok((site, pass))
}

/// Puts documents with these ids; none where the site doesn't take them.
pub(crate) fn update<R: Wait>(
    rt: &R,
    alloc: Global,
    site: &Site,
    pass: &mut Pass,
    ids: &str,
    commit: bool,
) -> Result<Option<Result<u64, SiteFault>>, Memory>
    requires { IsPassAt site.now pass.old }
    ensures own { IsPassAt site.now pass.new }
    ensures number { number_of pass.new ≡ number_of pass.old }
{
    let collection = Text::of(alloc, "c")?;
    let writes = puts(alloc, ids)?;
    if shards_of(site.names(), collection.as_str()) == 0 || !are_storable_writes(&writes) {
        return Ok(None);
    }
    Ok(Some(site.index(rt, alloc, pass, &collection, writes, commit)))
}

/// Whether c is committed.
pub(crate) fn is_committed<R: Wait>(
    rt: &R,
    alloc: Global,
    site: &Site,
    pass: &mut Pass,
) -> Result<bool, Memory>
    requires { IsPassAt site.now pass.old }
{
    let collection = Text::of(alloc, "c")?;
    Ok(site.commit_all(rt, alloc, pass, &collection).is_ok())
}
