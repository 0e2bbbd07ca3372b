// The start of the cases' site.
ghost use Rattle.std.specs.Prelude.{◌≤◌, IfOk};
ghost use Rattle.running_site.specs.Sites.{IsPassAt};

use crate::fixture::Fixture;
use crate::keeping::no_record;
use running_site::SiteOf;
use std::alloc::Global;
use tuple_values::{Memory, NameShards, Names, Text};

/// The collection that is written to, from which deliveries come.
pub const SOURCE: &str = "c";

/// The collection to which they go.
pub const DESTINATION: &str = "d";

fn push_collection(alloc: Global, names: &mut Names, name: &str) -> Result<(), Memory> {
    names.push(NameShards {
        name: Text::of(alloc, name)?,
        shards: 2,
    })
}

// The two collections.
fn collections(alloc: Global) -> Result<Names, Memory> {
    let mut names = Names::new(alloc);
    push_collection(alloc, &mut names, SOURCE)?;
    push_collection(alloc, &mut names, DESTINATION)?;
    Ok(names)
}

/// A site of the two collections with two shards each, whose counted bytes are at most the limit.
pub fn begin(alloc: Global, limit: u64) -> Result<Fixture, Memory>
    requires { limit ≤ 268435456 }
    ensures { IfOk result (λ fixture. IsPassAt fixture.site fixture.pass) }
{
    let (site, pass) = SiteOf::start_alone(alloc, collections(alloc)?, limit)?;
    let kept = no_record(alloc);
    Ok(Fixture { site, pass, kept })
}
