// The work of an indexer.
ghost use Rattle.std.specs.Prelude.{◌≡◌, OnOk};
ghost use Rattle.exchange_rules.specs.Steps.{AreStorableWrites};
ghost use Rattle.running_site.specs.Passes.{number_of, writer_of};
ghost use Rattle.running_site.specs.Sites.{IsPassAt};
ghost use Rattle.load_rules.specs.Topic.{load_names, src_name};
ghost use Rattle.load_mix.specs.Puts.{HasPut};
ghost use Rattle.load_rules.specs.Worked.{HasIndexed};

use load_rules::load_documents;
use running_site::{Pass, Site, SiteFault};
use std::alloc::Global;
use std::mem::replace;
use std::sync::Wait;
use tuple_values::{Text, Writes};

/// How many writes an update has at most.
const BATCH: usize = 100;

/// Makes the documents of one of four indexers, of `n` in all, and puts them into the source of a
/// load, in order, in updates with a commit. After an `Err` whole updates stand.
pub(crate) fn index_documents<R: Wait>(
    rt: &R,
    alloc: Global,
    site: &Site,
    pass: &mut Pass,
    n: u64,
    indexer: u16,
) -> Result<(), SiteFault>
    requires own { IsPassAt site.now pass.old }
    requires names { site.now.names ≡ load_names }
    ensures own { IsPassAt site.now pass.new }
    ensures number { number_of pass.new ≡ number_of pass.old }
    ensures done { OnOk result (HasIndexed n indexer (writer_of pass.old) (writer_of pass.new)) }
{
    let src = Text::of(alloc, "src")?;
    let writes = load_documents(alloc, n, indexer)?;
    put_all(rt, alloc, site, pass, &src, writes)
}

// Carries the writes out at the source, in order, in updates with a commit.
fn put_all<R: Wait>(
    rt: &R,
    alloc: Global,
    site: &Site,
    pass: &mut Pass,
    src: &Text,
    writes: Writes,
) -> Result<(), SiteFault>
    requires own { IsPassAt site.now pass.old }
    requires names { site.now.names ≡ load_names }
    requires source { src.now ≡ src_name }
    requires storable { AreStorableWrites writes }
    ensures own { IsPassAt site.now pass.new }
    ensures number { number_of pass.new ≡ number_of pass.old }
    ensures done { OnOk result (HasPut writes (writer_of pass.old) (writer_of pass.new)) }
{
    let mut batch = Writes::new(alloc);
    for write in writes.into_vec() {
        batch.push(write)?;
        if batch.len() == BATCH {
            let full = replace(&mut batch, Writes::new(alloc));
            put(rt, alloc, site, pass, src, full)?;
        }
    }
    put(rt, alloc, site, pass, src, batch)
}

// One update of the source, with a commit.
fn put<R: Wait>(
    rt: &R,
    alloc: Global,
    site: &Site,
    pass: &mut Pass,
    src: &Text,
    writes: Writes,
) -> Result<(), SiteFault>
    requires own { IsPassAt site.now pass.old }
    requires names { site.now.names ≡ load_names }
    requires source { src.now ≡ src_name }
    requires storable { AreStorableWrites writes }
    ensures own { IsPassAt site.now pass.new }
    ensures number { number_of pass.new ≡ number_of pass.old }
    ensures done { OnOk result (HasPut writes (writer_of pass.old) (writer_of pass.new)) }
{
    let _written = site.index(rt, alloc, pass, src, writes, true)?;
    Ok(())
}
