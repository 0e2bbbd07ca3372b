// Two workers, of which one delivers a version of a document that the other has overtaken.
ghost use Rattle.std.specs.Prelude.{◌≡◌};
ghost use Rattle.running_site.specs.Passes.{number_of, writer_of};
ghost use Rattle.running_site.specs.Sites.{layout_at, IsPassAt};
ghost use Rattle.site_threads.specs.Work.{HasWorked, IsRun, IsUpdateOf};
ghost use Rattle.site_threads.specs.declared.workers.Task.TheVariants.{Overtake};
ghost use Rattle.thread_cases.specs.Serving.{name_of, IsCallOf};

use crate::baton::Baton;
use crate::documents::{collection, put_one};
use io_edge::NoGate;
use running_site::{Pass, Site};
use site_threads::{FIRST, SECOND, deliver_once, index_writes};
use std::alloc::Global;
use std::sync::Wait;
use update_sink::TopicRun;

// Puts the document with this number.
fn put<R: Wait>(rt: &R, alloc: Global, site: &Site, pass: &mut Pass, number: i64) -> Option<u64>
    requires { IsPassAt site.now pass.old }
    ensures own { IsPassAt site.now pass.new }
    ensures number { number_of pass.new ≡ number_of pass.old }
    ensures work { HasWorked (layout_at site.now) (IsUpdateOf (name_of 0)) (writer_of pass.old)
        (writer_of pass.new) }
{
    let Ok(collection) = collection(alloc, 0) else {
        return None;
    };
    let writes = put_one(alloc, number).ok()?;
    index_writes(rt, alloc, site, pass, &collection, writes)
}

// Delivers the document; how many writes of the delivery stand, if nothing is refused.
fn deliver<R: Wait>(rt: &R, alloc: Global, site: &Site, pass: &mut Pass) -> Option<u64>
    requires { IsPassAt site.now pass.old }
    ensures own { IsPassAt site.now pass.new }
    ensures number { number_of pass.new ≡ number_of pass.old }
    ensures work { HasWorked (layout_at site.now) IsRun (writer_of pass.old)
        (writer_of pass.new) }
{
    let run = deliver_once(rt, alloc, site, pass, FIRST, &NoGate)?;
    Some(run.stand)
}

/// Puts a document; once the other worker has read it, puts it again, delivers that, and lets the
/// other one go on. How many writes of the delivery stand, if nothing is refused.
pub fn overtake<R: Wait>(
    rt: &R,
    alloc: Global,
    site: &Site,
    pass: &mut Pass,
    baton: &Baton,
) -> Option<u64>
    requires { IsPassAt site.now pass.old }
    ensures own { IsPassAt site.now pass.new }
    ensures number { number_of pass.new ≡ number_of pass.old }
    ensures work { HasWorked (layout_at site.now) (IsCallOf Overtake) (writer_of pass.old)
        (writer_of pass.new) }
{
    put(rt, alloc, site, pass, 1)?;
    baton.reach(1);
    baton.wait(2);
    put(rt, alloc, site, pass, 2)?;
    let stand = deliver(rt, alloc, site, pass);
    baton.reach(3);
    stand
}

// The version up to which a run had read, if it read one document and no write of the delivery stands.
fn overtaken(run: &TopicRun) -> Option<u64> {
    if run.read != 1 || run.stand != 0 {
        return None;
    }
    Some(*run.stored.get(0)?)
}

/// Delivers the document that was put first, and waits before it is sent until the other worker has
/// delivered the one that was put again. The version up to which it had read, if it read one document
/// and no write of the delivery stands.
pub fn come_late<R: Wait>(
    rt: &R,
    alloc: Global,
    site: &Site,
    pass: &mut Pass,
    baton: &Baton,
) -> Option<u64>
    requires { IsPassAt site.now pass.old }
    ensures own { IsPassAt site.now pass.new }
    ensures number { number_of pass.new ≡ number_of pass.old }
    ensures work { HasWorked (layout_at site.now) IsRun (writer_of pass.old)
        (writer_of pass.new) }
{
    baton.wait(1);
    let run = deliver_once(rt, alloc, site, pass, SECOND, baton)?;
    overtaken(&run)
}
