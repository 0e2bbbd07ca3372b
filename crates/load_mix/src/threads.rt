// The workers of a load, each in a thread of its own.
ghost use Rattle.std.specs.Prelude.{ℕ, ◌≡◌, ◌<◌, All, length, slice_index_or};
ghost use Rattle.load_rules.specs.Topic.{load_names};
ghost use Rattle.load_mix.specs.Workers.{IsPlan, IsWorked, IsWorkerAt, Worker};

use crate::work::{Plan, carry_out};
use crate::worker::Worker;
use io_edge::Gate;
use running_site::Site;
use std::alloc::Global;
use std::sync::Wait;
use std::thread::{Threads, for_each_mut};

/// Carries out the work of each worker, in a thread of its own where one can be made.
pub(crate) fn carry_all_out<R: Threads + Wait + Sync, G: Gate>(
    rt: &R,
    alloc: Global,
    site: &Site,
    workers: &mut [Worker],
    plan: &Plan,
    gate: &G,
)
    requires own { All (IsWorkerAt site.now) workers.old }
    requires names { site.now.names ≡ load_names }
    requires plan { IsPlan plan.now }
    ensures count { length workers.new ≡ length workers.old }
    ensures each { (k : ℕ) (d : Worker) → k < length workers.old
        → IsWorked plan.now.n site.now (slice_index_or workers.old k d)
        (slice_index_or workers.new k d) }
{
    let count = workers.len();
    if count == 0 {
        return;
    }
    for_each_mut(
        rt,
        workers,
        count,
        &|_place: usize, worker: &mut Worker|
            requires { IsWorkerAt site.now worker.now × (site.now.names ≡ load_names)
                × IsPlan plan.now }
            ensures { IsWorked plan.entry.now.n site.entry.now worker.entry.now worker.exit.now }
        { carry_out(rt, alloc, site, worker, plan, gate) },
    );
}
