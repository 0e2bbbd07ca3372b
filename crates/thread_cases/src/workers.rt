// Workers, each served in a thread of its own.
ghost use Rattle.std.specs.Prelude.{ℕ, ◌≡◌, ◌<◌, All, length, slice_index_or};
ghost use Rattle.running_site.specs.Passes.{number_of, writer_of};
ghost use Rattle.running_site.specs.Sites.{layout_at, IsPassAt};
ghost use Rattle.site_threads.specs.Work.{HasWorked};
ghost use Rattle.site_threads.specs.Workers.{IsWorkerAt, Worker};
ghost use Rattle.thread_cases.specs.Serving.{IsCallOf, IsServed};

use crate::baton::Baton;
use crate::indexing::index_all;
use crate::overtaking::{come_late, overtake};
use running_site::{Pass, Site};
use site_threads::{Task, Worker, deliver_all};
use std::alloc::Global;
use std::sync::Wait;
use std::thread::{Threads, for_each_mut};

// Carries a task out by a pass; how many documents or writes there were, if nothing is refused.
fn carry_out<R: Wait>(
    rt: &R,
    alloc: Global,
    site: &Site,
    baton: &Baton,
    pass: &mut Pass,
    task: Task,
) -> Option<u64>
    requires { IsPassAt site.now pass.old }
    ensures own { IsPassAt site.now pass.new }
    ensures number { number_of pass.new ≡ number_of pass.old }
    ensures work { HasWorked (layout_at site.now) (IsCallOf task) (writer_of pass.old)
        (writer_of pass.new) }
{
    match task {
        Task::Index {
            collection,
            first,
            batches,
        } => index_all(rt, alloc, site, pass, collection, first, batches),
        Task::Deliver { wanted } => deliver_all(rt, alloc, site, pass, wanted),
        Task::Overtake => overtake(rt, alloc, site, pass, baton),
        Task::ComeLate => come_late(rt, alloc, site, pass, baton),
    }
}

// Carries the worker's task out, and takes its record.
fn serve<R: Wait>(rt: &R, alloc: Global, site: &Site, baton: &Baton, worker: &mut Worker)
    requires { IsWorkerAt site.now worker.old }
    ensures { IsServed site.now worker.old worker.new }
{
    worker.done = carry_out(rt, alloc, site, baton, &mut worker.pass, worker.task);
    worker.record = Some(worker.pass.take_record());
}

/// Carries each worker's task out, in a thread of its own where one can be made.
pub fn serve_all<R: Threads + Wait + Sync>(
    rt: &R,
    alloc: Global,
    site: &Site,
    workers: &mut [Worker],
)
    requires { All (IsWorkerAt site.now) workers.old }
    ensures count { length workers.new ≡ length workers.old }
    ensures each { (k : ℕ) (d : Worker) → k < length workers.old
        → IsServed site.now (slice_index_or workers.old k d) (slice_index_or workers.new k d) }
{
    let baton = &Baton::new();
    let count = workers.len();
    if count == 0 {
        return;
    }
    for_each_mut(
        rt,
        workers,
        count,
        &|_place: usize, worker: &mut Worker|
            requires { IsWorkerAt site.now worker.now }
            ensures { IsServed site.entry.now worker.entry.now worker.exit.now }
        { serve(rt, alloc, site, baton, worker) },
    );
}
