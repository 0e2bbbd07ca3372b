// A load, from the start of its site to its end.
ghost use Rattle.std.specs.Prelude.{◌≡◌, All, IfOk};
ghost use Rattle.std.specs.List.{AllZip};
ghost use Rattle.load_rules.specs.Loaded.{IsLoaded};
ghost use Rattle.load_rules.specs.Topic.{load_names};
ghost use Rattle.load_mix.specs.Workers.{IsPlan, IsWorked, IsWorkerAt};

use crate::ending::end_all;
use crate::querying::read_query;
use crate::threads::carry_all_out;
use crate::topic::{collections, load_update};
use crate::work::Plan;
use crate::worker::{Worker, with_roles};
use io_edge::Gate;
use load_laws::finished_loads_are_made;
use running_site::{Histories, Site, SiteOf};
use server_edge::Clock;
use std::alloc::Global;
use std::sync::Wait;
use std::thread::Threads;
use tuple_values::{Memory, Names};

/// How many writers a load has: four indexers, two threads of queries and two runners.
const WRITERS: u64 = 8;

/// The limit on the counted bytes of a shard.
const LIMIT: u64 = 268_435_456;

// The plan of a load of `n` documents.
fn plan_of(alloc: Global, names: &Names, n: u64) -> Result<Plan, Memory>
    requires { names.now ≡ load_names }
    ensures count { IfOk result (λ plan. plan.n ≡ n) }
    ensures plan { IfOk result IsPlan }
{
    let update = load_update(alloc, names)?;
    let query = read_query(alloc, names)?;
    Ok(Plan { n, update, query })
}

// Carries out the work of each worker of a vector, each in a thread of its own.
fn carry_out_of<R: Threads + Wait + Sync, G: Gate>(
    rt: &R,
    alloc: Global,
    site: &Site,
    workers: &mut Vec<Worker>,
    plan: &Plan,
    gate: &G,
)
    requires own { All (IsWorkerAt site.now) workers.old.items }
    requires names { site.now.names ≡ load_names }
    requires plan { IsPlan plan.now }
    ensures { AllZip (IsWorked plan.now.n site.now) workers.old.items workers.new.items }
{
    let workers = workers.as_mut_slice();
    carry_all_out(rt, alloc, site, workers, plan, gate);
}

/// Makes a load of `n` documents: four indexers, two threads of queries and two runners of the
/// topic at one new site, each with a pass and a thread of its own. Then each indexer's pass
/// delivers the topic once more, one after another, and the site is closed: its histories. A
/// write or a run that is refused ends it as want of memory does.
pub fn run_load<R: Threads + Wait + Sync, C: Clock, G: Gate>(
    rt: &R,
    alloc: Global,
    n: u64,
    clock: &C,
    gate: &G,
) -> Result<Histories, Memory>
    ensures { IfOk result (λ histories. IsLoaded n histories) }
{
    finished_loads_are_made();
    let names = collections(alloc)?;
    let plan = plan_of(alloc, &names, n)?;
    let (site, passes) = SiteOf::start(alloc, names, WRITERS, LIMIT)?;
    let mut workers = with_roles(alloc, passes, clock.now_ms())?;
    carry_out_of(rt, alloc, &site, &mut workers, &plan, gate);
    let passes = end_all(rt, alloc, &site, workers, &plan, gate)?;
    Ok(site.close(alloc, passes)?)
}
