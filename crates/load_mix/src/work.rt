// What one thread of a load does.
ghost use Rattle.std.specs.Prelude.{◌≡◌, true};
ghost use Rattle.expr_check.specs.Views.{tree_of};
ghost use Rattle.running_site.specs.Passes.{number_of, writer_of};
ghost use Rattle.running_site.specs.Sites.{IsPassAt};
ghost use Rattle.load_rules.specs.Finished.{HasWorked};
ghost use Rattle.load_rules.specs.Topic.{load_names};
ghost use Rattle.load_rules.specs.Worked.{HasRead, HasRun};
ghost use Rattle.load_mix.specs.Queries.{query_tree};
ghost use Rattle.load_mix.specs.Topic.{load_tree};
ghost use Rattle.load_mix.specs.Workers.{IsPlan, IsWorked, IsWorkerAt};

use crate::delivering::{deliver, delivery_of};
use crate::indexing::index_documents;
use crate::querying::query;
use crate::worker::Worker;
use expr_check::Checked;
use io_edge::Gate;
use load_rules::Role;
use running_site::{Pass, Site};
use std::alloc::Global;
use std::sync::Wait;
use std::thread::Threads;

/// How often a thread of queries asks, and a runner delivers.
const ROUNDS: u64 = 4;

/// What all threads of a load share: how many documents there are, the update of the topic, and the
/// query.
#[derive(Drop)]
pub struct Plan {
    pub n: u64,
    pub update: Checked,
    pub query: Checked,
}

// Asks the query several times; whether each was answered.
fn ask<R: Threads + Wait + Sync, G: Gate>(
    rt: &R,
    alloc: Global,
    site: &Site,
    pass: &mut Pass,
    checked: &Checked,
    gate: &G,
) -> bool
    requires own { IsPassAt site.now pass.old }
    requires query { tree_of checked.now ≡ query_tree }
    ensures own { IsPassAt site.now pass.new }
    ensures number { number_of pass.new ≡ number_of pass.old }
    ensures read { HasRead (writer_of pass.old) (writer_of pass.new) }
{
    for _ in 0..ROUNDS {
        match query(rt, alloc, site, pass, checked, gate) {
            Ok(tuples) => drop(tuples),
            Err(_) => return false,
        }
    }
    true
}

// Delivers the topic several times; whether each run went well.
fn run<R: Wait, G: Gate>(
    rt: &R,
    alloc: Global,
    site: &Site,
    pass: &mut Pass,
    checked: &Checked,
    gate: &G,
) -> bool
    requires own { IsPassAt site.now pass.old }
    requires names { site.now.names ≡ load_names }
    requires update { tree_of checked.now ≡ load_tree }
    ensures own { IsPassAt site.now pass.new }
    ensures number { number_of pass.new ≡ number_of pass.old }
    ensures done { result ≡ true → HasRun (writer_of pass.old) (writer_of pass.new) }
{
    let delivery = delivery_of(checked);
    for _ in 0..ROUNDS {
        match deliver(rt, alloc, site, pass, &delivery, gate) {
            Ok(()) => {}
            Err(_) => return false,
        }
    }
    true
}

// Does by a pass what the role is; whether all of it went well.
fn work<R: Threads + Wait + Sync, G: Gate>(
    rt: &R,
    alloc: Global,
    site: &Site,
    pass: &mut Pass,
    role: Role,
    plan: &Plan,
    gate: &G,
) -> bool
    requires own { IsPassAt site.now pass.old }
    requires names { site.now.names ≡ load_names }
    requires plan { IsPlan plan.now }
    ensures own { IsPassAt site.now pass.new }
    ensures number { number_of pass.new ≡ number_of pass.old }
    ensures done { result ≡ true → HasWorked plan.now.n role (writer_of pass.old)
        (writer_of pass.new) }
{
    match role {
        Role::Indexer { indexer } => {
            let indexed = index_documents(rt, alloc, site, pass, plan.n, indexer);
            indexed.is_ok()
        }
        Role::Reader => ask(rt, alloc, site, pass, &plan.query, gate),
        Role::Runner => run(rt, alloc, site, pass, &plan.update, gate),
    }
}

/// Carries out the work of a worker. It is done where all of it went well.
pub(crate) fn carry_out<R: Threads + Wait + Sync, G: Gate>(
    rt: &R,
    alloc: Global,
    site: &Site,
    worker: &mut Worker,
    plan: &Plan,
    gate: &G,
)
    requires own { IsWorkerAt site.now worker.old }
    requires names { site.now.names ≡ load_names }
    requires plan { IsPlan plan.now }
    ensures { IsWorked plan.now.n site.now worker.old worker.new }
{
    worker.is_done = work(rt, alloc, site, &mut worker.pass, worker.role, plan, gate);
}
