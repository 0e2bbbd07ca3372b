// What is done behind the threads of a load, one worker after another.
ghost use Rattle.std.specs.Prelude.{◌≡◌, All, IfOk, OnOk};
ghost use Rattle.std.specs.List.{AllZip};
ghost use Rattle.expr_check.specs.Views.{tree_of};
ghost use Rattle.running_site.specs.Passes.{number_of, writer_of};
ghost use Rattle.running_site.specs.Sites.{IsPassAt};
ghost use Rattle.load_rules.specs.Finished.{HasEnded};
ghost use Rattle.load_rules.specs.Topic.{load_names};
ghost use Rattle.load_rules.specs.Worked.{HasDelivered};
ghost use Rattle.load_mix.specs.Topic.{load_tree};
ghost use Rattle.load_mix.specs.Workers.{IsEnded, IsPlan, IsWorkerAt};

use crate::delivering::{deliver, delivery_of};
use crate::work::Plan;
use crate::worker::{Worker, WorkerOf};
use expr_check::Checked;
use io_edge::Gate;
use load_rules::Role;
use running_site::{Pass, Passes, Site};
use std::alloc::Global;
use std::sync::Wait;
use tuple_values::Memory;

// Delivers the topic once more.
fn run_again<R: Wait, G: Gate>(
    rt: &R,
    alloc: Global,
    site: &Site,
    pass: &mut Pass,
    checked: &Checked,
    gate: &G,
) -> Result<(), Memory>
    requires own { IsPassAt site.now pass.old }
    requires names { site.now.names ≡ load_names }
    requires update { tree_of checked.now ≡ load_tree }
    ensures own { IsPassAt site.now pass.new }
    ensures number { number_of pass.new ≡ number_of pass.old }
    ensures done { OnOk result (HasDelivered (writer_of pass.old) (writer_of pass.new)) }
{
    let delivery = delivery_of(checked);
    match deliver(rt, alloc, site, pass, &delivery, gate) {
        Ok(()) => Ok(()),
        Err(_) => Err(Memory::OutOfMemory),
    }
}

// Does by a pass what the role ends with: an indexer delivers the topic once more.
fn end<R: Wait, G: Gate>(
    rt: &R,
    alloc: Global,
    site: &Site,
    pass: &mut Pass,
    role: Role,
    plan: &Plan,
    gate: &G,
) -> Result<(), Memory>
    requires own { IsPassAt site.now pass.old }
    requires names { site.now.names ≡ load_names }
    requires plan { IsPlan plan.now }
    ensures own { IsPassAt site.now pass.new }
    ensures number { number_of pass.new ≡ number_of pass.old }
    ensures ended { OnOk result (HasEnded role (writer_of pass.old) (writer_of pass.new)) }
{
    match role {
        Role::Indexer { indexer: _ } => run_again(rt, alloc, site, pass, &plan.update, gate),
        Role::Reader | Role::Runner => Ok(()),
    }
}

// The pass of a worker, where it is done, behind what its role ends with.
fn end_worker<R: Wait, G: Gate>(
    rt: &R,
    alloc: Global,
    site: &Site,
    worker: Worker,
    plan: &Plan,
    gate: &G,
) -> Result<Pass, Memory>
    requires own { IsWorkerAt site.now worker }
    requires names { site.now.names ≡ load_names }
    requires plan { IsPlan plan.now }
    ensures { IfOk result (IsEnded site.now worker) }
{
    let WorkerOf {
        mut pass,
        role,
        is_done,
    } = worker;
    if !is_done {
        return Err(Memory::OutOfMemory);
    }
    end(rt, alloc, site, &mut pass, role, plan, gate)?;
    Ok(pass)
}

/// The passes of the workers, in order, each behind what its role ends with. A worker that isn't
/// done wanted memory, or a run was refused.
pub(crate) fn end_all<R: Wait, G: Gate>(
    rt: &R,
    alloc: Global,
    site: &Site,
    workers: Vec<Worker>,
    plan: &Plan,
    gate: &G,
) -> Result<Passes, Memory>
    requires own { All (IsWorkerAt site.now) workers.items }
    requires names { site.now.names ≡ load_names }
    requires plan { IsPlan plan.now }
    ensures { IfOk result (AllZip (IsEnded site.now) workers.items) }
{
    let mut passes = Passes::new(alloc);
    for worker in workers {
        passes.push(end_worker(rt, alloc, site, worker, plan, gate)?)?;
    }
    Ok(passes)
}
