// One step at a shard.
ghost use Rattle.std.specs.Prelude.{◌≡◌, ◌+◌, ◌<◌, ◌^◌, ◌≤◌, ◌++◌, ◌∷◌, [], List, IfOk, get_or, length, if◌then◌else◌};
ghost use Rattle.shard_versions.specs.Deliveries.{mark_by};
ghost use Rattle.exchange_rules.specs.Calls.{Passed, PassedSent, IsFaultFor};
ghost use Rattle.exchange_rules.specs.Cells.{Log, history_in};
ghost use Rattle.exchange_rules.specs.declared.fault.SiteFault.TheVariants.{LogFault};
ghost use Rattle.exchange_rules.specs.Deliveries.{admitted_kinds, send_admitted, send_step};
ghost use Rattle.exchange_rules.specs.Following.{Grows};
ghost use Rattle.exchange_rules.specs.Rows.{HasCell};
ghost use Rattle.exchange_rules.specs.Steps.{AreBy, closed, fitting, kinds_of, commit_shard_course, commit_unless, commit_pending, step_course, write_course, writes_in};
ghost use Rattle.site_laws.specs.Duties.{IsFitStep, MayDeliver, MayWrite};
ghost use Rattle.stream_site.specs.Spots.{full_there};

use crate::refusal::{StepRefusal, unseen};
use crate::spot::Spot;
use crate::{SiteFault, Turns};
use shard_versions::{Entry, Step};
use std::alloc::Global;
use tuple_values::{Memory, TryCopy};

/// The refusal of a step where the call is.
fn full_at(alloc: Global, at: &Spot) -> SiteFault
    ensures { IsFaultFor (full_there at.now) at.now.stand result }
{
    let (shard, stand) = (at.shard, at.stand);
    match at.collection.copy(alloc) {
        Ok(collection) => SiteFault::ShardFull {
            collection,
            shard,
            stand,
        },
        Err(_) => SiteFault::OutOfMemory { stand },
    }
}

/// The fault of the log where the call is, when so many more of its writes stand.
fn broken_at(at: &Spot, writes: u64) -> SiteFault
    requires { at.now.stand + writes < 2 ^ 64 }
    ensures { result ≡ LogFault at.now.cell (at.now.stand + writes) }
{
    SiteFault::LogFault {
        cell: at.cell,
        stand: at.stand + writes,
    }
}

/// The step behind what was just seen of the cell, unless it doesn't fit.
fn append_over<T: Turns>(
    alloc: Global,
    site: &mut T,
    at: &Spot,
    step: Step,
) -> Result<(), SiteFault>
    requires in_range { HasCell (T.layout site.old) (T.writer site.old) at.now.cell }
    requires holds { T.holds site.old at.now.cell }
    requires allowed { MayWrite (T.layout site.old).names (T.writer site.old).me
        (T.writer site.old).seen at.now.cell step }
    requires few { at.now.stand + writes_in (kinds_of step) < 2 ^ 64 }
    ensures course { Passed at.now.stand (T.writer site.old) (T.writer site.new)
        (fitting (T.layout site.old).limit at.now.cell (kinds_of step)
        (full_there at.now)
        (history_in (get_or (T.writer site.old).seen at.now.cell [])))
        (writes_in (kinds_of step)) result }
    ensures layout { T.layout site.new ≡ T.layout site.old }
    ensures home { T.home site.new ≡ T.home site.old }
{
    match site.seal(at.cell, step) {
        Ok(()) => Ok(()),
        Err(StepRefusal::ShardFull) => Err(full_at(alloc, at)),
        Err(StepRefusal::Broken { writes }) => Err(broken_at(at, writes)),
        Err(StepRefusal::OutOfMemory) => Err(SiteFault::OutOfMemory { stand: at.stand }),
    }
}

/// One look, and the step unless it doesn't fit.
fn step_over<T: Turns>(alloc: Global, site: &mut T, at: &Spot, step: Step) -> Result<(), SiteFault>
    requires in_range { HasCell (T.layout site.old) (T.writer site.old) at.now.cell }
    requires own { AreBy (T.writer site.old).me step }
    requires filled { 0 < length step }
    requires fit { IsFitStep (T.layout site.old).names at.now.cell step }
    requires few { at.now.stand + writes_in (kinds_of step) < 2 ^ 64 }
    ensures course { Passed at.now.stand (T.writer site.old) (T.writer site.new)
        (step_course (T.layout site.old).limit at.now.cell (kinds_of step)
        (full_there at.now))
        (writes_in (kinds_of step)) result }
    ensures layout { T.layout site.new ≡ T.layout site.old }
    ensures home { T.home site.new ≡ T.home site.old }
{
    match site.look(at.cell) {
        Ok(()) => append_over(alloc, site, at, step),
        Err(refusal) => Err(unseen(refusal, at.stand)),
    }
}

/// The writer's step with a Mark behind it, where there is a commit.
pub fn close(mut step: Step, writer: u64, commit: bool) -> Result<Step, Memory>
    ensures { IfOk result (λ s. s ≡ (if commit then step ++ mark_by writer ∷ [] else step)) }
{
    if commit {
        step.push(Entry::mark(writer))?;
    }
    Ok(step)
}

/// The step, which ends with a Mark where there is a commit; nothing where there is no write.
pub(crate) fn write_over<T: Turns>(
    alloc: Global,
    site: &mut T,
    at: &Spot,
    step: Step,
    commit: bool,
) -> Result<(), SiteFault>
    requires in_range { HasCell (T.layout site.old) (T.writer site.old) at.now.cell }
    requires own { AreBy (T.writer site.old).me step }
    requires fit { IsFitStep (T.layout site.old).names at.now.cell step }
    requires few { at.now.stand + writes_in (kinds_of step) < 2 ^ 64 }
    ensures course { Passed at.now.stand (T.writer site.old) (T.writer site.new)
        (write_course (T.layout site.old).limit at.now.cell (closed commit (kinds_of step))
        (full_there at.now))
        (writes_in (kinds_of step)) result }
    ensures layout { T.layout site.new ≡ T.layout site.old }
    ensures home { T.home site.new ≡ T.home site.old }
{
    if step.len() == 0 {
        return Ok(());
    }
    match close(step, site.number(), commit) {
        Ok(step) => step_over(alloc, site, at, step),
        Err(_) => Err(SiteFault::OutOfMemory { stand: at.stand }),
    }
}

/// The step of one Mark.
fn mark_step(alloc: Global, writer: u64) -> Result<Step, Memory>
    ensures { IfOk result (λ s. s ≡ mark_by writer ∷ []) }
{
    let mut step = Step::new(alloc);
    step.push(Entry::mark(writer))?;
    Ok(step)
}

/// A Mark where a write is pending in what was just seen of the cell.
fn commit_pending_over<T: Turns>(alloc: Global, site: &mut T, at: &Spot) -> Result<(), SiteFault>
    requires in_range { HasCell (T.layout site.old) (T.writer site.old) at.now.cell }
    requires holds { T.holds site.old at.now.cell }
    ensures course { Passed at.now.stand (T.writer site.old) (T.writer site.new)
        (commit_pending (T.layout site.old).limit at.now.cell (full_there at.now)
        (history_in (get_or (T.writer site.old).seen at.now.cell []))) 0 result }
    ensures layout { T.layout site.new ≡ T.layout site.old }
    ensures home { T.home site.new ≡ T.home site.old }
{
    if !site.is_pending(at.cell) {
        return Ok(());
    }
    match mark_step(alloc, site.number()) {
        Ok(step) => append_over(alloc, site, at, step),
        Err(_) => Err(SiteFault::OutOfMemory { stand: at.stand }),
    }
}

/// One look, and a Mark where a write is pending at it.
fn commit_shard_over<T: Turns>(alloc: Global, site: &mut T, at: &Spot) -> Result<(), SiteFault>
    requires { HasCell (T.layout site.old) (T.writer site.old) at.now.cell }
    ensures course { Passed at.now.stand (T.writer site.old) (T.writer site.new)
        (commit_shard_course (T.layout site.old).limit at.now.cell
        (full_there at.now)) 0 result }
    ensures layout { T.layout site.new ≡ T.layout site.old }
    ensures home { T.home site.new ≡ T.home site.old }
{
    match site.look(at.cell) {
        Ok(()) => commit_pending_over(alloc, site, at),
        Err(refusal) => Err(unseen(refusal, at.stand)),
    }
}

/// The shard is committed, unless so many writes went there.
pub(crate) fn commit_unless_over<T: Turns>(
    alloc: Global,
    site: &mut T,
    at: &Spot,
    writes: usize,
) -> Result<(), SiteFault>
    requires { HasCell (T.layout site.old) (T.writer site.old) at.now.cell }
    ensures course { Passed at.now.stand (T.writer site.old) (T.writer site.new)
        (commit_unless (T.layout site.old).limit at.now.cell writes
        (full_there at.now)) 0 result }
    ensures layout { T.layout site.new ≡ T.layout site.old }
    ensures home { T.home site.new ≡ T.home site.old }
{
    if writes > 0 {
        return Ok(());
    }
    commit_shard_over(alloc, site, at)
}

/// What of the step is admitted at one look, and a Mark; nothing where the step has no entry. The
/// answer is how many entries were admitted.
pub(crate) fn deliver_over<T: Turns>(
    alloc: Global,
    site: &mut T,
    at: &Spot,
    step: Step,
) -> Result<u64, SiteFault>
    requires in_range { HasCell (T.layout site.old) (T.writer site.old) at.now.cell }
    requires allowed { 0 < length step → (seen : List Log) → Grows (T.writer site.old).seen seen
        → MayDeliver (T.layout site.old).names (T.writer site.old).me seen at.now.cell step }
    requires few { at.now.stand + length step < 2 ^ 64 }
    ensures course { PassedSent at.now.stand (T.writer site.old) (T.writer site.new)
        (send_step (T.layout site.old).limit at.now.cell (full_there at.now)
        (kinds_of step)) result }
    ensures few { IfOk result (λ n. n ≤ length step) }
    ensures layout { T.layout site.new ≡ T.layout site.old }
    ensures home { T.home site.new ≡ T.home site.old }
{
    if step.len() == 0 {
        return Ok(0);
    }
    match site.look(at.cell) {
        Ok(()) => deliver_seen_over(alloc, site, at, step),
        Err(refusal) => Err(unseen(refusal, at.stand)),
    }
}

/// The same by what was just seen of the cell.
fn deliver_seen_over<T: Turns>(
    alloc: Global,
    site: &mut T,
    at: &Spot,
    step: Step,
) -> Result<u64, SiteFault>
    requires in_range { HasCell (T.layout site.old) (T.writer site.old) at.now.cell }
    requires holds { T.holds site.old at.now.cell }
    requires allowed { MayDeliver (T.layout site.old).names (T.writer site.old).me
        (T.writer site.old).seen at.now.cell step }
    requires few { at.now.stand + length step < 2 ^ 64 }
    ensures course { PassedSent at.now.stand (T.writer site.old) (T.writer site.new)
        (send_admitted (T.layout site.old).limit at.now.cell (full_there at.now)
        (history_in (get_or (T.writer site.old).seen at.now.cell []))
        (admitted_kinds (history_in (get_or (T.writer site.old).seen at.now.cell []))
        (kinds_of step)))
        result }
    ensures few { IfOk result (λ n. n ≤ length step) }
    ensures layout { T.layout site.new ≡ T.layout site.old }
    ensures home { T.home site.new ≡ T.home site.old }
{
    match site.deliver(at.cell, step) {
        Ok(admitted) => Ok(admitted),
        Err(StepRefusal::ShardFull) => Err(full_at(alloc, at)),
        Err(StepRefusal::Broken { writes }) => Err(broken_at(at, writes)),
        Err(StepRefusal::OutOfMemory) => Err(SiteFault::OutOfMemory { stand: at.stand }),
    }
}
