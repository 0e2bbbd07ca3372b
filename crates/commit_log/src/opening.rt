// How a file is opened as a log.
ghost use Rattle.std.specs.Prelude.{ℕ, ◌≡◌, ◌≤◌, List, [], None, Some, length, IfErr, IfOk, IsErrOf, OnErr, OnOk};
ghost use Rattle.io_edge.specs.Edge.{Rose};
ghost use Rattle.disk_edge.specs.Disk.{HasCause, IfTold, Only};
ghost use Rattle.commit_log.specs.Frames.{at_rest, end_of};
ghost use Rattle.commit_log.specs.Steps.{bodies_of, AreSteps, Step};
ghost use Rattle.commit_log.specs.Files.{Explains, IsFileOf, StandsFor};
ghost use Rattle.commit_log.specs.Disks.{AddsOnly, Has, IsLeft};
ghost use Rattle.commit_log.specs.Stops.{file_of, IsBegun, KeepsSteps};

use crate::LogFault;
use crate::frames::{Found, read_steps};
use crate::settling::trim;
use disk_edge::{Disk, DiskFailed};
use log_codec::LogSteps;
use std::alloc::Global;

// A file of no step.
const NEW: [u8; 9] = [83, 83, 76, 79, 71, 48, 48, 49, 0];

// All bytes of a file.
fn read_all<D: Disk>(alloc: Global, disk: &mut D) -> Result<Vec<u8>, LogFault>
    ensures bytes { IfOk result (λ bytes. IfTold (D.seen disk.old) (λ c. bytes.items ≡ c)) }
    ensures left { IsLeft D.seen D.may_leave D.moment D.left_since disk.old disk.new }
    ensures calm { IfErr result (λ fault. (at : ℕ) → ¬ (fault ≡ LogFault.Damaged at)) }
    ensures cause { (D.faults disk.old ≤ D.faults disk.new)
        × (IsErrOf result LogFault.DiskFault → Rose (D.faults disk.old) (D.faults disk.new)) }
{
    let size = disk.size()?;
    let mut bytes = Vec::new(alloc);
    bytes.resize(size as usize, 0)?;
    disk.read(0, &mut bytes)?;
    Ok(bytes)
}

// All bytes of a file, once no earlier write is pending.
fn load<D: Disk>(alloc: Global, disk: &mut D) -> Result<Vec<u8>, LogFault>
    ensures bytes { IfOk result (λ bytes. IfTold (D.seen disk.old) (λ c. (bytes.items ≡ c)
        × Only c (D.may_leave disk.new))) }
    ensures left { IsLeft D.seen D.may_leave D.moment D.left_since disk.old disk.new }
    ensures calm { IfErr result (λ fault. (at : ℕ) → ¬ (fault ≡ LogFault.Damaged at)) }
    ensures cause { (D.faults disk.old ≤ D.faults disk.new)
        × (IsErrOf result LogFault.DiskFault → Rose (D.faults disk.old) (D.faults disk.new)) }
{
    disk.sync()?;
    match read_all(alloc, disk) {
        Ok(bytes) => Ok(bytes),
        Err(fault) => Err(fault),
    }
}

// Makes an empty file one of no step.
fn begin<D: Disk>(disk: &mut D) -> Result<(), DiskFailed>
    requires { IfTold (D.seen disk.old) (λ c. c ≡ []) }
    ensures new { OnOk result (IfTold (D.seen disk.new) (λ c. (c ≡ at_rest [])
        × Only c (D.may_leave disk.new))) }
    ensures any_moment { ((c : List ℕ) → D.may_leave disk.old c → IsBegun c)
        → AddsOnly D.moment D.left_since disk.old disk.new IsBegun }
    ensures untold { D.seen disk.old ≡ None → D.seen disk.new ≡ None }
    ensures cause { HasCause (D.faults disk.old) (D.faults disk.new) result }
{
    disk.write_at(0, &NEW)?;
    disk.sync()?;
    Ok(())
}

/// Reads the steps of a file, and cuts off what follows them; an empty file becomes one of no step.
pub(crate) fn open<D: Disk>(alloc: Global, disk: &mut D) -> Result<Found, LogFault>
    ensures end { IfOk result (λ found. (found.end ≡ end_of (bodies_of found.steps))
        × AreSteps found.steps) }
    ensures found { IfOk result (λ found. (file : List ℕ) → D.seen disk.old ≡ Some file
        → StandsFor file found.steps) }
    ensures settled { IfOk result (λ found. IfTold (D.seen disk.new) (λ file.
        (file ≡ file_of found.steps) × Only file (D.may_leave disk.new))) }
    ensures fault { IfErr result (λ fault. (file : List ℕ) → D.seen disk.old ≡ Some file
        → Explains file fault) }
    ensures left { IfErr result (λ fault. ¬ (fault ≡ LogFault.DiskFault)
        → IsLeft D.seen D.may_leave D.moment D.left_since disk.old disk.new) }
    ensures any_moment { (file : List ℕ) (steps : List Step) → D.seen disk.old ≡ Some file
        → IsFileOf steps file → ((c : List ℕ) → D.may_leave disk.old c → KeepsSteps steps c)
        → AddsOnly D.moment D.left_since disk.old disk.new (KeepsSteps steps) }
    ensures begun { D.seen disk.old ≡ Some [] → ((c : List ℕ) → D.may_leave disk.old c → IsBegun c)
        → AddsOnly D.moment D.left_since disk.old disk.new IsBegun }
    ensures cause { (D.faults disk.old ≤ D.faults disk.new)
        × (IsErrOf result LogFault.DiskFault → Rose (D.faults disk.old) (D.faults disk.new)) }
{
    let bytes = match load(alloc, disk) {
        Ok(bytes) => bytes,
        Err(fault) => return Err(fault),
    };
    if bytes.is_empty() {
        begin(disk)?;
        return Ok(Found {
            steps: LogSteps::new(alloc),
            end: 8,
        });
    }
    let found = match read_steps(alloc, &bytes) {
        Ok(found) => found,
        Err(damage) => return Err(damage),
    };
    trim(disk, found.end)?;
    Ok(found)
}
