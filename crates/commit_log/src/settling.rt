// The device calls by which a further step that may stand or not is settled.
ghost use Rattle.std.specs.Prelude.{ℕ, ◌≡◌, ◌+◌, ◌^◌, ◌<◌, ◌≤◌, List, None, length, IfOk, OnErr, OnOk};
ghost use Rattle.disk_edge.specs.Disk.{HasCause, IfTold};
ghost use Rattle.commit_log.specs.Frames.{at_rest, end_of};
ghost use Rattle.commit_log.specs.Disks.{AddsOnly, GateSays, Has, HasAll, IsClosed, IsGated, Settles};

use disk_edge::{Disk, DiskFailed};

// Whether the further step stands, once all that was written is on the disk.
fn gate<D: Disk>(disk: &mut D, end: u64) -> Result<bool, DiskFailed>
    requires { IfTold (D.seen disk.old) (λ c. end + 1 ≤ length c) }
    ensures seen { D.seen disk.new ≡ D.seen disk.old }
    ensures says { IfOk result (λ stands. (bodies : List (List ℕ)) (body : List ℕ)
        → end ≡ end_of bodies → HasAll D.seen D.may_leave (IsGated bodies body) disk.old
        → GateSays D.seen D.may_leave bodies body disk.new stands) }
    ensures any_moment { (bodies : List (List ℕ)) (body : List ℕ)
        → HasAll D.seen D.may_leave (IsGated bodies body) disk.old
        → AddsOnly D.moment D.left_since disk.old disk.new (IsGated bodies body) }
    ensures untold { D.seen disk.old ≡ None → D.seen disk.new ≡ None }
    ensures cause { HasCause (D.faults disk.old) (D.faults disk.new) result }
{
    disk.sync()?;
    let mut room = [0u8; 1];
    disk.read(end, &mut room)?;
    Ok(room[0] == 1)
}

/// Cuts off what follows the byte that ends the steps.
pub(crate) fn trim<D: Disk>(disk: &mut D, end: u64) -> Result<(), DiskFailed>
    requires within { IfTold (D.seen disk.old) (λ c. end + 1 ≤ length c) }
    requires fits { end + 1 < 2 ^ 64 }
    ensures done { OnOk result ((bodies : List (List ℕ)) → end ≡ end_of bodies
        → HasAll D.seen D.may_leave (IsClosed bodies) disk.old
        → Has D.seen D.may_leave disk.new (at_rest bodies)) }
    ensures any_moment { (bodies : List (List ℕ)) → end ≡ end_of bodies
        → HasAll D.seen D.may_leave (IsClosed bodies) disk.old
        → AddsOnly D.moment D.left_since disk.old disk.new (IsClosed bodies) }
    ensures untold { D.seen disk.old ≡ None → D.seen disk.new ≡ None }
    ensures cause { HasCause (D.faults disk.old) (D.faults disk.new) result }
{
    disk.cut(end + 1)?;
    disk.sync()?;
    Ok(())
}

/// Settles the further step once all that was written is on the disk: it stands, or what lies
/// behind the byte that ends the steps is cut off.
pub(crate) fn settle<D: Disk>(disk: &mut D, end: u64) -> Result<bool, DiskFailed>
    requires within { IfTold (D.seen disk.old) (λ c. end + 1 ≤ length c) }
    requires fits { end + 1 < 2 ^ 64 }
    ensures settles { IfOk result (λ stands. (bodies : List (List ℕ)) (body : List ℕ)
        → end ≡ end_of bodies → HasAll D.seen D.may_leave (IsGated bodies body) disk.old
        → Settles D.seen D.may_leave bodies body disk.new stands) }
    ensures any_moment { (bodies : List (List ℕ)) (body : List ℕ) → end ≡ end_of bodies
        → HasAll D.seen D.may_leave (IsGated bodies body) disk.old
        → AddsOnly D.moment D.left_since disk.old disk.new (IsGated bodies body) }
    ensures untold { D.seen disk.old ≡ None → D.seen disk.new ≡ None }
    ensures cause { HasCause (D.faults disk.old) (D.faults disk.new) result }
{
    if gate(disk, end)? {
        disk.sync()?;
        return Ok(true);
    }
    trim(disk, end)?;
    Ok(false)
}
