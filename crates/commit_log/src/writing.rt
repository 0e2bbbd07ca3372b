// The device calls of an append.
ghost use Rattle.std.specs.Prelude.{ℕ, ◌≡◌, ◌+◌, ◌^◌, ◌<◌, ◌≤◌, List, ◌++◌, ◌∷◌, [], None, length, OnErr, OnOk};
ghost use Rattle.disk_edge.specs.Disk.{HasCause, IfTold};
ghost use Rattle.commit_log.specs.Frames.{at_rest, end_of, sized, staged};
ghost use Rattle.commit_log.specs.Disks.{AddsOnly, Has, HasAll, IsClosed, IsGated};

use disk_edge::{Disk, DiskFailed};

// Puts a body behind the byte that ends the steps, and a byte that ends it.
fn stage<D: Disk>(disk: &mut D, end: u64, piece: &[u8]) -> Result<(), DiskFailed>
    requires within { IfTold (D.seen disk.old) (λ c. end + 1 ≤ length c) }
    requires fits { end + 1 < 2 ^ 64 }
    ensures long { OnOk result (IfTold (D.seen disk.new) (λ c. end + 1 ≤ length c)) }
    ensures staged { OnOk result ((bodies : List (List ℕ)) (body : List ℕ) → end ≡ end_of bodies
        → piece.now ≡ sized body ++ (0 ∷ []) → Has D.seen D.may_leave disk.old (at_rest bodies)
        → Has D.seen D.may_leave disk.new (staged bodies body)) }
    ensures failed { OnErr result ((bodies : List (List ℕ)) → end ≡ end_of bodies
        → Has D.seen D.may_leave disk.old (at_rest bodies)
        → HasAll D.seen D.may_leave (IsClosed bodies) disk.new) }
    ensures any_moment { (bodies : List (List ℕ)) → end ≡ end_of bodies
        → Has D.seen D.may_leave disk.old (at_rest bodies)
        → AddsOnly D.moment D.left_since disk.old disk.new (IsClosed bodies) }
    ensures untold { D.seen disk.old ≡ None → D.seen disk.new ≡ None }
    ensures cause { HasCause (D.faults disk.old) (D.faults disk.new) result }
{
    disk.write_at(end + 1, piece)?;
    disk.sync()?;
    Ok(())
}

// Writes the byte that says that the further step stands.
fn open_gate<D: Disk>(disk: &mut D, end: u64) -> Result<(), DiskFailed>
    requires { IfTold (D.seen disk.old) (λ c. end + 1 ≤ length c) }
    ensures stands { OnOk result ((bodies : List (List ℕ)) (body : List ℕ) → end ≡ end_of bodies
        → Has D.seen D.may_leave disk.old (staged bodies body)
        → Has D.seen D.may_leave disk.new (at_rest (bodies ++ body ∷ []))) }
    ensures failed { OnErr result ((bodies : List (List ℕ)) (body : List ℕ) → end ≡ end_of bodies
        → Has D.seen D.may_leave disk.old (staged bodies body)
        → HasAll D.seen D.may_leave (IsGated bodies body) disk.new) }
    ensures any_moment { (bodies : List (List ℕ)) (body : List ℕ) → end ≡ end_of bodies
        → Has D.seen D.may_leave disk.old (staged bodies body)
        → AddsOnly D.moment D.left_since disk.old disk.new (IsGated bodies body) }
    ensures untold { D.seen disk.old ≡ None → D.seen disk.new ≡ None }
    ensures cause { HasCause (D.faults disk.old) (D.faults disk.new) result }
{
    disk.write_at(end, &[1])?;
    disk.sync()?;
    Ok(())
}

/// Puts a step behind the byte that ends the steps, and then writes over it that the step stands.
pub(crate) fn commit<D: Disk>(disk: &mut D, end: u64, piece: &[u8]) -> Result<(), DiskFailed>
    requires within { IfTold (D.seen disk.old) (λ c. end + 1 ≤ length c) }
    requires fits { end + 1 < 2 ^ 64 }
    ensures stands { OnOk result ((bodies : List (List ℕ)) (body : List ℕ) → end ≡ end_of bodies
        → piece.now ≡ sized body ++ (0 ∷ []) → Has D.seen D.may_leave disk.old (at_rest bodies)
        → Has D.seen D.may_leave disk.new (at_rest (bodies ++ body ∷ []))) }
    ensures failed { OnErr result ((bodies : List (List ℕ)) (body : List ℕ) → end ≡ end_of bodies
        → piece.now ≡ sized body ++ (0 ∷ []) → Has D.seen D.may_leave disk.old (at_rest bodies)
        → HasAll D.seen D.may_leave (IsGated bodies body) disk.new) }
    ensures any_moment { (bodies : List (List ℕ)) (body : List ℕ) → end ≡ end_of bodies
        → piece.now ≡ sized body ++ (0 ∷ []) → Has D.seen D.may_leave disk.old (at_rest bodies)
        → AddsOnly D.moment D.left_since disk.old disk.new (IsGated bodies body) }
    ensures untold { D.seen disk.old ≡ None → D.seen disk.new ≡ None }
    ensures cause { HasCause (D.faults disk.old) (D.faults disk.new) result }
{
    stage(disk, end, piece)?;
    open_gate(disk, end)?;
    Ok(())
}
