// One file: what a read gives, and what a stop may leave.
ghost use Rattle.std.specs.Prelude.{ℕ, ◌≡◌, ◌⊎◌, ◌+◌, ◌≤◌, List, Option, Some, length, take, drop, IfOk, OnErr, OnOk};
ghost use Rattle.disk_edge.specs.Disk.{written, Elapses, Follows, HasCause, IfTold, NoMore, Only, Short, Tells, Torn};

/// The outside failed, and the count of faults rose.
#[derive(Clone, Copy, Debug, PartialEq, Eq)]
pub struct DiskFailed;

/// A file of bytes.
pub trait Disk: Drop {
    /// What a read gives, where the disk tells it. A disk that doesn't tell never does.
    ghost seen: { Self → Option (List ℕ) };

    /// What a stop at this moment may leave.
    ghost may_leave: { Self → List ℕ → Type 0 };

    /// The moment, as a number that doesn't fall.
    ghost moment: { Self → ℕ };

    /// What a stop at some moment from that one on might have left, in a call or between two.
    ghost left_since: { Self → ℕ → List ℕ → Type 0 };

    /// How often the outside has failed, as a count of 64 bits that stays at its end.
    ghost faults: { Self → ℕ };

    /// The count of faults.
    fn fault_count(&self) -> u64
        ensures { result ≡ faults self.now };

    /// How long the file is.
    fn size(&mut self) -> Result<u64, DiskFailed>
        ensures size { IfOk result (λ n. IfTold (seen self.old) (λ c. n ≡ length c)) }
        ensures seen { seen self.new ≡ seen self.old }
        ensures stop { NoMore (may_leave self.old) (may_leave self.new) }
        ensures time { Elapses (moment self.old) (moment self.new) (left_since self.old)
            (left_since self.new) (may_leave self.new) }
        ensures cause { HasCause (faults self.old) (faults self.new) result };

    /// Fills the room with the bytes from a place on.
    fn read(&mut self, from: u64, room: &mut [u8]) -> Result<(), DiskFailed>
        requires { IfTold (seen self.old) (λ c. from + length room.old ≤ length c) }
        ensures bytes { OnOk result (IfTold (seen self.old)
            (λ c. room.new ≡ take (length room.old) (drop from c))) }
        ensures seen { seen self.new ≡ seen self.old }
        ensures stop { NoMore (may_leave self.old) (may_leave self.new) }
        ensures time { Elapses (moment self.old) (moment self.new) (left_since self.old)
            (left_since self.new) (may_leave self.new) }
        ensures cause { HasCause (faults self.old) (faults self.new) result };

    /// Puts the piece from a place on, over what is there and past the end. A write that fails
    /// counts as made by all that a stop may leave.
    fn write_at(&mut self, from: u64, piece: &[u8]) -> Result<(), DiskFailed>
        requires { IfTold (seen self.old) (λ c. from ≤ length c) }
        ensures seen { OnOk result (Tells (seen self.old) (seen self.new)
            (λ c d. d ≡ written c from piece.now)) }
        ensures failed { OnErr result (Tells (seen self.old) (seen self.new)
            (Torn from piece.now)) }
        ensures stop { Follows (Torn from piece.now) (may_leave self.old) (may_leave self.new) }
        ensures time { Elapses (moment self.old) (moment self.new) (left_since self.old)
            (left_since self.new) (may_leave self.new) }
        ensures cause { HasCause (faults self.old) (faults self.new) result };

    /// Cuts the file to a length.
    fn cut(&mut self, size: u64) -> Result<(), DiskFailed>
        requires { IfTold (seen self.old) (λ c. size ≤ length c) }
        ensures seen { OnOk result (Tells (seen self.old) (seen self.new)
            (λ c d. d ≡ take size c)) }
        ensures failed { OnErr result (Tells (seen self.old) (seen self.new)
            (λ c d. (d ≡ c) ⊎ (d ≡ take size c))) }
        ensures stop { Follows (Short size) (may_leave self.old) (may_leave self.new) }
        ensures time { Elapses (moment self.old) (moment self.new) (left_since self.old)
            (left_since self.new) (may_leave self.new) }
        ensures cause { HasCause (faults self.old) (faults self.new) result };

    /// After it a stop leaves what a read gives.
    fn sync(&mut self) -> Result<(), DiskFailed>
        ensures durable { OnOk result (IfTold (seen self.old)
            (λ c. Only c (may_leave self.new))) }
        ensures seen { seen self.new ≡ seen self.old }
        ensures stop { NoMore (may_leave self.old) (may_leave self.new) }
        ensures time { Elapses (moment self.old) (moment self.new) (left_since self.old)
            (left_since self.new) (may_leave self.new) }
        ensures cause { HasCause (faults self.old) (faults self.new) result };

    // What a read gives is one of those that a stop may leave.
    ghost seen_may_stay: { (disk : Self) (c : List ℕ) → seen disk ≡ Some c → may_leave disk c };

    // This moment is one of those since an earlier one.
    ghost counts_now: { (disk : Self) (t : ℕ) (c : List ℕ) → t ≤ moment disk → may_leave disk c
        → left_since disk t c };

    // Since this moment there is no other.
    ghost only_now: { (disk : Self) (c : List ℕ) → left_since disk (moment disk) c
        → may_leave disk c };
}
