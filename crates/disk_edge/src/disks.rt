// Files by name.
ghost use Rattle.std.specs.Prelude.{ℕ, ◌≡◌, Bool, IfOk, IsErr, IsSome, None, OnErr, Some};
ghost use Rattle.disk_edge.specs.Disk.{HasCause};
ghost use Rattle.disk_edge.specs.Folder.{ComesBack, CountsFaults, Folder, GoesOut, IsNew, Stays};

use crate::{Disk, DiskFailed};
use tuple_values::Text;

/// A folder of disks, which go out of it and come back.
pub trait Disks: Drop {
    type Disk: Disk;

    /// Whether folders of this kind tell which disks they hold.
    ghost tells: { Bool };

    /// The disks that are held, where they are told, and the names of those that are out.
    ghost folder: { Self → Folder Self.Disk };

    /// How often the outside has failed, as a count of 64 bits that stays at its end.
    ghost faults: { Self → ℕ };

    /// The disk of a name, which is then out. A disk that was never there is new and empty.
    fn disk(&mut self, name: &Text) -> Result<Self::Disk, DiskFailed>
        ensures ok { IfOk result (GoesOut tells Self.Disk.faults
            (IsNew Self.Disk.seen Self.Disk.may_leave)
            (folder self.old) (folder self.new) name.now) }
        ensures is_out { IsSome ((folder self.old).out name.now) → IsErr result }
        ensures err { OnErr result (Stays (folder self.old) (folder self.new)) }
        ensures cause { HasCause (faults self.old) (faults self.new) result };

    /// Takes a disk back under its name, where the disk of that name is out. Else it is let go.
    fn back(&mut self, name: &Text, disk: Self::Disk)
        ensures back { IsSome ((folder self.old).out name.now)
            → ComesBack tells (folder self.old) (folder self.new) name.now disk }
        ensures not_out { (folder self.old).out name.now ≡ None
            → Stays (folder self.old) (folder self.new) }
        ensures cause { CountsFaults (faults self.old) (faults self.new)
            ((folder self.old).out name.now) (Self.Disk.faults disk) };
}
