// A folder in memory, which tells what it holds.
ghost use Rattle.std.specs.Prelude.{◌≡◌, ◌≤◌, [], true, IfNone, IfOk, IfSome, IsErr, IsNone, IsOk, IsSome, false, None, OnErr, OnOk, Some, option_copied};
ghost use Rattle.io_edge.specs.Edge.{Rose};
ghost use Rattle.io_edge.specs.Memory.{fails, raised};
ghost use Rattle.disk_edge.specs.Disk.{HasCause};
ghost use Rattle.disk_edge.specs.Folder.{ComesBack, CountsFaults, Stays};
ghost use Rattle.disk_edge.specs.Folders.{folder_of, fresh_folder, Gives, HandsOut};
ghost use Rattle.disk_edge.specs.Memory.{fresh_disk};
ghost use Rattle.disk_edge.specs.Places.{held_of, out_of, place_of, Puts};
ghost use Rattle.disk_edge.specs.declared.named.Place.TheVariants.{Held, Out};

use crate::named::{Named, Place};
use crate::{Disk, DiskFailed, Disks, MemoryDisk};
use std::alloc::Global;
use std::marker::Model;
use tuple_values::{Bytes, Memory, Numbers, Text, TryCopy};

/// Disks in memory by name, with calls that are to fail.
pub struct MemoryDisks {
    alloc: Global,
    slots: Named<MemoryDisk>,
    calls: u64,
    failing: Numbers,
    faults: u64,
}

impl Drop for MemoryDisks {
    fn drop(self) {
        let MemoryDisks {
            alloc: _,
            slots,
            calls: _,
            failing,
            faults: _,
        } = self;
        drop(slots);
        drop(failing);
    }
}

impl Model for MemoryDisks {
    ghost use Rattle.disk_edge.specs.Folders.{MemoryFolder};

    ghost Value = { MemoryFolder };

    ghost view = { λ s. record {
      slots = s.slots;
      calls = s.calls;
      failing = s.failing;
      faults = s.faults;
    } };
}

impl MemoryDisks {
    /// A folder of no disk. The calls of `disk` whose numbers, counted from 0, are in `failing`
    /// fail. Takes no memory.
    pub fn new(alloc: Global, failing: Numbers) -> Self
        ensures { result ≡ fresh_folder failing }
    {
        MemoryDisks {
            alloc,
            slots: Named::new(alloc),
            calls: 0,
            failing,
            faults: 0,
        }
    }

    /// Holds a disk under a name, in place of the one that was there. After an `Err` both are let
    /// go.
    pub fn hold(&mut self, name: Text, disk: MemoryDisk) -> Result<(), Memory>
        ensures ok { OnOk result (ComesBack true (folder_of self.old) (folder_of self.new)
            name disk) }
        ensures err { OnErr result (self.new ≡ self.old) }
        ensures same { self.new ≡ record self.old { slots = self.new.slots } }
    {
        if self.slots.place(&name).is_some() {
            let _before = self.slots.swap(&name, Place::Held(disk));
            return Ok(());
        }
        self.slots.add(name, Place::Held(disk))
    }

    /// The disk that is held under a name; none where it is out or was never there.
    pub fn held(&self, name: &Text) -> Option<&MemoryDisk>
        ensures { option_copied result ≡ held_of self.now.slots name.now }
    {
        match self.slots.place(name) {
            Some(Place::Held(disk)) => Some(disk),
            _ => None,
        }
    }

    /// How often a call of `disk` failed or a disk came back that had failed outside, as a count
    /// that stays at its end.
    pub fn faults(&self) -> u64
        ensures { result ≡ self.now.faults }
    {
        self.faults
    }

    // One more call. Answers whether it is to fail.
    fn call(&mut self) -> bool
        ensures fails { result ≡ fails self.old.calls self.old.failing }
        ensures after { self.new ≡ record self.old { calls = raised self.old.calls } }
    {
        let call = self.calls;
        self.calls = self.calls.saturating_add(1);
        self.failing.as_slice().contains(&call)
    }

    // One more fault.
    fn fail(&mut self) -> DiskFailed
        ensures after { self.new ≡ record self.old { faults = raised self.old.faults } }
        ensures rose { (self.old.faults ≤ self.new.faults) × Rose self.old.faults self.new.faults }
    {
        self.faults = self.faults.saturating_add(1);
        DiskFailed
    }

    // The disk of a name, which is then out; none where it is out already or memory is wanting.
    fn take(&mut self, name: &Text) -> Option<MemoryDisk>
        ensures some { IfSome result (HandsOut self.old self.new name.now) }
        ensures none { IfNone result (self.new ≡ self.old) }
        ensures is_out { IsSome (out_of self.old.slots name.now) → IsNone result }
        ensures is_held { IsSome (held_of self.old.slots name.now) → IsSome result }
        ensures after { self.new ≡ record self.old { slots = self.new.slots } }
    {
        match self.slots.place(name) {
            Some(Place::Out(_)) => None,
            Some(Place::Held(disk)) => {
                let at = disk.faults();
                self.take_held(name, at)
            }
            None => self.make(name),
        }
    }

    // The disk that is held under a name, whose count of faults is this.
    fn take_held(&mut self, name: &Text, at: u64) -> Option<MemoryDisk>
        ensures held { (disk : _) → place_of self.old.slots name.now ≡ Some (Held disk)
            → (result ≡ Some disk) × Puts self.old.slots self.new.slots name.now (Out at) }
        ensures after { self.new ≡ record self.old { slots = self.new.slots } }
    {
        match self.slots.swap(name, Place::Out(at)) {
            Some(Place::Held(disk)) => Some(disk),
            _ => None,
        }
    }

    // A new disk of a name that was never there.
    fn make(&mut self, name: &Text) -> Option<MemoryDisk>
        requires { place_of self.old.slots name.now ≡ None }
        ensures some { IfSome result (λ disk. (disk ≡ fresh_disk [] [])
            × Puts self.old.slots self.new.slots name.now (Out 0)) }
        ensures none { IfNone result (self.new ≡ self.old) }
        ensures after { self.new ≡ record self.old { slots = self.new.slots } }
    {
        let alloc = self.alloc;
        let disk = MemoryDisk::new(alloc, Bytes::new(alloc), Numbers::new(alloc)).ok()?;
        let name = name.copy(alloc).ok()?;
        self.slots.add(name, Place::Out(0)).ok()?;
        Some(disk)
    }
}

impl Disks for MemoryDisks {
    type Disk = MemoryDisk;

    ghost tells = { true };

    ghost folder = { λ s. folder_of s };

    ghost faults = { λ s. s.faults };

    /// A call that isn't to fail fails where the disk is out, and where memory is wanting for a new
    /// one.
    fn disk(&mut self, name: &Text) -> Result<MemoryDisk, DiskFailed>
        ensures ok { IfOk result (HandsOut self.old self.new name.now) }
        ensures is_out { IsSome (out_of self.old.slots name.now) → IsErr result }
        ensures is_held { fails self.old.calls self.old.failing ≡ false
            → IsSome (held_of self.old.slots name.now) → IsOk result }
        ensures err { OnErr result (Stays (folder_of self.old) (folder_of self.new)) }
        ensures cause { HasCause self.old.faults self.new.faults result }
        ensures after { Gives self.old self.new result }
    {
        let fails = self.call();
        if fails {
            return Err(self.fail());
        }
        match self.take(name) {
            Some(disk) => Ok(disk),
            None => Err(self.fail()),
        }
    }

    fn back(&mut self, name: &Text, disk: MemoryDisk)
        ensures back { IsSome (out_of self.old.slots name.now)
            → ComesBack true (folder_of self.old) (folder_of self.new) name.now disk }
        ensures not_out { out_of self.old.slots name.now ≡ None
            → Stays (folder_of self.old) (folder_of self.new) }
        ensures cause { CountsFaults self.old.faults self.new.faults
            (out_of self.old.slots name.now) disk.faults }
        ensures same { self.new ≡ record self.old {
          slots = self.new.slots;
          faults = self.new.faults;
        } }
    {
        let Some(Place::Out(at)) = self.slots.place(name) else {
            return;
        };
        let rose = *at < disk.faults() || disk.faults() == u64::MAX;
        let _out = self.slots.swap(name, Place::Held(disk));
        if rose {
            self.faults = self.faults.saturating_add(1);
        }
    }
}
