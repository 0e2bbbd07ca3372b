// What is kept by name: each name with the place of its disk.
ghost use Rattle.std.specs.Prelude.{◌≡◌, [], MatchOption, None, OnErr, OnOk, Some, option_copied, position};
ghost use Rattle.std.specs.Str.{bytes_eq};
ghost use Rattle.disk_edge.specs.Places.{place_of, Puts};

use std::alloc::Global;
use std::marker::Model;
use std::mem;
use tuple_values::{Memory, Text};

/// Where the disk of a name is.
#[derive(Drop)]
pub enum Place<D> {
    /// In the folder.
    Held(D),
    /// Out of it, since its count of faults was this.
    Out(u64),
}

/// A name with the place of its disk.
pub struct Slot<D> {
    name: Text,
    place: Place<D>,
}

impl<D: Drop> Drop for Slot<D> {
    fn drop(self) {
        let Slot { name, place } = self;
        drop(name);
        drop(place);
    }
}

/// Names with the places of their disks.
pub struct Named<D> {
    slots: Vec<Slot<D>>,
}

impl<D: Drop> Drop for Named<D> {
    fn drop(self) {
        let Named { slots } = self;
        drop(slots);
    }
}

impl<D> Model for Named<D> {
    ghost use Rattle.std.specs.Prelude.{List};
    ghost use Rattle.disk_edge.specs.declared.named.Slot.{Slot};

    ghost Value = { List (Slot D) };

    ghost view = { λ s. s.slots.items };
}

impl<D: Drop> Named<D> {
    /// No name.
    pub fn new(alloc: Global) -> Self
        ensures { result ≡ [] }
    {
        Named {
            slots: Vec::new(alloc),
        }
    }

    // The index of the first slot of a name.
    fn position(&self, name: &Text) -> Option<usize>
        ensures { result ≡ position (λ slot. bytes_eq slot.name name.now) self.now }
    {
        self.slots
            .iter()
            .position(|slot| slot.name.as_str() == name.as_str())
    }

    /// The place of the disk of a name.
    pub fn place(&self, name: &Text) -> Option<&Place<D>>
        ensures { option_copied result ≡ place_of self.now name.now }
    {
        match self.position(name) {
            Some(at) => Some(&self.slots[at].place),
            None => None,
        }
    }

    /// Gives the disk of a name another place, and gives what was there. Where the name isn't kept
    /// nothing changes, and the place is let go.
    pub fn swap(&mut self, name: &Text, place: Place<D>) -> Option<Place<D>>
        ensures { MatchOption result
            ((place_of self.old name.now ≡ None) × (self.new ≡ self.old))
            (λ was. (place_of self.old name.now ≡ Some was)
            × Puts self.old self.new name.now place) }
    {
        match self.position(name) {
            Some(at) => Some(mem::replace(&mut self.slots[at].place, place)),
            None => None,
        }
    }

    /// Keeps a name that wasn't kept, with its place. After an `Err` both are let go.
    pub fn add(&mut self, name: Text, place: Place<D>) -> Result<(), Memory>
        requires { place_of self.old name ≡ None }
        ensures ok { OnOk result (Puts self.old self.new name place) }
        ensures err { OnErr result (self.new ≡ self.old) }
    {
        self.slots.push(Slot { name, place })?;
        Ok(())
    }
}
