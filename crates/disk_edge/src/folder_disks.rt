// The current folder of the system, which doesn't tell what it holds.
ghost use Rattle.std.specs.Prelude.{◌≡◌, ◌≤◌, false, None, OnErr, OnOk};
ghost use Rattle.io_edge.specs.Edge.{Rose};
ghost use Rattle.io_edge.specs.Memory.{raised};
ghost use Rattle.disk_edge.specs.Folders.{fresh_names, names_of};
ghost use Rattle.disk_edge.specs.Places.{Puts};
ghost use Rattle.disk_edge.specs.declared.named.Place.TheVariants.{Out};

use crate::named::{Named, Place};
use crate::{Disk, DiskFailed, Disks, FileDisk};
use std::alloc::Global;
use std::fs::File;
use std::io;
use std::marker::Model;
use std::os::fd::AsRawFd;
use std::rt::Files;
use tuple_values::{Memory, Text, TryCopy};

/// The files of the current folder by name, each of them under a lock while it is out.
pub struct FolderDisks<R: Files<File = File> + Drop> {
    files: R,
    alloc: Global,
    names: Named<()>,
    faults: u64,
}

impl<R: Files<File = File> + Drop> Drop for FolderDisks<R> {
    fn drop(self) {
        let FolderDisks {
            files,
            alloc: _,
            names,
            faults: _,
        } = self;
        drop(files);
        drop(names);
    }
}

impl<R: Files<File = File> + Drop> Model for FolderDisks<R> {
    ghost use Rattle.disk_edge.specs.Folders.{SystemFolder};

    ghost Value = { SystemFolder };

    ghost view = { λ s. record { slots = s.names; faults = s.faults } };
}

impl<R: Files<File = File> + Drop> FolderDisks<R> {
    /// The current folder, over a runtime that has files. Takes no memory.
    pub fn new(files: R, alloc: Global) -> Self
        ensures { result ≡ fresh_names }
    {
        FolderDisks {
            files,
            alloc,
            names: Named::new(alloc),
            faults: 0,
        }
    }

    // One more fault.
    fn fail(&mut self) -> DiskFailed
        ensures after { self.new ≡ record self.old { faults = raised self.old.faults } }
        ensures rose { (self.old.faults ≤ self.new.faults) × Rose self.old.faults self.new.faults }
    {
        self.faults = self.faults.saturating_add(1);
        DiskFailed
    }

    // Keeps that the file of a name is out.
    fn mark(&mut self, name: &Text) -> Result<(), Memory>
        ensures ok { OnOk result (Puts self.old.slots self.new.slots name.now (Out 0)) }
        ensures err { OnErr result (self.new ≡ self.old) }
        ensures faults { self.new.faults ≡ self.old.faults }
    {
        if self.names.place(name).is_some() {
            let _before = self.names.swap(name, Place::Out(0));
            return Ok(());
        }
        self.names.add(name.copy(self.alloc)?, Place::Out(0))
    }
}

impl<R: Files<File = File> + Drop> Disks for FolderDisks<R> {
    type Disk = FileDisk;

    ghost tells = { false };

    ghost folder = { λ s. names_of s };

    ghost faults = { λ s. s.faults };

    /// A file that was never there is made. Fails also where memory is wanting for a name that is
    /// new, and where another process has the file's lock.
    fn disk(&mut self, name: &Text) -> Result<FileDisk, DiskFailed> {
        if matches!(self.names.place(name), Some(Place::Out(_))) {
            return Err(self.fail());
        }
        let Ok(file) = open(&self.files, name.as_str()) else {
            return Err(self.fail());
        };
        if self.mark(name).is_err() {
            return Err(self.fail());
        }
        Ok(FileDisk::new(file))
    }

    /// Closes the file, which gives up its lock.
    fn back(&mut self, name: &Text, disk: FileDisk) {
        let Some(Place::Out(at)) = self.names.place(name) else {
            return;
        };
        let rose = *at < disk.faults() || disk.faults() == u64::MAX;
        let _out = self.names.swap(name, Place::Held(()));
        if rose {
            self.faults = self.faults.saturating_add(1);
        }
    }
}

// Opens a file to read and write, makes it where it isn't there, and takes its lock.
fn open<R: Files<File = File>>(files: &R, name: &str) -> io::Result<File> {
    let file = File::options()
        .read(true)
        .write(true)
        .create(true)
        .open(files, name)?;
    if file.try_lock().is_err() {
        return Err(io::ErrorKind::WouldBlock.into());
    }
    settle(files, &file)?;
    Ok(file)
}

// Nothing that an earlier process wrote is pending, and what is read is what the disk has: after a
// sync of that process that failed the system's copies may differ from it.
fn settle<R: Files<File = File>>(files: &R, file: &File) -> io::Result<()> {
    file.sync_all()?;
    let advised = libc::posix_fadvise(file.as_raw_fd(), 0, 0, libc::POSIX_FADV_DONTNEED);
    if advised != 0 {
        return Err(io::Error::from_raw_os_error(advised));
    }
    // A file that has bytes was given out before, and its name was synced then.
    if file.metadata()?.len() == 0 {
        File::open(files, ".")?.sync_all()?;
    }
    Ok(())
}
