// A file of the system, which tells nothing of its content.
ghost use Rattle.std.specs.Prelude.{◌≡◌, ◌≤◌, None, false};
ghost use Rattle.io_edge.specs.Edge.{Rose};
ghost use Rattle.io_edge.specs.Memory.{raised};
ghost use Rattle.disk_edge.specs.Disk.{HasCause};
ghost use Rattle.disk_edge.specs.Files.{fresh_file, FileAnswers, FileSyncs};

use crate::{Disk, DiskFailed};
use std::fs::File;
use std::io;
use std::marker::Model;
use std::os::unix::fs::FileExt;

/// A file of the system. After a sync that failed each call fails: the system may have dropped what
/// was written, and a later sync wouldn't tell.
pub struct FileDisk {
    file: File,
    lost: bool,
    faults: u64,
}

impl Drop for FileDisk {
    fn drop(self) {
        let FileDisk {
            file,
            lost: _,
            faults: _,
        } = self;
        drop(file);
    }
}

impl Model for FileDisk {
    ghost use Rattle.disk_edge.specs.Files.{FileState};

    ghost Value = { FileState };

    ghost view = { λ d. record { lost = d.lost; faults = d.faults } };
}

impl FileDisk {
    /// A disk over this file, which is moved in. It is to be open for reads and writes, or those
    /// calls fail.
    pub fn new(file: File) -> Self
        ensures { result ≡ fresh_file }
    {
        FileDisk {
            file,
            lost: false,
            faults: 0,
        }
    }

    /// How often a call failed, as a count that stays at its end.
    pub fn faults(&self) -> u64
        ensures { result ≡ self.now.faults }
    {
        self.faults
    }

    // One more fault.
    fn fail(&mut self) -> DiskFailed
        ensures after { self.new ≡ record self.old { faults = raised self.old.faults } }
        ensures rose { (self.old.faults ≤ self.new.faults) × Rose self.old.faults self.new.faults }
    {
        self.faults = self.faults.saturating_add(1);
        DiskFailed
    }

    // The system's answer as the disk's.
    fn answer<T: Drop>(&mut self, answer: io::Result<T>) -> Result<T, DiskFailed>
        requires { self.old.lost ≡ false }
        ensures cause { HasCause self.old.faults self.new.faults result }
        ensures after { FileAnswers self.old self.new result }
    {
        match answer {
            Ok(value) => Ok(value),
            Err(_) => Err(self.fail()),
        }
    }
}

impl Disk for FileDisk {
    ghost use Rattle.std.proofs.lemmas.Option.{none-some};

    ghost seen = { λ _. None };

    ghost may_leave = { λ _ _. ⊥ };

    ghost moment = { λ _. 0 };

    ghost left_since = { λ _ _ _. ⊥ };

    ghost faults = { λ d. d.faults };

    ghost seen_may_stay = { λ d c told. absurd (none-some c told) };

    ghost counts_now = { λ d t c le now. now };

    ghost only_now = { λ d c left. left };

    fn fault_count(&self) -> u64 {
        self.faults
    }

    fn size(&mut self) -> Result<u64, DiskFailed>
        ensures cause { HasCause self.old.faults self.new.faults result }
        ensures after { FileAnswers self.old self.new result }
    {
        if self.lost {
            return Err(self.fail());
        }
        let answer = match self.file.metadata() {
            Ok(about) => Ok(about.len()),
            Err(error) => Err(error),
        };
        self.answer(answer)
    }

    fn read(&mut self, from: u64, room: &mut [u8]) -> Result<(), DiskFailed>
        ensures cause { HasCause self.old.faults self.new.faults result }
        ensures after { FileAnswers self.old self.new result }
    {
        if self.lost {
            return Err(self.fail());
        }
        let answer = self.file.read_exact_at(room, from);
        self.answer(answer)
    }

    fn write_at(&mut self, from: u64, piece: &[u8]) -> Result<(), DiskFailed>
        ensures cause { HasCause self.old.faults self.new.faults result }
        ensures after { FileAnswers self.old self.new result }
    {
        if self.lost {
            return Err(self.fail());
        }
        let answer = self.file.write_all_at(piece, from);
        self.answer(answer)
    }

    fn cut(&mut self, size: u64) -> Result<(), DiskFailed>
        ensures cause { HasCause self.old.faults self.new.faults result }
        ensures after { FileAnswers self.old self.new result }
    {
        if self.lost {
            return Err(self.fail());
        }
        let answer = self.file.set_len(size);
        self.answer(answer)
    }

    fn sync(&mut self) -> Result<(), DiskFailed>
        ensures cause { HasCause self.old.faults self.new.faults result }
        ensures after { FileSyncs self.old self.new result }
    {
        if self.lost || self.file.sync_data().is_err() {
            self.lost = true;
            return Err(self.fail());
        }
        Ok(())
    }
}
