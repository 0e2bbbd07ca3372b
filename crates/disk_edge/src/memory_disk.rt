// A disk in memory, which tells its content and what a stop may leave.
ghost use Rattle.std.specs.Prelude.{◌≡◌, ◌⊎◌, ◌+◌, ◌≤◌, Some, length, take, drop, if◌then◌else◌, IfOk, OnErr, OnOk};
ghost use Rattle.io_edge.specs.Edge.{Rose};
ghost use Rattle.io_edge.specs.Memory.{raised};
ghost use Rattle.disk_edge.specs.Disk.{written, Elapses, Follows, HasCause, IfTold, NoMore, Only, Short, Tells, Torn};
ghost use Rattle.disk_edge.specs.Calls.{after, reach, LeftSince, MayLeave};
ghost use Rattle.disk_edge.specs.Stops.{left_after, synced_count};
ghost use Rattle.disk_edge.specs.Memory.{called, content_of, fails_next, fresh_disk, noted, Changes, Looks, Syncs};
ghost use Rattle.disk_edge.specs.declared.change.Change.TheVariants.{Wrote, WriteFailed, Shortened, CutFailed};

use crate::change::{Change, begun, front, made_count, overwritten, replayed};
use crate::{Disk, DiskFailed};
use std::alloc::Global;
use std::marker::Model;
use tuple_values::{Bytes, Memory, Numbers, Sequence};

/// Bytes in memory that keep their first content and the calls since, with calls that are to fail.
pub struct MemoryDisk {
    alloc: Global,
    bytes: Bytes,
    first: Bytes,
    since: Sequence<Change>,
    calls: u64,
    failing: Numbers,
    faults: u64,
}

impl Drop for MemoryDisk {
    fn drop(self) {
        let MemoryDisk {
            alloc: _,
            bytes,
            first,
            since,
            calls: _,
            failing,
            faults: _,
        } = self;
        drop(bytes);
        drop(first);
        drop(since);
        drop(failing);
    }
}

impl Model for MemoryDisk {
    ghost use Rattle.std.specs.Prelude.{◌≡◌};
    ghost use Rattle.disk_edge.specs.Calls.{content, excess};
    ghost use Rattle.disk_edge.specs.Memory.{DiskState};

    ghost Value = { DiskState };

    ghost view = { λ d. record {
      first = d.first;
      since = d.since;
      calls = d.calls;
      failing = d.failing;
      faults = d.faults;
    } };

    ghost invariant = { λ d. (d.bytes ≡ content d.first d.since)
        × (excess d.first d.since ≡ 0) };
}

impl MemoryDisk {
    /// A disk of these bytes, which are what a stop leaves. The calls of `Disk` whose numbers,
    /// counted from 0 over all five, are in `failing` fail.
    pub fn new(alloc: Global, bytes: Bytes, failing: Numbers) -> Result<Self, Memory>
        ensures { IfOk result (λ disk. disk ≡ fresh_disk bytes failing) }
    {
        let first = Bytes::from_vec(bytes.as_slice().to_vec(alloc)?);
        Ok(MemoryDisk {
            alloc,
            bytes,
            first,
            since: Sequence::new(alloc),
            calls: 0,
            failing,
            faults: 0,
        })
    }

    /// What a read gives.
    pub fn bytes(&self) -> &[u8]
        ensures { result.now ≡ content_of self.now }
    {
        self.bytes.as_slice()
    }

    /// How often a call failed, as a count that stays at its end.
    pub fn faults(&self) -> u64
        ensures { result ≡ self.now.faults }
    {
        self.faults
    }

    /// One of the contents that a stop now may leave, in memory of its own: the content at the last
    /// sync, or else the first, with so many of the calls since made, and of the next one a part. The
    /// part of a write is so many first bytes, and a cut is made where that isn't 0. A call that
    /// failed can be made in part, and made whole changes nothing.
    pub fn left_by_stop(&self, alloc: Global, calls: u64, bytes: u64) -> Result<Bytes, Memory>
        ensures left { IfOk result (λ left. left ≡ left_after self.now calls bytes) }
        ensures may_leave { IfOk result (MayLeave self.now.first self.now.since) }
        ensures whole { length self.now.since ≤ synced_count self.now.since + calls
            → IfOk result (λ left. left ≡ content_of self.now) }
    {
        let since = self.since.as_slice();
        let made = made_count(since, calls);
        let left = replayed(alloc, self.first.as_slice(), &since[..made])?;
        begun(alloc, left, &since[made..], bytes)
    }

    // One more call, which fails where it is to, and then counts.
    fn begin(&mut self) -> Result<(), DiskFailed>
        ensures cause { HasCause self.old.faults self.new.faults result }
        ensures after { Looks self.old self.new result }
    {
        let fails = self.call();
        if fails {
            return Err(self.fail());
        }
        Ok(())
    }

    // One more call. Answers whether it is to fail.
    fn call(&mut self) -> bool
        ensures fails { result ≡ fails_next self.old }
        ensures after { self.new ≡ called self.old }
    {
        let call = self.calls;
        self.calls = self.calls.saturating_add(1);
        self.failing.as_slice().contains(&call)
    }

    // One more fault.
    fn fail(&mut self) -> DiskFailed
        ensures after { self.new ≡ record self.old { faults = raised self.old.faults } }
        ensures rose { (self.old.faults ≤ self.new.faults) × Rose self.old.faults self.new.faults }
    {
        self.faults = self.faults.saturating_add(1);
        DiskFailed
    }

    // One more among the calls that may change what a stop leaves, with the content after it.
    #[tactic(auto, using(crate::proofs::CallsLemmas::one_more))]
    fn note(&mut self, bytes: Bytes, change: Change) -> Result<(), Memory>
        requires next { bytes ≡ after change (content_of self.old) }
        requires fits { reach change ≤ length (content_of self.old) }
        ensures ok { OnOk result (self.new ≡ noted self.old change) }
        ensures err { OnErr result (self.new ≡ self.old) }
    {
        self.since.push(change)?;
        self.bytes = bytes;
        Ok(())
    }

    // The same for a call after which a read gives what it gave.
    #[tactic(auto, using(crate::proofs::CallsLemmas::one_more))]
    fn keep(&mut self, change: Change) -> Result<(), Memory>
        requires next { content_of self.old ≡ after change (content_of self.old) }
        requires fits { reach change ≤ length (content_of self.old) }
        ensures ok { OnOk result (self.new ≡ noted self.old change) }
        ensures err { OnErr result (self.new ≡ self.old) }
    {
        self.since.push(change)?;
        Ok(())
    }

    // Notes a write as made or as failed.
    fn note_write(&mut self, fails: bool, from: u64, piece: &[u8]) -> Result<(), Memory>
        requires { from ≤ length (content_of self.old) }
        ensures ok { OnOk result (self.new ≡ noted self.old
            (if fails then WriteFailed from piece.now else Wrote from piece.now)) }
        ensures err { OnErr result (self.new ≡ self.old) }
    {
        let copy = Bytes::from_vec(piece.to_vec(self.alloc)?);
        if fails {
            return self.keep(Change::WriteFailed { from, piece: copy });
        }
        let bytes = overwritten(self.alloc, self.bytes.as_slice(), from, piece)?;
        self.note(bytes, Change::Wrote { from, piece: copy })
    }

    // Notes a cut as made or as failed.
    fn note_cut(&mut self, fails: bool, size: u64) -> Result<(), Memory>
        requires { size ≤ length (content_of self.old) }
        ensures ok { OnOk result (self.new ≡ noted self.old
            (if fails then CutFailed size else Shortened size)) }
        ensures err { OnErr result (self.new ≡ self.old) }
    {
        if fails {
            return self.keep(Change::CutFailed { size });
        }
        let bytes = front(self.alloc, self.bytes.as_slice(), size)?;
        self.note(bytes, Change::Shortened { size })
    }

    // A write, with what it notes.
    fn make_write(&mut self, from: u64, piece: &[u8]) -> Result<(), DiskFailed>
        requires { from ≤ length (content_of self.old) }
        ensures cause { HasCause self.old.faults self.new.faults result }
        ensures after { Changes (Wrote from piece.now) (WriteFailed from piece.now)
            self.old self.new result }
    {
        let fails = self.call();
        let noted = self.note_write(fails, from, piece);
        if fails || noted.is_err() {
            return Err(self.fail());
        }
        Ok(())
    }

    // A cut, with what it notes.
    fn make_cut(&mut self, size: u64) -> Result<(), DiskFailed>
        requires { size ≤ length (content_of self.old) }
        ensures cause { HasCause self.old.faults self.new.faults result }
        ensures after { Changes (Shortened size) (CutFailed size) self.old self.new result }
    {
        let fails = self.call();
        let noted = self.note_cut(fails, size);
        if fails || noted.is_err() {
            return Err(self.fail());
        }
        Ok(())
    }

    // A sync, with what it notes.
    fn make_sync(&mut self) -> Result<(), DiskFailed>
        ensures cause { HasCause self.old.faults self.new.faults result }
        ensures after { Syncs self.old self.new result }
    {
        let fails = self.call();
        if fails || self.keep(Change::Synced).is_err() {
            return Err(self.fail());
        }
        Ok(())
    }
}

impl Disk for MemoryDisk {
    ghost use Rattle.disk_edge.specs.Moments.{counts-now, only-now, stays};

    ghost seen = { λ d. Some (content_of d) };

    ghost may_leave = { λ d. MayLeave d.first d.since };

    ghost moment = { λ d. length d.since };

    ghost left_since = { λ d. LeftSince d.first d.since };

    ghost faults = { λ d. d.faults };

    ghost seen_may_stay = { λ d c told. stays d.first d.since c told };

    ghost counts_now = { λ d t c le now. counts-now d.first d.since t c le now };

    ghost only_now = { λ d c left. only-now d.first d.since c left };

    fn fault_count(&self) -> u64 {
        self.faults
    }

    fn size(&mut self) -> Result<u64, DiskFailed>
        ensures size { IfOk result (λ n. n ≡ length (content_of self.old)) }
        ensures seen { Some (content_of self.new) ≡ Some (content_of self.old) }
        ensures stop { NoMore (MayLeave self.old.first self.old.since)
            (MayLeave self.new.first self.new.since) }
        ensures time { Elapses (length self.old.since) (length self.new.since)
            (LeftSince self.old.first self.old.since) (LeftSince self.new.first self.new.since)
            (MayLeave self.new.first self.new.since) }
        ensures cause { HasCause self.old.faults self.new.faults result }
        ensures after { Looks self.old self.new result }
    {
        self.begin()?;
        Ok(self.bytes.len() as u64)
    }

    fn read(&mut self, from: u64, room: &mut [u8]) -> Result<(), DiskFailed>
        requires { from + length room.old ≤ length (content_of self.old) }
        ensures bytes { OnOk result
            (room.new ≡ take (length room.old) (drop from (content_of self.old))) }
        ensures seen { Some (content_of self.new) ≡ Some (content_of self.old) }
        ensures stop { NoMore (MayLeave self.old.first self.old.since)
            (MayLeave self.new.first self.new.since) }
        ensures time { Elapses (length self.old.since) (length self.new.since)
            (LeftSince self.old.first self.old.since) (LeftSince self.new.first self.new.since)
            (MayLeave self.new.first self.new.since) }
        ensures cause { HasCause self.old.faults self.new.faults result }
        ensures after { Looks self.old self.new result }
    {
        self.begin()?;
        let at = from as usize;
        room.copy_from_slice(&self.bytes.as_slice()[at..at + room.len()]);
        Ok(())
    }

    /// A write that isn't to fail fails where memory is wanting.
    fn write_at(&mut self, from: u64, piece: &[u8]) -> Result<(), DiskFailed>
        requires { from ≤ length (content_of self.old) }
        ensures seen { OnOk result (Tells (Some (content_of self.old))
            (Some (content_of self.new)) (λ c d. d ≡ written c from piece.now)) }
        ensures failed { OnErr result (Tells (Some (content_of self.old))
            (Some (content_of self.new)) (Torn from piece.now)) }
        ensures kept { OnErr result (content_of self.new ≡ content_of self.old) }
        ensures stop { Follows (Torn from piece.now) (MayLeave self.old.first self.old.since)
            (MayLeave self.new.first self.new.since) }
        ensures time { Elapses (length self.old.since) (length self.new.since)
            (LeftSince self.old.first self.old.since) (LeftSince self.new.first self.new.since)
            (MayLeave self.new.first self.new.since) }
        ensures cause { HasCause self.old.faults self.new.faults result }
        ensures after { Changes (Wrote from piece.now) (WriteFailed from piece.now)
            self.old self.new result }
    {
        self.make_write(from, piece)
    }

    /// A cut that isn't to fail fails where memory is wanting.
    fn cut(&mut self, size: u64) -> Result<(), DiskFailed>
        requires { size ≤ length (content_of self.old) }
        ensures seen { OnOk result (Tells (Some (content_of self.old))
            (Some (content_of self.new)) (λ c d. d ≡ take size c)) }
        ensures failed { OnErr result (Tells (Some (content_of self.old))
            (Some (content_of self.new)) (λ c d. (d ≡ c) ⊎ (d ≡ take size c))) }
        ensures kept { OnErr result (content_of self.new ≡ content_of self.old) }
        ensures stop { Follows (Short size) (MayLeave self.old.first self.old.since)
            (MayLeave self.new.first self.new.since) }
        ensures time { Elapses (length self.old.since) (length self.new.since)
            (LeftSince self.old.first self.old.since) (LeftSince self.new.first self.new.since)
            (MayLeave self.new.first self.new.since) }
        ensures cause { HasCause self.old.faults self.new.faults result }
        ensures after { Changes (Shortened size) (CutFailed size) self.old self.new result }
    {
        self.make_cut(size)
    }

    /// A sync that isn't to fail fails where memory is wanting.
    fn sync(&mut self) -> Result<(), DiskFailed>
        ensures durable { OnOk result
            (Only (content_of self.old) (MayLeave self.new.first self.new.since)) }
        ensures seen { Some (content_of self.new) ≡ Some (content_of self.old) }
        ensures stop { NoMore (MayLeave self.old.first self.old.since)
            (MayLeave self.new.first self.new.since) }
        ensures time { Elapses (length self.old.since) (length self.new.since)
            (LeftSince self.old.first self.old.since) (LeftSince self.new.first self.new.since)
            (MayLeave self.new.first self.new.since) }
        ensures cause { HasCause self.old.faults self.new.faults result }
        ensures after { Syncs self.old self.new result }
    {
        self.make_sync()
    }
}
