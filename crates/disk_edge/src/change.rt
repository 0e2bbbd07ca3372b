// The calls that may change what a stop leaves.
ghost use Rattle.std.specs.Prelude.{◌≡◌, ◌+◌, ◌==◌, [], ◌∷◌, IfOk, drop, if◌then◌else◌, length, min, take};
ghost use Rattle.disk_edge.specs.Calls.{after, content};
ghost use Rattle.disk_edge.specs.Disk.{written};
ghost use Rattle.disk_edge.specs.Stops.{begun, is_sync, synced_count};

use std::alloc::Global;
use tuple_values::{Bytes, Memory};

/// A call to a disk in memory that may change what a stop leaves.
pub enum Change {
    /// A write of the piece from a place on, counted in bytes from 0.
    Wrote { from: u64, piece: Bytes },
    /// A write that failed: a read gives what it gave, and a stop may leave some of the piece.
    WriteFailed { from: u64, piece: Bytes },
    /// A cut to a length in bytes.
    Shortened { size: u64 },
    /// A cut that failed: a read gives what it gave, and a stop may leave the cut.
    CutFailed { size: u64 },
    /// A sync that was made.
    Synced,
}

impl Drop for Change {
    fn drop(self) {
        match self {
            Change::Wrote { from: _, piece } => drop(piece),
            Change::WriteFailed { from: _, piece } => drop(piece),
            Change::Shortened { size: _ } => {}
            Change::CutFailed { size: _ } => {}
            Change::Synced => {}
        }
    }
}

impl Change {
    fn is_sync(&self) -> bool
        ensures { result ≡ is_sync self.now }
    {
        matches!(self, Change::Synced)
    }

    // The content after the call.
    fn made(&self, alloc: Global, bytes: &[u8]) -> Result<Bytes, Memory>
        ensures { IfOk result (λ next. next ≡ after self.now bytes.now) }
    {
        match self {
            Change::Wrote { from, piece } => overwritten(alloc, bytes, *from, piece.as_slice()),
            Change::Shortened { size } => front(alloc, bytes, *size),
            _ => copied(alloc, bytes),
        }
    }

    // The content with so many bytes of the call.
    fn begun(&self, alloc: Global, bytes: &[u8], count: u64) -> Result<Bytes, Memory>
        ensures { IfOk result (λ next. next ≡ begun count (self.now ∷ []) bytes.now) }
    {
        match self {
            Change::Wrote { from, piece } => part(alloc, bytes, *from, piece, count),
            Change::WriteFailed { from, piece } => part(alloc, bytes, *from, piece, count),
            Change::Shortened { size } => part_cut(alloc, bytes, *size, count),
            Change::CutFailed { size } => part_cut(alloc, bytes, *size, count),
            Change::Synced => copied(alloc, bytes),
        }
    }
}

// The bytes with the first bytes of a piece from a place on.
fn part(alloc: Global, bytes: &[u8], from: u64, piece: &Bytes, count: u64) -> Result<Bytes, Memory>
    ensures { IfOk result (λ next. next ≡ written bytes.now from (take count piece.now)) }
{
    let some = front(alloc, piece.as_slice(), count)?;
    overwritten(alloc, bytes, from, some.as_slice())
}

// The bytes with a cut, where the count isn't 0.
fn part_cut(alloc: Global, bytes: &[u8], size: u64, count: u64) -> Result<Bytes, Memory>
    ensures { IfOk result (λ next. next ≡ (if count == 0 then bytes.now else take size bytes.now)) }
{
    if count == 0 {
        copied(alloc, bytes)
    } else {
        front(alloc, bytes, size)
    }
}

/// The content after these calls.
pub fn replayed(alloc: Global, first: &[u8], calls: &[Change]) -> Result<Bytes, Memory>
    ensures { IfOk result (λ bytes. bytes ≡ content first.now calls.now) }
{
    let mut bytes = copied(alloc, first)?;
    for call in calls {
        bytes = call.made(alloc, bytes.as_slice())?;
    }
    Ok(bytes)
}

/// The content with so many bytes of the first of these calls.
pub fn begun(alloc: Global, bytes: Bytes, calls: &[Change], count: u64) -> Result<Bytes, Memory>
    ensures { IfOk result (λ next. next ≡ begun count calls.now bytes) }
{
    match calls.first() {
        Some(call) => call.begun(alloc, bytes.as_slice(), count),
        None => Ok(bytes),
    }
}

/// How many of these calls come up to the last sync and so many calls more.
pub fn made_count(calls: &[Change], more: u64) -> usize
    ensures { result ≡ min (synced_count calls.now + more) (length calls.now) }
{
    let synced = synced(calls);
    if more < (calls.len() - synced) as u64 {
        synced + more as usize
    } else {
        calls.len()
    }
}

fn synced(calls: &[Change]) -> usize
    ensures { result ≡ synced_count calls.now }
{
    let mut synced = 0;
    for (at, call) in calls.iter().enumerate() {
        if call.is_sync() {
            synced = at + 1;
        }
    }
    synced
}

/// The bytes with a piece from a place on.
pub fn overwritten(alloc: Global, bytes: &[u8], from: u64, piece: &[u8]) -> Result<Bytes, Memory>
    ensures { IfOk result (λ next. next ≡ written bytes.now from piece.now) }
{
    let mut next = front(alloc, bytes, from)?;
    next.extend(piece)?;
    next.extend(behind(behind(bytes, from), piece.len() as u64))?;
    Ok(next)
}

/// The first bytes, so many of them as there are.
pub fn front(alloc: Global, bytes: &[u8], count: u64) -> Result<Bytes, Memory>
    ensures { IfOk result (λ front. front ≡ take count bytes.now) }
{
    if count < bytes.len() as u64 {
        return copied(alloc, &bytes[..count as usize]);
    }
    copied(alloc, bytes)
}

fn copied(alloc: Global, bytes: &[u8]) -> Result<Bytes, Memory>
    ensures { IfOk result (λ copy. copy ≡ bytes.now) }
{
    Ok(Bytes::from_vec(bytes.to_vec(alloc)?))
}

// The bytes behind so many.
fn behind(bytes: &[u8], count: u64) -> &[u8]
    ensures { result.now ≡ drop count bytes.now }
{
    if count < bytes.len() as u64 {
        &bytes[count as usize..]
    } else {
        &[]
    }
}
