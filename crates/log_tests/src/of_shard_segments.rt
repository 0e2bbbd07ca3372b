// Tests of shard_segments, over several chunks.
use shard_segments::{Chunks, DocTest, Document, Slot, scan};
use std::alloc::Global;
use std::test::Fail;
use std::thread::Threads;
use tuple_values::{Memory, Tuple};

/// Slots from a version on.
struct From {
    version: u64,
}

impl DocTest for From {
    ghost use Rattle.std.specs.Prelude.{nat_le};

    ghost meets = { λ t s. nat_le t.version s.version };

    fn holds(&self, slot: &Slot) -> bool {
        self.version <= slot.version
    }
}

// Each second version has a document.
fn slot(alloc: Global, version: u64) -> Result<Slot, Memory> {
    if version % 2 == 0 {
        return Ok(Slot {
            version,
            document: None,
        });
    }
    let document = Document::of(alloc, Tuple::empty(alloc))?;
    Ok(Slot {
        version,
        document: Some(document),
    })
}

fn push(alloc: Global, chunks: &mut Chunks, version: u64) -> Result<(), Memory> {
    let slot = slot(alloc, version)?;
    chunks.reserve(1)?;
    chunks.push(slot);
    Ok(())
}

// Slots of the versions from 0 on, each with room of its own.
fn fill(alloc: Global, chunks: &mut Chunks, count: u64) -> Result<(), Memory> {
    for version in 0..count {
        push(alloc, chunks, version)?;
    }
    Ok(())
}

fn filled(alloc: Global) -> Result<Chunks, Memory> {
    let mut chunks = Chunks::empty(alloc);
    fill(alloc, &mut chunks, 5000)?;
    Ok(chunks)
}

fn are_first(first: &Chunks) -> bool {
    first.len() == 3000 && first.get(2999).version == 2999 && first.get(2047).document.is_some()
}

fn are_found<R: Threads + Sync>(rt: &R, alloc: Global, first: &Chunks) -> bool {
    match scan(rt, alloc, first, &From { version: 2998 }) {
        Ok(places) => places.as_slice() == [2998, 2999].as_slice(),
        Err(_) => false,
    }
}

fn are_shared<R: Threads + Sync>(rt: &R, alloc: Global, chunks: &Chunks) -> bool {
    if chunks.len() != 5000 {
        return false;
    }
    match chunks.share(alloc, 3000) {
        Ok(first) => are_first(&first) && are_found(rt, alloc, &first),
        Err(_) => false,
    }
}

#[test]
fn slots_over_several_chunks_are_shared_and_found(rt: HostRuntime) -> Result<(), Fail> {
    let chunks = filled(rt.alloc())?;
    assert!(rt; are_shared(&rt, rt.alloc(), &chunks));
    Ok(())
}
