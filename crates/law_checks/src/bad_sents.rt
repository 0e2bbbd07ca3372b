// The first Sent that breaks the law.
ghost use Rattle.std.specs.Prelude.{◌≡◌, ℕ, IfOk};
ghost use Rattle.once_core.specs.declared.world.Histories.{Histories};
ghost use Rattle.law_checks.specs.Sents.{IsFirstBadSent};
ghost use Rattle.law_checks.specs.Judged.{IsFirstIn};

use crate::greatest::Greatest;
use crate::judging::{Around, is_bad, settled, tell};
use crate::written::{Written, written_of};
use once_core::Histories;
use shard_versions::Entry;
use std::alloc::Global;
use tuple_values::{Memory, NameShards, Names};

// The first entry of a cell with this history that breaks the law.
fn first_bad_in<'b, 'a>(
    alloc: Global,
    names: &'b [NameShards],
    shards: &'b [Written<'a>],
    history: &'a [Entry],
) -> Result<Option<u64>, Memory>
    ensures { IfOk result (λ bad. (hs : Histories) (cell : ℕ) → shards.now ≡ hs.shards
        → IsFirstIn names.now hs cell history.now bad) }
{
    let closed = settled(history).len();
    let mut sent = Greatest::none(alloc);
    for (at, entry) in history.iter().enumerate() {
        let around = Around {
            names,
            shards,
            sent: &sent,
            settled: at + 1 < closed,
        };
        if is_bad(around, &entry.kind) {
            return Ok(Some(at as u64));
        }
        tell(&mut sent, &entry.kind)?;
    }
    Ok(None)
}

/// The cell and the place of the first Sent that breaks the law, by cells and then by places; none
/// exactly where each Sent is followed by a Mark and is a delivery of a committed write, in a version
/// above those sent before under its source and id. Takes n log n steps for n entries, and memory for
/// a reference to each.
pub fn first_bad_sent(
    alloc: Global,
    names: &Names,
    histories: &Histories,
) -> Result<Option<(u32, u64)>, Memory>
    ensures { IfOk result (λ bad. IsFirstBadSent names.now histories.now bad) }
{
    let names = names.as_slice();
    let shards = histories.shards.as_slice();
    if shards.len() > u32::MAX as usize {
        return Err(Memory::OutOfMemory);
    }
    let written = written_of(alloc, shards)?;
    for (cell, history) in shards.iter().enumerate() {
        let found = first_bad_in(alloc, names, &written, history.as_slice())?;
        match found {
            Some(entry) => return Ok(Some((cell as u32, entry))),
            None => {}
        }
    }
    Ok(None)
}
