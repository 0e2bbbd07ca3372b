// The test of what a Store asks, for topics that deliver nowhere.
ghost use Rattle.std.specs.Prelude.{◌≡◌, ◌<◌, ◌^◌, Decides, IfNone, IfOk, IfSome, IsTrue, length};
ghost use Rattle.topic_book.specs.Cells.{cells_in};
ghost use Rattle.topic_book.specs.Fitness.{shards_of};
ghost use Rattle.once_core.specs.Allowed.{AreReached, MayStore};
ghost use Rattle.exchange_rules.specs.Bindings.{book_cell, book_seen};
ghost use Rattle.site_laws.specs.SiteCells.{histories_in};
ghost use Rattle.case_items.specs.Stores.{IsBoundNowhere, IsReachedPart, MayStoreNowhere, ShowsAll};

use crate::source::cut_of;
use shard_versions::{Cut, CutPart};
use std::alloc::Global;
use stream_site::{Turns, shards_of};
use topic_book::TopicKey;
use tuple_values::{Memory, Names, Text, TryCopy, Versions};

// The cell of the book, behind those of all shards.
fn book_cell(names: &Names) -> u32
    requires { cells_in names.now < 2 ^ 32 }
    ensures { result ≡ book_cell names.now }
{
    let mut cell: u32 = 0;
    for entry in names.as_slice() {
        cell += u32::from(entry.shards);
    }
    cell
}

// The source of a topic that delivers nowhere, in what was just seen of the book; none of another
// topic.
fn source_seen<T: Turns>(alloc: Global, site: &T, key: &TopicKey) -> Result<Option<Text>, Memory>
    requires { T.holds site.now (book_cell (T.layout site.now).names) }
    ensures found { IfOk result (λ source. IfSome source (λ src.
        IsBoundNowhere key.now src (book_seen (T.layout site.now) (T.writer site.now)))) }
    ensures absent { IfOk result (λ source. IfNone source ((src : _)
        → ¬ (IsBoundNowhere key.now src (book_seen (T.layout site.now) (T.writer site.now))))) }
{
    match site.bound(key) {
        Some(binding) => match &binding.dest {
            Some(_) => Ok(None),
            None => Ok(Some(binding.src.copy(alloc)?)),
        },
        None => Ok(None),
    }
}

// One look at the book: the source of a topic that delivers nowhere; none of another topic.
fn source_of<T: Turns>(alloc: Global, site: &mut T, key: &TopicKey) -> Result<Option<Text>, Memory>
    ensures found { IfOk result (λ source. IfSome source (λ src.
        IsBoundNowhere key.now src (book_seen (T.layout site.old) (T.writer site.new)))) }
    ensures absent { IfOk result (λ source. IfNone source ((src : _)
        → ¬ (IsBoundNowhere key.now src (book_seen (T.layout site.old) (T.writer site.new))))) }
    ensures layout { T.layout site.new ≡ T.layout site.old }
    ensures home { T.home site.new ≡ T.home site.old }
{
    let book = book_cell(site.names());
    match site.look(book) {
        Ok(()) => source_seen(alloc, site, key),
        Err(_) => Err(Memory::OutOfMemory),
    }
}

// Whether the part is of this shard, and the number at most its top.
fn is_reached(part: &CutPart, shard: u16, number: u64) -> bool
    ensures { Decides result (IsReachedPart part.now shard number) }
{
    part.shard == shard && number <= part.snapshot.top()
}

// Whether there is a part for each shard, and each number is at most its top.
fn are_reached(cut: &Cut, shards: u16, upto: &[u64]) -> bool
    requires { length upto.now ≡ shards }
    ensures { (names seen src : _) → ShowsAll names seen src cut.now → shards ≡ shards_of names src
        → Decides result (AreReached names (histories_in names seen) src upto.now) }
{
    for shard in 0..shards {
        let place = usize::from(shard);
        let Some(part) = cut.get(place) else {
            return false;
        };
        if !is_reached(part, shard, upto[place]) {
            return false;
        }
    }
    true
}

// Looks at the book, and at each shard of the topic's source; whether the versions may be stored.
fn may_store_over<T: Turns>(
    alloc: Global,
    site: &mut T,
    key: &TopicKey,
    upto: &Versions,
) -> Result<bool, Memory>
    ensures exact { IfOk result (λ may. Decides may (MayStoreNowhere (T.layout site.old).names
        (histories_in (T.layout site.old).names (T.writer site.new).seen) key.now upto.now)) }
    ensures layout { T.layout site.new ≡ T.layout site.old }
    ensures home { T.home site.new ≡ T.home site.old }
{
    let Some(src) = source_of(alloc, site, key)? else {
        return Ok(false);
    };
    let shards = shards_of(site.names(), src.as_str());
    if upto.len() != usize::from(shards) {
        return Ok(false);
    }
    let cut = cut_of(alloc, site, &src)?;
    Ok(are_reached(&cut, shards, upto.as_slice()))
}

/// Whether the versions may be stored, of a topic that has no destination: the book is looked at,
/// and each shard of the topic's source. Of a topic that has a destination the answer is no,
/// whatever was delivered. The writer has no turn afterwards.
pub fn may_store_nowhere<T: Turns>(
    alloc: Global,
    site: &mut T,
    key: &TopicKey,
    upto: &Versions,
) -> Result<bool, Memory>
    ensures exact { IfOk result (λ may. Decides may (MayStoreNowhere (T.layout site.old).names
        (histories_in (T.layout site.old).names (T.writer site.new).seen) key.now upto.now)) }
    ensures allowed { IfOk result (λ may. IsTrue may → MayStore (T.layout site.old).names
        (histories_in (T.layout site.old).names (T.writer site.new).seen) key.now upto.now) }
    ensures free { T.free site.new }
    ensures layout { T.layout site.new ≡ T.layout site.old }
    ensures home { T.home site.new ≡ T.home site.old }
{
    let result = may_store_over(alloc, site, key, upto);
    site.leave();
    result
}
