// Items to be delivered: the current documents of a collection, as snapshots of its shards show them.
ghost use Rattle.std.specs.Prelude.{ℕ, ◌≡◌, ◌<◌, ◌≤◌, ◌^◌, ◌++◌, IfOk, IfSome, IsTrue, OnOk, length, map, slice_index_or};
ghost use Rattle.std.specs.List.{AllByRecursion};
ghost use Rattle.tuple_values.specs.Document.{Doc};
ghost use Rattle.shard_versions.specs.Documents.{IsFrom, with_version};
ghost use Rattle.topic_book.specs.Cells.{cell_of};
ghost use Rattle.topic_book.specs.Fitness.{shards_of};
ghost use Rattle.site_laws.specs.Duties.{IsItem};
ghost use Rattle.case_items.specs.Items.{made_document, made_item, made_items, AreShown, IsShown};

use shard_versions::{Cut, Snapshot, id_of, is_storable};
use std::alloc::Global;
use stream_site::{Batch, BatchItem, shards_of};
use tuple_values::{Memory, Names, Text, Tuple, Value, shard_of};

// The document as it is delivered: without its version, and with where it comes from.
fn delivered(alloc: Global, src: &Text, version: u64, shown: &Tuple) -> Result<Tuple, Memory>
    requires { version < 2 ^ 63 }
    ensures made { IfOk result (λ document. document ≡ made_document src.now version shown.now) }
    ensures from { IfOk result (λ document. (doc : Doc) → shown.now ≡ with_version version doc
        → IsFrom document src.now version doc) }
{
    // The names of its fields rise: each is there once.
    let _fields = shown.count();
    let mut document = shown.copy(alloc)?;
    document.remove("_version_");
    document.put(
        Text::of(alloc, "_src_s")?,
        Value::Text(Text::of(alloc, src.as_str())?),
    )?;
    document.put(
        Text::of(alloc, "_src_version_l")?,
        Value::Long(version as i64),
    )?;
    Ok(document)
}

// The item of the k-th document that a snapshot of the source's shard shows; none where it can't be
// kept, or a test of what an item asks fails.
fn item_of(
    alloc: Global,
    names: &Names,
    src: &Text,
    shard: u16,
    shown: &Snapshot,
    k: u64,
) -> Result<Option<BatchItem>, Memory>
    requires known { 0 < shards_of names.now src.now }
    requires in_range { k < length shown.now.documents }
    ensures made { (d : _) → IfOk result (λ item. IfSome item
        (λ made. made ≡ made_item src.now (slice_index_or shown.now.documents k d))) }
    ensures item { (seen dest : _) → IsShown names.now seen src.now shard shown.now
        → IfOk result (λ item. IfSome item (IsItem names.now seen dest src.now)) }
{
    let version = shown.version(k);
    if version > shown.top() || version > i64::MAX as u64 {
        return Ok(None);
    }
    let document = delivered(alloc, src, version, shown.document(k))?;
    let home = shard_of(id_of(&document), shards_of(names, src.as_str()));
    if home != shard || !is_storable(&document) {
        return Ok(None);
    }
    Ok(Some(BatchItem { version, document }))
}

/// Adds the items of all documents that a snapshot of the source's shard shows; whether each of them
/// can be kept. Each item that is added is a delivery, whatever the destination is.
pub fn add_items(
    alloc: Global,
    names: &Names,
    src: &Text,
    shard: u16,
    shown: &Snapshot,
    batch: &mut Batch,
) -> Result<bool, Memory>
    requires { 0 < shards_of names.now src.now }
    ensures made { IfOk result (λ fine. IsTrue fine
        → batch.new ≡ batch.old ++ map (made_item src.now) shown.now.documents) }
    ensures items { (seen dest : _) → IsShown names.now seen src.now shard shown.now
        → AllByRecursion (IsItem names.now seen dest src.now) batch.old
        → OnOk result (AllByRecursion (IsItem names.now seen dest src.now) batch.new) }
{
    for k in 0..shown.count() {
        let Some(item) = item_of(alloc, names, src, shard, shown, k)? else {
            return Ok(false);
        };
        batch.push(item)?;
    }
    Ok(true)
}

/// The items of all documents that the parts of a cut of the source show; none where one of them
/// can't be kept. Each is a delivery of what was seen, whatever the destination is.
pub fn cut_items(
    alloc: Global,
    names: &Names,
    src: &Text,
    cut: &Cut,
) -> Result<Option<Batch>, Memory>
    requires { 0 < shards_of names.now src.now }
    ensures made { IfOk result (λ items. IfSome items (λ made. made ≡ made_items src.now cut.now)) }
    ensures items { (seen dest : _) → AreShown names.now seen src.now cut.now
        → IfOk result (λ items. IfSome items
        (AllByRecursion (IsItem names.now seen dest src.now))) }
{
    let mut batch = Batch::new(alloc);
    for part in cut.as_slice() {
        if !add_items(alloc, names, src, part.shard, &part.snapshot, &mut batch)? {
            return Ok(None);
        }
    }
    Ok(Some(batch))
}
