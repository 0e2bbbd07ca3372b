// The documents of a topic that are new since a checkpoint.
ghost use Rattle.std.specs.Prelude.{◌≡◌, ◌++◌, ◌∷◌, [], ◌&&◌, nat_lt, IsSome, IfOk, OnOk, codes, map, filter, slice_index, slice_index_or};
ghost use Rattle.query_syntax.specs.Matching.{matches};
ghost use Rattle.expr_types.specs.Parts.{topic_parts};
ghost use Rattle.source_streams.specs.Batches.{batch_over, cut_item, given_names, item_cmp, item_of, items_of, is_new, new_items};
ghost use Rattle.source_streams.specs.Founds.{item_found};

use expr_types::Expr;
use query_syntax::Query;
use shard_versions::{Cut, CutPart, Snapshot};
use std::alloc::Global;
use std::cmp::Ordering;
use tuple_values::{FieldList, Memory, Sequence, Text, TryCopy, Tuple, Versions};

/// A document that a topic gives: the shard that it is read from, its version there, and its
/// fields.
#[derive(Drop)]
pub struct TopicItem {
    pub shard: u16,
    pub version: u64,
    pub document: Tuple,
}

/// Documents of a topic, in the order in which it gives them.
pub type TopicBatch = Sequence<TopicItem>;

/// A document of a snapshot that a topic gives.
#[derive(Drop)]
struct Found<'a> {
    shard: u16,
    version: u64,
    document: &'a Tuple,
}

/// What a topic gives over a cut, which holds each shard of its collection: the current documents
/// above the checkpoint that its query takes, by version and then by shard, each cut to `fl`, its
/// id and its version. The checkpoint has a number for each shard. Each document above it is looked
/// at once; what is given takes some n log n comparisons, and is copied once.
pub fn topic_batch(
    alloc: Global,
    topic: &Expr,
    cut: &Cut,
    above: &Versions,
) -> Result<TopicBatch, Memory>
    requires { IsSome (topic_parts topic.now) }
    ensures { IfOk result (λ batch. batch ≡ batch_over topic.now cut.now above.now) }
{
    let Expr::Topic {
        collection,
        q,
        fl,
        ..
    } = topic
    else {
        unreachable!();
    };
    let mut found = all_new(alloc, q, collection, cut.as_slice(), above)?;
    found.sort_by(|a, b| compare(a, b))?;
    let names = names_of(alloc, fl)?;
    let batch = cut_all(alloc, found.as_slice(), &names)?;
    Ok(batch)
}

// The number of a shard, and 0 where there is none.
fn low_of(above: &Versions, shard: u16) -> u64
    ensures { result ≡ slice_index above.now shard }
{
    match above.as_slice().get(usize::from(shard)) {
        Some(low) => *low,
        None => 0,
    }
}

// How two items stand to each other: by version, and then by shard.
fn compare(a: &Found, b: &Found) -> Ordering
    ensures { result ≡ item_cmp (item_found a.now) (item_found b.now) }
{
    a.version.cmp(&b.version).then(a.shard.cmp(&b.shard))
}

// Whether a topic takes a document whose version is above the number.
fn is_new(q: &Query, low: u64, version: u64, document: &Tuple) -> bool
    ensures { result ≡ is_new q.now.clauses low (version, document.now) }
{
    low < version && q.matches(document)
}

// Adds what a topic gives of a shard, whose documents up to the number aren't looked at.
fn add_new<'a>(
    found: &mut Vec<Found<'a>>,
    q: &Query,
    shard: u16,
    snapshot: &'a Snapshot,
    low: u64,
) -> Result<(), Memory>
    ensures { OnOk result (map item_found found.new.items ≡ map item_found found.old.items
        ++ new_items q.now.clauses low shard snapshot.now.documents) }
{
    for k in snapshot.first_above(low)..snapshot.count() {
        let version = snapshot.version(k);
        let document = snapshot.document(k);
        if is_new(q, low, version, document) {
            found.push(Found {
                shard,
                version,
                document,
            })?;
        }
    }
    Ok(())
}

// What a topic gives, shard by shard.
fn all_new<'a>(
    alloc: Global,
    q: &Query,
    collection: &Text,
    cut: &'a [CutPart],
    above: &Versions,
) -> Result<Vec<Found<'a>>, Memory>
    ensures { IfOk result (λ found. map item_found found.items
        ≡ items_of q.now.clauses collection.now above.now cut.now) }
{
    let mut found = Vec::new(alloc);
    for part in cut {
        if part.collection.as_str() == collection.as_str() {
            let low = low_of(above, part.shard);
            add_new(&mut found, q, part.shard, &part.snapshot, low)?;
        }
    }
    Ok(found)
}

// The fields of a topic's documents.
fn names_of(alloc: Global, fl: &FieldList) -> Result<FieldList, Memory>
    ensures { IfOk result (λ names. names ≡ given_names fl.now) }
{
    let mut names = fl.copy(alloc)?;
    names.push(Text::of(alloc, "id")?)?;
    names.push(Text::of(alloc, "_version_")?)?;
    Ok(names)
}

// The items, each document cut to the named fields.
fn cut_all(alloc: Global, found: &[Found], names: &FieldList) -> Result<TopicBatch, Memory>
    ensures { IfOk result
        (λ batch. batch ≡ map (cut_item names.now) (map item_found found.now)) }
{
    let mut batch = TopicBatch::new(alloc);
    for item in found {
        let document = item.document.cut(alloc, names)?;
        batch.push(TopicItem {
            shard: item.shard,
            version: item.version,
            document,
        })?;
    }
    Ok(batch)
}
