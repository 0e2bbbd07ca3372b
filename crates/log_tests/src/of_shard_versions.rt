// Tests of shard_versions, by histories worked by hand from the rules.
ghost use Rattle.std.specs.Prelude.{◌≤◌};

use crate::making::{document, put_long, put_text};
use shard_versions::{
    Entry, ShardFault, ShardState, Snapshot, Step, are_fit, are_storable, is_storable, snapshot_of,
};
use std::alloc::Global;
use tuple_values::{Memory, Text, TryCopy, Tuple, Tuples, Value, fnv1a};

// An entry as a row of a table writes it.
#[derive(Clone, Copy)]
enum Plain {
    Put(&'static str, i64),
    Del(&'static str),
    Sent(&'static str, u64, &'static str),
    Mark,
}

use Plain::{Del, Mark, Put, Sent};

fn sent(alloc: Global, src: &str, version: u64, id: &str) -> Result<Entry, Memory> {
    let document = document(alloc, id, 0)?;
    Ok(Entry::sent(7, Text::of(alloc, src)?, version, document))
}

fn entry(alloc: Global, plain: Plain) -> Result<Entry, Memory> {
    match plain {
        Put(id, n) => Ok(Entry::put(7, document(alloc, id, n)?)),
        Del(id) => Ok(Entry::del(7, Text::of(alloc, id)?)),
        Sent(src, version, id) => sent(alloc, src, version, id),
        Mark => Ok(Entry::mark(7)),
    }
}

fn step_of(alloc: Global, entry: Entry) -> Result<Step, Memory> {
    let mut step = Step::new(alloc);
    step.push(entry)?;
    Ok(step)
}

// Appends the step where it can be kept.
fn take(shard: &mut ShardState, step: Step) -> Result<bool, ShardFault> {
    if !are_storable(&step) {
        return Ok(false);
    }
    shard.reserve(&step)?;
    shard.append(step);
    Ok(true)
}

fn long_at(tuple: &Tuple, name: &str) -> i64 {
    match tuple.get(name) {
        Some(Value::Long(n)) => *n,
        _ => -1,
    }
}

// Whether the snapshot has this top, and so many documents, the last of this version and number.
fn is_seen(shown: &Snapshot, top: u64, count: u64, version: u64, n: i64) -> bool {
    if shown.top() != top || shown.count() != count {
        return false;
    }
    if shown.count() == 0 {
        return version == 0;
    }
    let last = shown.count() - 1;
    let tuple = shown.document(last);
    shown.version(last) == version
        && long_at(tuple, "_version_").cast_unsigned() == version
        && long_at(tuple, "n_i") == n
        && tuple.count() == 3
}

// Appends a copy of the entry.
fn grow(shard: &mut ShardState, alloc: Global, plain: Plain) -> Result<bool, ShardFault> {
    let copy = entry(alloc, plain)?.copy(alloc)?;
    take(shard, step_of(alloc, copy)?)
}

fn grows(shard: &mut ShardState, alloc: Global, plain: Plain) -> bool {
    matches!(grow(shard, alloc, plain), Ok(true))
}

// Whether each of the entries is appended.
fn all_grow(shard: &mut ShardState, alloc: Global, entries: &[Plain]) -> bool {
    for plain in entries {
        if !grows(shard, alloc, *plain) {
            return false;
        }
    }
    true
}

fn shows(shard: &ShardState, alloc: Global, top: u64, count: u64, version: u64, n: i64) -> bool {
    match shard.snapshot(alloc) {
        Ok(shown) => is_seen(&shown, top, count, version, n),
        Err(_) => false,
    }
}

fn shows_what_is_committed(shard: &mut ShardState, alloc: Global) -> bool {
    grows(shard, alloc, Put("a", 1))
        && shows(shard, alloc, 0, 0, 0, 0)
        && shard.pending()
        && all_grow(shard, alloc, &[Mark, Put("a", 2)])
        && shows(shard, alloc, 1, 1, 1, 1)
        && shard.pending()
}

#[test]
fn what_is_committed_is_current(rt: HostRuntime) {
    let mut shard = ShardState::empty(rt.alloc(), 268435456);
    assert!(rt; shows_what_is_committed(&mut shard, rt.alloc()));
}

fn shows_what_stays(shard: &mut ShardState, alloc: Global) -> bool {
    all_grow(shard, alloc, &[Put("a", 1), Put("b", 2), Mark])
        && all_grow(shard, alloc, &[Put("b", 3), Del("a"), Mark])
        && shows(shard, alloc, 4, 1, 3, 3)
        && !shard.pending()
        && shard.bytes() == 62 + 62 + 16 + 62 + 33 + 16
}

#[test]
fn what_is_replaced_or_deleted_is_not_current(rt: HostRuntime) {
    let mut shard = ShardState::empty(rt.alloc(), 268435456);
    assert!(rt; shows_what_stays(&mut shard, rt.alloc()));
}

fn admits(
    shard: &ShardState,
    alloc: Global,
    src: &str,
    id: &str,
    version: u64,
) -> Result<bool, Memory> {
    let src = Text::of(alloc, src)?;
    let id = Text::of(alloc, id)?;
    Ok(shard.admits_sent(&src, &id, version))
}

fn is_newer(shard: &ShardState, alloc: Global, src: &str, id: &str, version: u64) -> bool {
    matches!(admits(shard, alloc, src, id, version), Ok(true))
}

fn is_older(shard: &ShardState, alloc: Global, src: &str, id: &str, version: u64) -> bool {
    matches!(admits(shard, alloc, src, id, version), Ok(false))
}

// `costarring` and `liquid` have one 32-bit FNV-1a hash.
const DELIVERED: [Plain; 3] = [
    Sent("c", 5, "costarring"),
    Sent("c", 3, "costarring"),
    Put("liquid", 1),
];

fn admits_newer_ones(shard: &mut ShardState, alloc: Global) -> bool {
    all_grow(shard, alloc, &DELIVERED)
        && is_newer(shard, alloc, "c", "costarring", 6)
        && is_older(shard, alloc, "c", "costarring", 5)
        && is_older(shard, alloc, "c", "costarring", 4)
        && is_newer(shard, alloc, "d", "costarring", 1)
}

#[test]
fn only_a_newer_delivery_is_admitted(rt: HostRuntime) {
    let mut shard = ShardState::empty(rt.alloc(), 268435456);
    assert!(rt; admits_newer_ones(&mut shard, rt.alloc()));
}

fn tells_ids_apart(shard: &mut ShardState, alloc: Global) -> bool {
    all_grow(shard, alloc, &DELIVERED)
        && is_newer(shard, alloc, "c", "liquid", 1)
        && grows(shard, alloc, Mark)
        && shows(shard, alloc, 3, 2, 3, 1)
        && shard.bytes() == 72 + 72 + 67 + 16
}

#[test]
fn ids_of_one_hash_are_told_apart(rt: HostRuntime) {
    assert!(rt; fnv1a(b"costarring") == fnv1a(b"liquid"));
    let mut shard = ShardState::empty(rt.alloc(), 268435456);
    assert!(rt; tells_ids_apart(&mut shard, rt.alloc()));
}

// What is seen of the history, read as it stands.
fn read_again(alloc: Global, shard: ShardState) -> Result<Snapshot, Memory> {
    let entries = shard.into_entries(alloc)?;
    snapshot_of(alloc, entries.as_slice())
}

fn begins_with_a_mark(shard: &mut ShardState, alloc: Global) -> bool {
    grows(shard, alloc, Mark)
        && shows(shard, alloc, 0, 0, 0, 0)
        && !shard.pending()
        && all_grow(shard, alloc, &[Del("a"), Sent("c", 9, "a"), Mark])
}

fn is_read_again(shard: ShardState, alloc: Global) -> bool {
    match read_again(alloc, shard) {
        Ok(shown) => shown.upto() == 4 && is_seen(&shown, 2, 1, 2, 0),
        Err(_) => false,
    }
}

#[test]
fn a_history_is_read_as_it_stands(rt: HostRuntime) {
    let mut shard = ShardState::empty(rt.alloc(), 268435456);
    assert!(rt; begins_with_a_mark(&mut shard, rt.alloc()));
    assert!(rt; is_read_again(shard, rt.alloc()));
}

// Two Marks, of 16 counted bytes each.
fn two_marks(alloc: Global) -> Result<Step, Memory> {
    let mut step = step_of(alloc, Entry::mark(1))?;
    step.push(Entry::mark(1))?;
    Ok(step)
}

fn takes_two_marks(shard: &mut ShardState, alloc: Global) -> Result<bool, ShardFault> {
    let step = two_marks(alloc)?;
    take(shard, step)
}

// Whether a shard of so many bytes takes two Marks once, and how it answers the next two.
fn answers(alloc: Global, limit: u64, want: Result<bool, ShardFault>, len: u64) -> bool
    requires { limit ≤ 268435456 }
{
    let mut shard = ShardState::empty(alloc, limit);
    takes_two_marks(&mut shard, alloc) == Ok(true)
        && takes_two_marks(&mut shard, alloc) == want
        && shard.len() == len
}

#[test]
fn a_full_shard_stays_as_it_was(rt: HostRuntime) {
    assert!(rt;
        answers(rt.alloc(), 48, Err(ShardFault::ShardFull), 2)
            && answers(rt.alloc(), 63, Err(ShardFault::ShardFull), 2)
            && answers(rt.alloc(), 64, Ok(true), 4)
    );
}

// Whether a step of the entry belongs to this shard of two.
fn belongs(alloc: Global, plain: Plain, shard: u16) -> Result<bool, Memory> {
    let step = step_of(alloc, entry(alloc, plain)?)?;
    Ok(are_fit(&step, 2, shard))
}

fn is_at(alloc: Global, plain: Plain, shard: u16) -> bool {
    matches!(belongs(alloc, plain, shard), Ok(true))
        && matches!(belongs(alloc, plain, 1 - shard.min(1)), Ok(false))
}

fn ids_have_their_shards(alloc: Global) -> bool {
    is_at(alloc, Put("2", 0), 1) && is_at(alloc, Sent("c", 1, "3"), 0) && is_at(alloc, Del("2"), 1)
}

fn others_have_none_or_all(alloc: Global) -> bool {
    belongs(alloc, Mark, 0) == Ok(true)
        && belongs(alloc, Mark, 1) == Ok(true)
        && belongs(alloc, Put("", 0), 1) == Ok(false)
}

#[test]
fn an_id_belongs_to_the_shard_of_its_hash(rt: HostRuntime) {
    assert!(rt; ids_have_their_shards(rt.alloc()) && others_have_none_or_all(rt.alloc()));
}

fn is_kept_with_long(alloc: Global, name: &str) -> Result<bool, Memory> {
    let mut document = document(alloc, "a", 1)?;
    put_long(alloc, &mut document, name, 1)?;
    Ok(is_storable(&document))
}

fn is_kept_with_no_id(alloc: Global) -> Result<bool, Memory> {
    let mut document = document(alloc, "a", 1)?;
    put_text(alloc, &mut document, "id", "")?;
    Ok(is_storable(&document))
}

fn put_group(alloc: Global, tuple: &mut Tuple) -> Result<(), Memory> {
    let name = Text::of(alloc, "g")?;
    tuple.put(name, Value::Group(Tuples::empty(alloc)))
}

fn is_kept_with_group(alloc: Global) -> Result<bool, Memory> {
    let mut document = document(alloc, "a", 1)?;
    put_group(alloc, &mut document)?;
    Ok(is_storable(&document))
}

#[test]
fn a_document_has_an_id_and_no_group_or_version(rt: HostRuntime) {
    assert!(rt;
        is_kept_with_long(rt.alloc(), "m_i") == Ok(true)
            && is_kept_with_group(rt.alloc()) == Ok(false)
            && is_kept_with_long(rt.alloc(), "_version_") == Ok(false)
            && is_kept_with_long(rt.alloc(), "id") == Ok(false)
            && is_kept_with_no_id(rt.alloc()) == Ok(false)
    );
    assert!(rt; !is_storable(&Tuple::empty(rt.alloc())));
}

fn is_shared<T: Sync>() {}

#[test]
fn a_snapshot_is_read_by_other_threads(_rt: HostRuntime) {
    is_shared::<Snapshot>();
}
