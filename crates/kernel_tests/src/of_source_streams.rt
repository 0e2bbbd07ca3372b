// Tests of source_streams: that a search means what the rules say, and that each call that takes
// memory succeeds.
use crate::making::{names, sort_by, tuple};
use expr_types::Expr;
use query_syntax::read_query;
use shard_versions::{Cut, CutPart, Entry, ShardFault, ShardState, Snapshot, Step, are_storable};
use source_streams::{Part, SearchCursor, TupleOnce};
use std::alloc::Global;
use std::marker::Sync;
use std::test::Fail;
use std::thread::Threads;
use tuple_values::{Memory, Text, Tuple, Value};

fn put_all(alloc: Global, step: &mut Step, rows: &[&str]) -> Result<(), Memory> {
    for row in rows {
        step.push(Entry::put(1, tuple(alloc, row)?))?;
    }
    Ok(())
}

// These documents, committed, and then one that isn't.
fn step(alloc: Global, rows: &[&str]) -> Result<Step, Memory> {
    let mut step = Step::new(alloc);
    put_all(alloc, &mut step, rows)?;
    step.push(Entry::mark(1))?;
    put_all(alloc, &mut step, &["id=pending n_i=9"])?;
    Ok(step)
}

fn append(shard: &mut ShardState, step: Step) -> Result<(), ShardFault> {
    if are_storable(&step) {
        shard.reserve(&step)?;
        shard.append(step);
    }
    Ok(())
}

fn shard(alloc: Global, rows: &[&str]) -> Result<ShardState, Fail> {
    let step = step(alloc, rows)?;
    let mut shard = ShardState::empty(alloc, 1_000_000);
    append(&mut shard, step)?;
    Ok(shard)
}

fn snapshot(alloc: Global, rows: &[&str]) -> Result<Snapshot, Fail> {
    let shard = shard(alloc, rows)?;
    Ok(shard.snapshot(alloc)?)
}

// Adds what is read of a shard of a collection.
fn push(alloc: Global, cut: &mut Cut, name: &str, rows: &[&str]) -> Result<(), Fail> {
    let collection = Text::of(alloc, name)?;
    let snapshot = snapshot(alloc, rows)?;
    cut.push(CutPart {
        collection,
        shard: 0,
        snapshot,
    })?;
    Ok(())
}

const FIRST: [&str; 6] = [
    "id='4 n_i=1",
    "id='4 n_i=9",
    "id='4 n_i=0",
    "id='4 n_i=5",
    "id='7 n_i=3",
    "id='4 n_i=2",
];

const LAST: [&str; 3] = ["id='5 n_i=2", "id='6 n_i=5", "id='10 n_i=2"];

// Three shards of c, of which the second has no committed document, and one of another collection.
fn push_all(alloc: Global, cut: &mut Cut) -> Result<(), Fail> {
    push(alloc, cut, "c", &FIRST)?;
    push(alloc, cut, "c", &[])?;
    push(alloc, cut, "d", &["id='1 n_i=1"])?;
    push(alloc, cut, "c", &LAST)
}

// A search of c that sorts by `n_i`, the greatest first.
fn search(alloc: Global, q: &str, rows: Option<u64>) -> Result<Expr, Fail> {
    let q = read_query(alloc, q)?;
    let collection = Text::of(alloc, "c")?;
    let fl = names(alloc, "id")?;
    let sort = sort_by(alloc, "n_i", true)?;
    Ok(Expr::Search {
        collection,
        q,
        fl,
        sort,
        rows,
        partition_keys: None,
    })
}

fn has_id(tuple: Option<Tuple>, wanted: &str) -> bool {
    match tuple {
        Some(tuple) => is_text(tuple.get("id"), wanted),
        None => false,
    }
}

fn is_text(value: Option<&Value>, wanted: &str) -> bool {
    match value {
        Some(Value::Text(text)) => text.as_str() == wanted,
        _ => false,
    }
}

// Whether these are the ids of what is still to come.
fn gives(cursor: &mut SearchCursor, ids: &str) -> Result<bool, Memory> {
    for id in ids.split_whitespace() {
        if !has_id(cursor.read()?, id) {
            return Ok(false);
        }
    }
    Ok(cursor.read()?.is_none())
}

// Whether a search gives these ids over a cut.
fn finds<R: Threads + Sync>(
    rt: &R,
    alloc: Global,
    search: &Expr,
    cut: &Cut,
    ids: &str,
) -> Result<bool, Memory> {
    match search {
        Expr::Search { .. } => {
            let mut cursor = SearchCursor::make(rt, alloc, search, cut, Part::whole())?;
            gives(&mut cursor, ids)
        }
        _ => Ok(false),
    }
}

fn is_found<R: Threads + Sync>(
    rt: &R,
    alloc: Global,
    cut: &Cut,
    found: &(&str, Option<u64>, &str),
) -> Result<bool, Fail> {
    let (q, rows, ids) = *found;
    let search = search(alloc, q, rows)?;
    Ok(finds(rt, alloc, &search, cut, ids)?)
}

// A query, the rows that are taken, and the ids that are given.
const FOUND: [(&str, Option<u64>, &str); 6] = [
    ("*:*", None, "6 7 10 4 5"),
    ("*:*", Some(2), "6 7"),
    ("*:*", Some(0), ""),
    ("n_i:2", None, "10 4 5"),
    ("n_i:[3 TO *]", Some(9), "6 7"),
    ("n_i:1", None, ""),
];

// How many rows of the table are found, from the first on.
fn found_by<R: Threads + Sync>(rt: &R, alloc: Global, cut: &Cut) -> Result<usize, Fail> {
    for (k, found) in FOUND.iter().enumerate() {
        if !is_found(rt, alloc, cut, found)? {
            return Ok(k);
        }
    }
    Ok(FOUND.len())
}

fn found_in_all<R: Threads + Sync>(rt: &R, alloc: Global) -> Result<usize, Fail> {
    let mut cut = Cut::new(alloc);
    push_all(alloc, &mut cut)?;
    found_by(rt, alloc, &cut)
}

#[test]
fn a_search_sorts_what_matches_and_then_takes_rows(rt: HostRuntime) -> Result<(), Fail> {
    assert_eq!(rt; found_in_all(&rt, rt.alloc())?, FOUND.len());
    Ok(())
}

fn push_empty(alloc: Global, cut: &mut Cut) -> Result<(), Fail> {
    push(alloc, cut, "c", &[])?;
    push(alloc, cut, "c", &[])
}

fn is_none_found<R: Threads + Sync>(rt: &R, alloc: Global) -> Result<bool, Fail> {
    let mut cut = Cut::new(alloc);
    push_empty(alloc, &mut cut)?;
    is_found(rt, alloc, &cut, &("*:*", None, ""))
}

#[test]
fn two_empty_shards_give_nothing(rt: HostRuntime) -> Result<(), Fail> {
    assert!(rt; is_none_found(&rt, rt.alloc())?);
    Ok(())
}

// Whether the first read gives a tuple, and the second none.
fn comes_once(once: &mut TupleOnce) -> Result<bool, Memory> {
    Ok(once.read()?.is_some() && once.read()?.is_none())
}

fn is_once(alloc: Global, tuple: &Expr) -> Result<bool, Memory> {
    match tuple {
        Expr::Tuple { .. } => {
            let mut once = TupleOnce::make(alloc, tuple)?;
            comes_once(&mut once)
        }
        _ => Ok(false),
    }
}

fn one_tuple(alloc: Global) -> Result<Box<Expr>, Memory> {
    let fields = tuple(alloc, "id='1 n_i=5")?;
    Ok(Box::new(alloc, Expr::Tuple { fields })?)
}

#[test]
fn one_tuple_comes_once(rt: HostRuntime) -> Result<(), Fail> {
    let tuple = one_tuple(rt.alloc())?;
    assert!(rt; is_once(rt.alloc(), &tuple)?);
    Ok(())
}
