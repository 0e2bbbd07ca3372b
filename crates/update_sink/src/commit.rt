// Commits of tuples.
ghost use Rattle.std.specs.Prelude.{◌≡◌, option_map};
ghost use Rattle.tuple_values.specs.Document.{value_at};
ghost use Rattle.tuple_values.specs.Views.{datum_of};
ghost use Rattle.exchange_rules.specs.Calls.{Ended};
ghost use Rattle.exchange_rules.specs.Updates.{commit_round_course, count_of, counted, is_reached, weight};

use crate::progress::sum;
use std::alloc::Global;
use stream_site::{SiteFault, Turns, commit_all_over};
use tuple_values::{Text, Tuple, Tuples, Value};

// A number as a count; a negative one is 0.
fn count_of(n: i64) -> u64
    ensures { result ≡ count_of n }
{
    match u64::try_from(n) {
        Ok(n) => n,
        Err(_) => 0,
    }
}

// The count that a value is, and 0 where it is none.
fn counted(value: Option<&Value>) -> u64
    ensures { result ≡ counted (option_map (λ v. datum_of v.now) value.entry) }
{
    match value {
        Some(Value::Long(n)) => count_of(*n),
        Some(Value::Text(_) | Value::Group(_)) | None => 0,
    }
}

// For how many a tuple counts.
fn weight(summaries: bool, tuple: &Tuple) -> u64
    ensures { result ≡ weight summaries tuple.now }
{
    if summaries {
        counted(tuple.get("batchIndexed"))
    } else {
        1
    }
}

// Whether so many tuples are reached.
fn is_reached(batch_size: Option<u64>, count: u64) -> bool
    ensures { result ≡ is_reached batch_size count }
{
    match batch_size {
        Some(size) => size > 0 && size <= count,
        None => false,
    }
}

// The commits before the one at the end, and that one.
fn commit_each<T: Turns>(
    alloc: Global,
    site: &mut T,
    dest: &Text,
    batch_size: Option<u64>,
    tuples: &Tuples,
    summaries: bool,
) -> Result<(), SiteFault>
    ensures course { Ended (T.writer site.old) (T.writer site.new)
        (commit_round_course (T.layout site.old) dest.now batch_size summaries tuples.now) result }
    ensures layout { T.layout site.new ≡ T.layout site.old }
    ensures home { T.home site.new ≡ T.home site.old }
{
    let mut count: u64 = 0;
    for k in 0..tuples.count() {
        count = sum(count, weight(summaries, tuples.get(k)))?;
        if is_reached(batch_size, count) {
            commit_all_over(alloc, site, dest)?;
            count = 0;
        }
    }
    commit_all_over(alloc, site, dest)
}

/// Commits a collection each time so many tuples are reached, where a number above 0 is given, and
/// once at the end. Each tuple counts for one; summaries of an update count for their batches. A
/// commit is a Mark on each shard where a write is pending. The writer has no turn afterwards.
pub fn run_commit<T: Turns>(
    alloc: Global,
    site: &mut T,
    dest: &Text,
    batch_size: Option<u64>,
    tuples: &Tuples,
    summaries: bool,
) -> Result<(), SiteFault>
    ensures course { Ended (T.writer site.old) (T.writer site.new)
        (commit_round_course (T.layout site.old) dest.now batch_size summaries tuples.now) result }
    ensures free { T.free site.new }
    ensures layout { T.layout site.new ≡ T.layout site.old }
    ensures home { T.home site.new ≡ T.home site.old }
{
    let result = commit_each(alloc, site, dest, batch_size, tuples, summaries);
    site.leave();
    result
}
