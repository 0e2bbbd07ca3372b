// Runs of rows, each in order, and their merge.
ghost use Rattle.std.specs.Prelude.{◌≡◌, ◌<◌, ◌++◌, IfNone, IfOk, IfSome, OnOk, [], length, map, option_to_list};
ghost use Rattle.sort_spec.specs.Runs.{merged_of, parts_in, docs_in, AreRuns, IsRow, IsForemost};
ghost use Rattle.sort_spec.specs.Sorting.{IsAscending};
ghost use Rattle.sort_spec.specs.Terms.{less};

use crate::SortTerm;
use crate::ascends::Ascends;
use crate::front::compare_rows;
use crate::lends::Lends;
use crate::rows::Fronted;
use std::alloc::Global;
use std::mem;
use tuple_values::Memory;

/// A run that isn't over: the row that comes first in it, and what gives the others.
#[derive(Drop)]
pub(crate) struct Run<T, S> {
    first: Fronted<T>,
    others: S,
}

/// Runs are merged: of rows that tie, what an earlier run has comes first.
impl<T: Lends + Drop, S: Ascends<T>> Ascends<T> for Vec<Run<T, S>> {
    ghost use Rattle.sort_spec.specs.Runs.{merged_of, AreRuns};

    ghost to_come = { λ terms runs. merged_of T.doc (S.to_come terms) terms runs.items };

    ghost sound = { λ terms runs. AreRuns T.doc (S.to_come terms) (S.sound terms) terms runs.items };

    fn next_row(&mut self, terms: &[SortTerm]) -> Option<Fronted<T>> {
        take_least(terms, self)
    }
}

/// Adds a run before the others; nothing where it is over.
pub(crate) fn add_first<T: Lends + Drop, S: Ascends<T>>(
    terms: &[SortTerm],
    runs: &mut Vec<Run<T, S>>,
    run: S,
) -> Result<(), Memory>
    requires sound { S.sound terms.now run }
    requires ascending { IsAscending (less terms.now) (S.to_come terms.now run) }
    requires runs { AreRuns T.doc (S.to_come terms.now) (S.sound terms.now) terms.now
        runs.old.items }
    ensures docs { OnOk result (docs_in T.doc (S.to_come terms.now) runs.new.items
        ≡ S.to_come terms.now run ++ docs_in T.doc (S.to_come terms.now) runs.old.items) }
    ensures runs { OnOk result (AreRuns T.doc (S.to_come terms.now) (S.sound terms.now) terms.now
        runs.new.items) }
{
    let mut others = run;
    if let Some(first) = others.next_row(terms) {
        runs.insert(0, Run { first, others })?;
    }
    Ok(())
}

/// All that is to come, of which there are so many.
pub(crate) fn merge<T: Lends + Drop, S: Ascends<T>>(
    alloc: Global,
    terms: &[SortTerm],
    mut rows: S,
    count: usize,
) -> Result<Vec<T>, Memory>
    requires { S.sound terms.now rows }
    ensures { IfOk result (λ merged. map T.doc merged.items ≡ S.to_come terms.now rows) }
{
    let mut merged = Vec::with_capacity(alloc, count)?;
    while let Some(row) = rows.next_row(terms) {
        merged.push(row.item)?;
    }
    Ok(merged)
}

// Takes the first of the least.
fn take_least<T: Lends + Drop, S: Ascends<T>>(
    terms: &[SortTerm],
    runs: &mut Vec<Run<T, S>>,
) -> Option<Fronted<T>>
    requires { AreRuns T.doc (S.to_come terms.now) (S.sound terms.now) terms.now runs.old.items }
    ensures next { merged_of T.doc (S.to_come terms.now) terms.now runs.old.items
        ≡ map (λ row. T.doc row.item) (option_to_list result)
        ++ merged_of T.doc (S.to_come terms.now) terms.now runs.new.items }
    ensures row { IfSome result (λ row. IsRow T.doc terms.now row) }
    ensures runs { AreRuns T.doc (S.to_come terms.now) (S.sound terms.now) terms.now
        runs.new.items }
    ensures end { IfNone result (runs.new.items ≡ []) }
{
    if runs.is_empty() {
        return None;
    }
    let place = least(terms, runs.as_slice());
    let run = &mut runs[place];
    match run.others.next_row(terms) {
        Some(row) => Some(mem::replace(&mut run.first, row)),
        None => {
            let run = runs.remove(place);
            Some(run.first)
        }
    }
}

// The place of the first run whose first tuple is least.
fn least<T: Lends + Drop, S: Ascends<T>>(terms: &[SortTerm], runs: &[Run<T, S>]) -> usize
    requires some { 0 < length runs.now }
    requires runs { AreRuns T.doc (S.to_come terms.now) (S.sound terms.now) terms.now runs.now }
    ensures foremost { IsForemost (less terms.now) result
        (map (parts_in T.doc (S.to_come terms.now)) runs.now) }
    ensures within { result < length runs.now }
{
    let mut best = 0;
    for i in 1..runs.len() {
        if is_less(terms, &runs[i].first, &runs[best].first) {
            best = i;
        }
    }
    best
}

// Whether the first row comes before the second.
fn is_less<T: Lends + Drop>(terms: &[SortTerm], a: &Fronted<T>, b: &Fronted<T>) -> bool
    requires a { IsRow T.doc terms.now a.now }
    requires b { IsRow T.doc terms.now b.now }
    ensures { result ≡ less terms.now (T.doc a.now.item) (T.doc b.now.item) }
{
    compare_rows(terms, &a.front, a.item.tuple(), &b.front, b.item.tuple()).is_lt()
}
