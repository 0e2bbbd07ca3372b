// The source of a search.
ghost use Rattle.std.specs.Prelude.{◌≡◌, ◌<◌, ◌++◌, IsSome, IfOk, OnErr, map, filter, option_map};
ghost use Rattle.expr_types.specs.Parts.{search_parts};
ghost use Rattle.expr_types.specs.Sources.{first_rows, then_by_id, cut_to};
ghost use Rattle.sort_spec.specs.Sorting.{ins_sort};
ghost use Rattle.sort_spec.specs.Terms.{less};
ghost use Rattle.source_streams.specs.Cuts.{documents_of};
ghost use Rattle.source_streams.specs.Keeps.{doc_of, given_doc};
ghost use Rattle.source_streams.specs.Parts.{part_of, keys_of};
ghost use Rattle.source_streams.specs.Reads.{IsNext, searched};
ghost use Rattle.source_streams.specs.Wants.{is_wanted, early_part, late_part};

use crate::Part;
use crate::kept::{Given, Keeps, Kept};
use crate::part::keys_or_none;
use crate::scanned::add_matching;
use crate::wanted::Wanted;
use expr_types::Expr;
use shard_versions::{Cut, CutPart};
use sort_spec::{Lends, SortSpec, SortTerm, Sorted, sort_first};
use std::alloc::Global;
use std::marker::{Model, Sync};
use std::thread::Threads;
use tuple_values::{FieldList, Memory, Text, TryCopy, Tuple};

/// The tuples of a search that are still to come: their documents, which are shared with their shards,
/// and the fields to which each is cut when it is read. A contract sees the list of the tuples.
pub struct SearchCursor {
    first: Option<Given>,
    others: Sorted<Given>,
    fl: FieldList,
    alloc: Global,
}

impl Drop for SearchCursor {
    fn drop(self) {
        let SearchCursor {
            first,
            others,
            fl,
            alloc: _,
        } = self;
        drop(first);
        drop(others);
        drop(fl);
    }
}

impl Model for SearchCursor {
    ghost use Rattle.std.specs.Prelude.{◌≡◌, ◌++◌, List, [], IfNone, map, option_to_list};
    ghost use Rattle.tuple_values.specs.Document.{Doc};
    ghost use Rattle.tuple_values.specs.Codes.{docs_code};
    ghost use Rattle.expr_types.specs.Sources.{cut_to};
    ghost use Rattle.source_streams.specs.Keeps.{given_doc};

    ghost Value = { List Doc };

    ghost coded = { docs_code };

    ghost view = { λ s. map (cut_to s.fl) (map given_doc (option_to_list s.first) ++ s.others) };

    ghost invariant = { λ s. IfNone s.first (s.others ≡ []) };
}

impl SearchCursor {
    /// The part's tuples of a search over a cut, which holds each shard of its collection: the
    /// matching documents, sorted by the search's sort and then by id, the first `rows`, each cut
    /// to `fl`. Looks at each document once, in several threads where there are many, and copies none.
    /// Takes some n log n comparisons of the n matching ones of the part; where there are `rows`, some
    /// n log m of the n of all parts, where m is the greater of `rows` and 4,096, or n if that is less.
    pub fn make<R: Threads + Sync>(
        rt: &R,
        alloc: Global,
        search: &Expr,
        cut: &Cut,
        part: Part,
    ) -> Result<SearchCursor, Memory>
        requires search { IsSome (search_parts search.now) }
        requires part { part.index < part.of }
        ensures { IfOk result (λ cursor. cursor ≡ searched search.now cut.now part) }
    {
        let Expr::Search {
            collection,
            q,
            fl,
            sort,
            rows,
            partition_keys,
        } = search
        else {
            unreachable!();
        };
        let none = FieldList::new(alloc);
        let wanted = Wanted {
            q,
            fl,
            keys: keys_or_none(partition_keys.as_ref(), &none),
            part: early_part(part, *rows),
        };
        let by = by_id(alloc, sort)?;
        let fl = fl.copy(alloc)?;
        let others = given_of(
            rt,
            alloc,
            &wanted,
            collection,
            cut.as_slice(),
            by,
            *rows,
            part,
        )?;
        Ok(SearchCursor::over(alloc, others, fl))
    }

    // The cursor of documents in order, each cut to the fields.
    fn over(alloc: Global, mut others: Sorted<Given>, fl: FieldList) -> SearchCursor
        ensures { result ≡ map (cut_to fl) others }
    {
        let first = others.next();
        SearchCursor {
            first,
            others,
            fl,
            alloc,
        }
    }

    /// The next tuple, which is copied; none exactly at the end, and from then on. An `Err` leaves all as
    /// it was.
    pub fn read(&mut self) -> Result<Option<Tuple>, Memory>
        ensures next { IfOk result (λ next. IsNext self.old next self.new) }
        ensures err { OnErr result (self.new ≡ self.old) }
    {
        let Some(document) = &self.first else {
            return Ok(None);
        };
        let tuple = document.tuple().cut(self.alloc, &self.fl)?;
        self.first = self.others.next();
        Ok(Some(tuple))
    }
}

// What is kept of the documents of a collection that are wanted, in their order.
fn matching<'a, K: Keeps<'a>, R: Threads + Sync>(
    rt: &R,
    alloc: Global,
    wanted: &Wanted,
    collection: &Text,
    cut: &'a [CutPart],
) -> Result<Vec<K>, Memory>
    ensures { IfOk result (λ found. map K.doc found.items
        ≡ filter (is_wanted wanted.now.q.now.clauses wanted.now.fl.now wanted.now.keys.now
        wanted.now.part) (documents_of collection.now cut.now)) }
{
    let mut found = Vec::new(alloc);
    for part in cut {
        if part.collection.as_str() == collection.as_str() {
            add_matching(rt, alloc, &mut found, wanted, &part.snapshot)?;
        }
    }
    Ok(found)
}

// The part that is taken of what matches, before the sort: all, where rows are counted first.
fn early_part(part: Part, rows: Option<u64>) -> Part
    requires { part.index < part.of }
    ensures part { result ≡ early_part rows part }
    ensures in_range { result.index < result.of }
{
    match rows {
        None => part,
        Some(_) => Part::whole(),
    }
}

// A sort, and then by id.
fn by_id(alloc: Global, sort: &SortSpec) -> Result<SortSpec, Memory>
    ensures { IfOk result (λ by. by ≡ then_by_id sort.now) }
{
    let mut by = sort.copy(alloc)?;
    by.push(SortTerm {
        field: Text::of(alloc, "id")?,
        descending: false,
    })?;
    Ok(by)
}

// The wanted documents in order; of the first so many, where rows are counted, those whose cuts to the fields
// are of the part.
fn given_of<R: Threads + Sync>(
    rt: &R,
    alloc: Global,
    wanted: &Wanted,
    collection: &Text,
    cut: &[CutPart],
    by: SortSpec,
    rows: Option<u64>,
    part: Part,
) -> Result<Sorted<Given>, Memory>
    requires { part.index < part.of }
    ensures { IfOk result (λ given. map (cut_to wanted.now.fl.now) given
        ≡ part_of (late_part rows part).index (late_part rows part).of wanted.now.keys.now
        (map (cut_to wanted.now.fl.now) (first_rows rows (ins_sort (less by)
        (filter (is_wanted wanted.now.q.now.clauses wanted.now.fl.now wanted.now.keys.now
        wanted.now.part) (documents_of collection.now cut.now)))))) }
{
    let Some(most) = rows else {
        let found = matching::<Given, R>(rt, alloc, wanted, collection, cut)?;
        let given = Sorted::of(found, by)?;
        return Ok(given);
    };
    let found = matching::<Kept, R>(rt, alloc, wanted, collection, cut)?;
    let first = sort_first(found, &by, most as usize)?;
    let given = shared_part(alloc, first.as_slice(), wanted, part)?;
    Ok(Sorted::in_order(given))
}

// Those whose cuts to the fields are of the part.
fn shared_part(
    alloc: Global,
    found: &[Kept],
    wanted: &Wanted,
    part: Part,
) -> Result<Vec<Given>, Memory>
    requires { part.index < part.of }
    ensures { IfOk result (λ given. map (cut_to wanted.now.fl.now) (map given_doc given.items)
        ≡ part_of part.index part.of wanted.now.keys.now
        (map (cut_to wanted.now.fl.now) (map doc_of found.now))) }
{
    let mut given = Vec::with_capacity(alloc, found.len())?;
    for kept in found {
        if part.holds(wanted.keys, wanted.fl, kept.tuple()) {
            given.push(Given::of(kept.document)?)?;
        }
    }
    Ok(given)
}
