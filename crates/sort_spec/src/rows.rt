// What lends tuples, with their values under the first terms of a sort.
ghost use Rattle.std.specs.Prelude.{◌≡◌, IfOk, map};
ghost use Rattle.sort_spec.specs.Rows.{row_in, row_for};

use crate::SortTerm;
use crate::front::Front;
use crate::lends::Lends;
use std::alloc::Global;
use tuple_values::Memory;

/// What lends a tuple, with the tuple's values.
#[derive(Drop)]
pub(crate) struct Fronted<T> {
    pub(crate) front: Front,
    pub(crate) item: T,
}

impl<T: Lends + Drop> Fronted<T> {
    /// What lends a tuple, with its values.
    pub(crate) fn of(terms: &[SortTerm], item: T) -> Fronted<T>
        ensures { row_in T.doc result ≡ row_for terms.now (T.doc item) }
    {
        let front = Front::of(terms, item.tuple());
        Fronted { front, item }
    }
}

/// The rows of what lends tuples, in their order. After an `Err` it is dropped.
pub(crate) fn make_rows<T: Lends + Drop>(
    alloc: Global,
    terms: &[SortTerm],
    items: Vec<T>,
) -> Result<Vec<Fronted<T>>, Memory>
    ensures { IfOk result (λ rows. map (row_in T.doc) rows.items
        ≡ map (row_for terms.now) (map T.doc items.items)) }
{
    let mut rows = Vec::with_capacity(alloc, items.len())?;
    for item in items {
        rows.push(Fronted::of(terms, item))?;
    }
    Ok(rows)
}

/// What lends the tuples of rows, in their order.
pub(crate) fn take_items<T: Lends + Drop>(
    alloc: Global,
    rows: Vec<Fronted<T>>,
) -> Result<Vec<T>, Memory>
    ensures { IfOk result (λ items. map T.doc items.items
        ≡ map (λ row. row.1) (map (row_in T.doc) rows.items)) }
{
    let mut items = Vec::with_capacity(alloc, rows.len())?;
    for row in rows {
        items.push(row.item)?;
    }
    Ok(items)
}
