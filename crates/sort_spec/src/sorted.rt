// What is given in the order of a sort, one after another.
ghost use Rattle.std.specs.Prelude.{◌≡◌, ◌∷◌, [], IfNone, IfOk, IfSome, map};
ghost use Rattle.sort_spec.specs.Sorted.{rows_left, AreSound};
ghost use Rattle.sort_spec.specs.Sorting.{ins_sort};
ghost use Rattle.sort_spec.specs.Terms.{less};

use crate::SortSpec;
use crate::ascends::Ascends;
use crate::lends::Lends;
use crate::sorting::{Groups, WHOLE, groups_of, sort_run};
use std::collections::VecDeque;
use std::marker::Model;
use tuple_values::Memory;

// What is still to come: a list, or groups of runs that are merged by the terms.
#[derive(Drop)]
enum Rows<T> {
    Whole(VecDeque<T>),
    Merged(SortSpec, Groups<T>),
}

/// What lends tuples, in an order, one after another. A contract sees the list of the tuples that are
/// still to come.
#[derive(Drop)]
pub struct Sorted<T: Lends + Drop> {
    rows: Rows<T>,
}

impl<T: Lends + Drop> Model for Sorted<T> {
    ghost use Rattle.std.specs.Prelude.{List};
    ghost use Rattle.tuple_values.specs.Codes.{docs_code};
    ghost use Rattle.tuple_values.specs.Document.{Doc};

    ghost Value = { List Doc };

    ghost coded = { docs_code };

    ghost use Rattle.sort_spec.specs.Sorted.{rows_left, AreSound};

    ghost view = { λ s. rows_left T.doc s.rows };

    ghost invariant = { λ s. AreSound T.doc s.rows };
}

impl<T: Lends + Drop> Sorted<T> {
    /// Sorts by these as `sort_lenders` does; after an `Err` the items are dropped. More than 65,536 stay in
    /// runs, which `next` merges: no second place is held for each of them.
    pub fn of(items: Vec<T>, by: SortSpec) -> Result<Sorted<T>, Memory>
        ensures { IfOk result (λ sorted. sorted ≡ ins_sort (less by) (map T.doc items.items)) }
    {
        if items.len() <= WHOLE {
            let sorted = sort_run(by.as_slice(), items)?;
            return Ok(Sorted::in_order(sorted));
        }
        let groups = groups_of(by.as_slice(), items)?;
        Ok(Sorted {
            rows: Rows::Merged(by, groups),
        })
    }

    /// What stands in its order already. Takes no memory.
    pub fn in_order(items: Vec<T>) -> Sorted<T>
        ensures { result ≡ map T.doc items.items }
    {
        Sorted {
            rows: Rows::Whole(VecDeque::from(items)),
        }
    }

    /// The next; none exactly at the end, and from then on. Takes no memory. Of what was sorted in runs
    /// the first of each of up to 32 is looked at, and that after it is looked up.
    pub fn next(&mut self) -> Option<T>
        ensures next { IfSome result (λ item. self.old ≡ T.doc item ∷ self.new) }
        ensures end { IfNone result ((self.old ≡ []) × (self.new ≡ [])) }
    {
        next_of(&mut self.rows)
    }
}

// The same of rows.
fn next_of<T: Lends + Drop>(rows: &mut Rows<T>) -> Option<T>
    requires { AreSound T.doc rows.old }
    ensures next { IfSome result (λ item. rows_left T.doc rows.old
        ≡ T.doc item ∷ rows_left T.doc rows.new) }
    ensures end { IfNone result ((rows_left T.doc rows.old ≡ []) × (rows_left T.doc rows.new ≡ [])) }
    ensures sound { AreSound T.doc rows.new }
{
    match rows {
        Rows::Whole(items) => items.pop_front(),
        Rows::Merged(by, groups) => {
            let row = groups.next_row(by.as_slice())?;
            Some(row.item)
        }
    }
}
