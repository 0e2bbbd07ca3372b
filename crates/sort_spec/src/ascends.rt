// What gives rows in the order of a sort.
ghost use Rattle.std.specs.Prelude.{◌≡◌, ◌++◌, List, [], IfNone, IfSome, map, option_to_list};
ghost use Rattle.tuple_values.specs.Document.{Doc};
ghost use Rattle.sort_spec.specs.Runs.{IsRow};
ghost use Rattle.sort_spec.specs.declared.term.SortTerm.{SortTerm};

use crate::SortTerm;
use crate::lends::Lends;
use crate::rows::Fronted;
use std::collections::VecDeque;

/// What gives rows in the order of a sort, one after another.
pub(crate) trait Ascends<T: Lends + Drop>: Drop {
    // The documents that are still to come.
    ghost to_come: { List SortTerm → Self → List Doc };

    // What is kept beside them is theirs.
    ghost sound: { List SortTerm → Self → Type 0 };

    /// The next row; none exactly at the end. Takes no memory.
    fn next_row(&mut self, terms: &[SortTerm]) -> Option<Fronted<T>>
        requires { sound terms.now self.old }
        ensures next { to_come terms.now self.old
            ≡ map (λ row. T.doc row.item) (option_to_list result) ++ to_come terms.now self.new }
        ensures row { IfSome result (λ row. IsRow T.doc terms.now row) }
        ensures sound { sound terms.now self.new }
        ensures end { IfNone result (to_come terms.now self.new ≡ []) };
}

/// What lends tuples, which stands in order.
impl<T: Lends + Drop> Ascends<T> for VecDeque<T> {
    ghost use Rattle.std.specs.Prelude.{map};

    ghost to_come = { λ terms items. map T.doc items.items };

    ghost sound = { λ terms items. Unit {0} };

    fn next_row(&mut self, terms: &[SortTerm]) -> Option<Fronted<T>> {
        match self.pop_front() {
            Some(item) => Some(Fronted::of(terms, item)),
            None => None,
        }
    }
}
