// The values of a tuple under the first two terms of a sort, each looked up once.
ghost use Rattle.std.specs.Prelude.{◌≡◌};
ghost use Rattle.sort_spec.specs.Fronts.{front_in, front_of, value_cmp, row_cmp};
ghost use Rattle.sort_spec.specs.Held.{held};

use crate::SortTerm;
use crate::comparing::compare_terms;
use crate::held::{Held, compare_held};
use std::cmp::Ordering;
use tuple_values::Tuple;

/// The values under the first two terms, absent under one that isn't there. Two tuples that tie by them are
/// compared by the other terms with look-ups.
#[derive(Clone, Copy)]
pub(crate) struct Front {
    first: Held,
    second: Held,
}

impl Front {
    /// The values of a tuple.
    pub(crate) fn of(terms: &[SortTerm], tuple: &Tuple) -> Front
        ensures { front_in tuple.now result ≡ front_of terms.now tuple.now }
    {
        match terms {
            [] => Front {
                first: Held::Absent,
                second: Held::Absent,
            },
            [term] => Front {
                first: Held::of(tuple, term.field.as_str()),
                second: Held::Absent,
            },
            [term, next, ..] => Front {
                first: Held::of(tuple, term.field.as_str()),
                second: Held::of(tuple, next.field.as_str()),
            },
        }
    }
}

/// How two tuples compare by the terms, each with its values. Takes no memory.
pub(crate) fn compare_rows(
    terms: &[SortTerm],
    a: &Front,
    of: &Tuple,
    b: &Front,
    other: &Tuple,
) -> Ordering
    ensures { result ≡ row_cmp terms.now (front_in of.now a.now, of.now)
        (front_in other.now b.now, other.now) }
{
    match terms {
        [] => Ordering::Equal,
        [term] => compare_by(term, &a.first, of, &b.first, other),
        [term, next, others @ ..] => {
            let order = compare_by(term, &a.first, of, &b.first, other);
            if order.is_ne() {
                return order;
            }
            let order = compare_by(next, &a.second, of, &b.second, other);
            if order.is_ne() {
                return order;
            }
            compare_terms(others, of, other)
        }
    }
}

// How two values compare by a term.
fn compare_by(term: &SortTerm, a: &Held, of: &Tuple, b: &Held, other: &Tuple) -> Ordering
    ensures { result ≡ value_cmp term.now (held of.now a.now) (held other.now b.now) }
{
    let order = compare_held(a, of, b, other);
    if term.descending {
        order.reverse()
    } else {
        order
    }
}
