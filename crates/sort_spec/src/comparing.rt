// The order that a sort writes.
ghost use Rattle.std.specs.Prelude.{◌≡◌, List, Bool};
ghost use Rattle.std.specs.Cmp.{IsTotalOrder, IsStrictWeakOrder};
ghost use Rattle.tuple_values.specs.Document.{Doc};
ghost use Rattle.sort_spec.specs.Terms.{term_cmp, sort_cmp, less};
ghost use Rattle.sort_spec.specs.declared.term.SortTerm.{SortTerm};

use crate::{SortSpec, SortTerm};
use std::cmp::Ordering;
use tuple_values::{Tuple, compare};

// How two tuples compare by one term.
fn compare_by(term: &SortTerm, a: &Tuple, b: &Tuple) -> Ordering
    ensures { result ≡ term_cmp term.now a.now b.now }
{
    let order = compare(a.get(term.field.as_str()), b.get(term.field.as_str()));
    if term.descending {
        order.reverse()
    } else {
        order
    }
}

impl SortSpec {
    /// How two tuples compare: the first term by which they aren't equal decides. A tuple without
    /// the field comes first, or last where the term is descending. Takes no memory.
    pub fn compare(&self, a: &Tuple, b: &Tuple) -> Ordering
        ensures { result ≡ sort_cmp self.now a.now b.now }
    {
        compare_terms(self.as_slice(), a, b)
    }
}

/// The same by terms.
pub(crate) fn compare_terms(terms: &[SortTerm], a: &Tuple, b: &Tuple) -> Ordering
    ensures { result ≡ sort_cmp terms.now a.now b.now }
{
    for term in terms {
        let order = compare_by(term, a, b);
        if order.is_ne() {
            return order;
        }
    }
    Ordering::Equal
}

/// What a sort writes is an order: of any two tuples one comes first or they tie, and ties are one
/// class. So a stable sort by it has one answer.
pub fn orders_are_weak()
    ensures total { (terms : List SortTerm) → IsTotalOrder (sort_cmp terms) }
    ensures weak { (terms : List SortTerm) → IsStrictWeakOrder (less terms) }
{}
