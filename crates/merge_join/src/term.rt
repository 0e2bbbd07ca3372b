// The pairs of fields of a join, with the direction of each.
ghost use Rattle.std.specs.Prelude.{◌≡◌, IfOk, option_map};
ghost use Rattle.merge_join.specs.Keys.{term_order, order_of, terms_of, term_for};

use sort_spec::{OnPair, SortTerm};
use std::alloc::Global;
use std::cmp::Ordering;
use tuple_values::{Memory, Sequence, Text, TryCopy, Tuple, compare};

/// A field of the left tuple and one of the right, and whether the greatest comes first.
#[derive(Drop)]
pub(crate) struct JoinTerm {
    pub left: Text,
    pub right: Text,
    pub descending: bool,
}

/// Terms in the order of the pairs.
pub(crate) type JoinTerms = Sequence<JoinTerm>;

/// The pairs, each in the direction of the term at its place, and ascending where there is none.
pub(crate) fn terms_of(
    alloc: Global,
    on: &[OnPair],
    order: &[SortTerm],
) -> Result<JoinTerms, Memory>
    ensures { IfOk result (λ terms. terms ≡ terms_of on.now order.now) }
{
    let mut terms = Vec::new(alloc);
    for k in 0..on.len() {
        terms.push(term_of(alloc, &on[k], order.get(k))?)?;
    }
    Ok(Sequence::from_vec(terms))
}

fn term_of(alloc: Global, pair: &OnPair, term: Option<&SortTerm>) -> Result<JoinTerm, Memory>
    ensures { IfOk result (λ made. made ≡ term_for pair.now (option_map (λ t. t.now) term.entry)) }
{
    let left = pair.left.copy(alloc)?;
    let right = pair.right.copy(alloc)?;
    let descending = match term {
        Some(term) => term.descending,
        None => false,
    };
    Ok(JoinTerm {
        left,
        right,
        descending,
    })
}

/// How a left tuple compares with a right one: the first term by which they aren't equal decides.
pub(crate) fn compare_by(terms: &JoinTerms, left: &Tuple, right: &Tuple) -> Ordering
    ensures { result ≡ order_of terms.now left.now right.now }
{
    for term in terms.as_slice() {
        let order = compare_term(term, left, right);
        if order.is_ne() {
            return order;
        }
    }
    Ordering::Equal
}

fn compare_term(term: &JoinTerm, left: &Tuple, right: &Tuple) -> Ordering
    ensures { result ≡ term_order term.now left.now right.now }
{
    let order = compare(left.get(term.left.as_str()), right.get(term.right.as_str()));
    if term.descending {
        order.reverse()
    } else {
        order
    }
}
