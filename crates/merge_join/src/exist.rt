// The left tuples that have an equal on the right, or those that have none.
ghost use Rattle.std.specs.Prelude.{◌≡◌, List, [], ◌∷◌, Bool, Some, None, true, false, length};
ghost use Rattle.std.specs.Prelude.{IfOk, IfSome, IfNone, if◌then◌else◌};
ghost use Rattle.std.specs.List.{list_any};
ghost use Rattle.tuple_values.specs.Document.{Doc};
ghost use Rattle.sort_spec.specs.Sorting.{IsAscending};
ghost use Rattle.sort_spec.specs.Terms.{less};
ghost use Rattle.expr_types.specs.Joins.{existing, exist_list};
ghost use Rattle.merge_join.specs.Keys.{terms_of, left_order, right_order, meets};
ghost use Rattle.merge_join.specs.Sides.{flow, IsOver};
ghost use Rattle.merge_join.specs.ExistState as exist;

use crate::side::{Side, next_left};
use crate::term::{JoinTerms, compare_by, terms_of};
use kernel_laws::{Ask, Kernel};
use sort_spec::{OnSpec, SortSpec};
use std::alloc::Global;
use std::cmp::Ordering;
use tuple_values::{Memory, Tuple};

/// Gives the left tuples that have an equal in the right input by pairs of fields, or those that
/// have none. Both inputs are in the order of their fields.
pub struct ExistKernel {
    keep: bool,
    terms: JoinTerms,
    left: Side,
    right: Side,
}

impl Drop for ExistKernel {
    fn drop(self) {
        let ExistKernel {
            keep: _,
            terms,
            left,
            right,
        } = self;
        drop(terms);
        drop(left);
        drop(right);
    }
}

impl ExistKernel {
    /// Gives those that have an equal where `keep` is set, else the others. Both inputs are in the
    /// directions of `order`, a term for each pair.
    pub fn make(
        alloc: Global,
        keep: bool,
        on: &OnSpec,
        order: &SortSpec,
    ) -> Result<ExistKernel, Memory>
        ensures ready { IfOk result (λ k. (lefts rights : List Doc)
            → IsAscending (less (left_order (terms_of on.now order.now))) lefts
            → IsAscending (less (right_order (terms_of on.now order.now))) rights
            → exist.ready k (lefts ∷ rights ∷ [])) }
        ensures out { IfOk result (λ k. (lefts rights : List Doc)
            → exist.out k (lefts ∷ rights ∷ []) ≡ exist_list keep on.now lefts rights) }
        ensures width { IfOk result (λ k. length (exist.ended k) ≡ 2) }
        ensures lives { IfOk result (λ k. exist.failed k ≡ false) }
    {
        let terms = terms_of(alloc, on.as_slice(), order.as_slice())?;
        Ok(ExistKernel {
            keep,
            terms,
            left: Side::fresh(),
            right: Side::fresh(),
        })
    }
}

impl Kernel for ExistKernel {
    ghost ended = { exist.ended };

    ghost waits = { exist.waits };

    ghost ready = { exist.ready };

    ghost out = { exist.out };

    ghost over = { exist.over };

    ghost failed = { exist.failed };

    ghost lean = { true };

    fn inputs(&self) -> u32 {
        2
    }

    fn ask(&mut self) -> Result<Ask, Memory> {
        let Some(left) = self.left.held.take() else {
            return Ok(next_left(self.left.ended));
        };
        match find(&self.terms, &left, &mut self.right) {
            None => {
                self.left.held = Some(left);
                Ok(Ask::Need(1))
            }
            Some(found) => {
                if found == self.keep {
                    Ok(Ask::Emit(left))
                } else {
                    Ok(next_left(self.left.ended))
                }
            }
        }
    }

    fn feed(&mut self, input: u32, tuple: Option<Tuple>) -> Result<(), Memory> {
        match input {
            0 => self.left.take(tuple),
            _ => self.right.take(tuple),
        }
        Ok(())
    }
}

// Whether a left tuple has an equal among the right ones; none where the next of them has to come
// first. A right tuple that comes before it, and so before those behind it, is let go.
fn find(terms: &JoinTerms, left: &Tuple, right: &mut Side) -> Option<bool>
    ensures found { IfSome result (λ b. (rights : List Doc) → IsOver right.old.ended rights
        → IsAscending (less (right_order terms.now)) (flow right.old.held rights)
        → list_any (meets terms.now left.now) (flow right.new.held rights) ≡ b) }
    ensures same { (keep : Bool) (lefts rights : List Doc)
        → IsAscending (less (left_order terms.now)) (left.now ∷ lefts)
        → existing keep (meets terms.now) (left.now ∷ lefts) (flow right.old.held rights)
        ≡ existing keep (meets terms.now) (left.now ∷ lefts) (flow right.new.held rights) }
    ensures rights { (rights : List Doc)
        → IsAscending (less (right_order terms.now)) (flow right.old.held rights)
        → IsAscending (less (right_order terms.now)) (flow right.new.held rights) }
    ensures need { IfNone result ((right.new.held ≡ None) × (right.new.ended ≡ false)) }
    ensures ended { right.new.ended ≡ right.old.ended }
{
    let Some(first) = &right.held else {
        return unknown(right.ended);
    };
    match compare_by(terms, left, first) {
        Ordering::Less => Some(false),
        Ordering::Equal => Some(true),
        Ordering::Greater => {
            let _past = right.held.take();
            unknown(right.ended)
        }
    }
}

// There is no equal where the input has ended.
fn unknown(ended: bool) -> Option<bool>
    ensures { result ≡ (if ended then Some false else None) }
{
    if ended { Some(false) } else { None }
}
