// The pairs of left and right tuples that are equal by their fields.
ghost use Rattle.std.specs.Prelude.{◌≡◌, ◌++◌, List, [], ◌∷◌, Bool, Some, None, true, false};
ghost use Rattle.std.specs.Prelude.{ℕ, length, IfOk, IfErr, IfSome, if◌then◌else◌};
ghost use Rattle.tuple_values.specs.Document.{Doc};
ghost use Rattle.sort_spec.specs.Sorting.{IsAscending};
ghost use Rattle.sort_spec.specs.Terms.{less};
ghost use Rattle.kernel_laws.specs.Asks.{emitted, wanted, IfEnd};
ghost use Rattle.expr_types.specs.Joins.{join_list, outer_join_list};
ghost use Rattle.merge_join.specs.Keys.{terms_of, left_order, right_order};
ghost use Rattle.merge_join.specs.Runs.{pairs_from, AreEqual, IsKept, is_behind, IsWhole, IsMidway};
ghost use Rattle.merge_join.specs.Sides.{flow, IsOver, next_left};
ghost use Rattle.merge_join.specs.JoinState as join;
ghost use Rattle.merge_join.specs.declared.term.JoinTerm.{JoinTerm};

use crate::side::{Side, next_left};
use crate::term::{JoinTerms, compare_by, terms_of};
use expr_types::joined;
use kernel_laws::{Ask, Kernel};
use sort_spec::{OnSpec, SortSpec};
use std::alloc::Global;
use std::cmp::Ordering;
use tuple_values::{Memory, TryCopy, Tuple};

/// Gives a left tuple over a right one for each two that are equal by pairs of fields, and a left
/// tuple without an equal as it is where the join is outer. Both inputs are in the order of their
/// fields. It holds the right tuples of one key at a time.
pub struct JoinKernel {
    alloc: Global,
    outer: bool,
    terms: JoinTerms,
    left: Side,
    // How many pairs of the left tuple that is held were given.
    place: usize,
    // The right tuples that equal it, as far as they have come.
    run: Vec<Tuple>,
    right: Side,
    failed: bool,
}

impl Drop for JoinKernel {
    fn drop(self) {
        let JoinKernel {
            alloc: _,
            outer: _,
            terms,
            left,
            place: _,
            run,
            right,
            failed: _,
        } = self;
        drop(terms);
        drop(left);
        drop(run);
        drop(right);
    }
}

impl JoinKernel {
    /// Joins two inputs that are in the directions of `order`, a term for each pair. The join is
    /// outer where that is set, else inner.
    pub fn make(
        alloc: Global,
        outer: bool,
        on: &OnSpec,
        order: &SortSpec,
    ) -> Result<JoinKernel, Memory>
        ensures ready { IfOk result (λ k. (lefts rights : List Doc)
            → IsAscending (less (left_order (terms_of on.now order.now))) lefts
            → IsAscending (less (right_order (terms_of on.now order.now))) rights
            → join.ready k (lefts ∷ rights ∷ [])) }
        ensures out { IfOk result (λ k. (lefts rights : List Doc)
            → join.out k (lefts ∷ rights ∷ [])
            ≡ (if outer then outer_join_list on.now lefts rights
            else join_list on.now lefts rights)) }
        ensures width { IfOk result (λ k. length (join.ended k) ≡ 2) }
        ensures lives { IfOk result (λ k. join.failed k ≡ false) }
    {
        let terms = terms_of(alloc, on.as_slice(), order.as_slice())?;
        Ok(JoinKernel {
            alloc,
            outer,
            terms,
            left: Side::fresh(),
            place: 0,
            run: Vec::new(alloc),
            right: Side::fresh(),
            failed: false,
        })
    }
}

impl Kernel for JoinKernel {
    ghost ended = { join.ended };

    ghost waits = { join.waits };

    ghost ready = { join.ready };

    ghost out = { join.out };

    ghost over = { join.over };

    ghost failed = { join.failed };

    ghost lean = { false };

    fn inputs(&self) -> u32 {
        2
    }

    fn ask(&mut self) -> Result<Ask, Memory> {
        if self.failed {
            return Err(Memory::OutOfMemory);
        }
        let known = gather(
            &self.terms,
            &self.left,
            self.place,
            &mut self.run,
            &mut self.right,
        );
        let whole = keep(&mut self.failed, known)?;
        if !whole {
            return Ok(Ask::Need(1));
        }
        let given = give(
            self.alloc,
            self.outer,
            &self.run,
            &mut self.place,
            &mut self.left,
        );
        let answer = keep(&mut self.failed, given)?;
        Ok(answer)
    }

    fn feed(&mut self, input: u32, tuple: Option<Tuple>) -> Result<(), Memory> {
        if self.failed {
            return Err(Memory::OutOfMemory);
        }
        if input != 0 {
            self.right.take(tuple);
            return Ok(());
        }
        match tuple {
            Some(left) => {
                let_go(&self.terms, &left, &mut self.run);
                self.left.held = Some(left);
            }
            None => self.left.ended = true,
        }
        Ok(())
    }
}

// Passes on what was made. Where memory was wanting for it, that is kept.
fn keep<T: Drop>(failed: &mut bool, made: Result<T, Memory>) -> Result<T, Memory>
    ensures same { result ≡ made }
    ensures ok { IfOk made (λ _. failed.new ≡ failed.old) }
    ensures err { IfErr made (λ _. failed.new ≡ true) }
{
    if made.is_err() {
        *failed = true;
    }
    made
}

// Whether the run of the left tuple is whole; where that isn't known, the next of the right tuples
// has to come first. One that comes before the left tuple, and so before those behind it, is let
// go; one that equals it joins the run.
fn gather(
    terms: &JoinTerms,
    left: &Side,
    place: usize,
    run: &mut Vec<Tuple>,
    right: &mut Side,
) -> Result<bool, Memory>
    ensures out { IfOk result (λ _. (outer : Bool) (lefts rights : List Doc)
        → IsMidway terms.now left.now.held place run.old.items lefts (flow right.old.held rights)
        → pairs_from outer terms.now place (flow left.now.held lefts)
        (run.old.items ++ flow right.old.held rights)
        ≡ pairs_from outer terms.now place (flow left.now.held lefts)
        (run.new.items ++ flow right.new.held rights)) }
    ensures midway { IfOk result (λ _. (lefts rights : List Doc)
        → IsMidway terms.now left.now.held place run.old.items lefts (flow right.old.held rights)
        → IsMidway terms.now left.now.held place run.new.items lefts (flow right.new.held rights)) }
    ensures whole { IfOk result (λ whole. whole ≡ true
        → (lefts rights : List Doc) → IsOver right.old.ended rights
        → IsMidway terms.now left.now.held place run.old.items lefts (flow right.old.held rights)
        → IsWhole terms.now left.now.held (flow right.new.held rights)) }
    ensures need { IfOk result (λ whole. whole ≡ false
        → (right.new.held ≡ None) × (right.new.ended ≡ false)) }
    ensures ended { right.new.ended ≡ right.old.ended }
    ensures over { left.now.held ≡ None → result ≡ Ok true }
{
    let Some(tuple) = &left.held else {
        return Ok(true);
    };
    if place > 0 {
        return Ok(true);
    }
    let Some(first) = right.held.take() else {
        return Ok(right.ended);
    };
    match compare_by(terms, tuple, &first) {
        Ordering::Less => {
            right.held = Some(first);
            Ok(true)
        }
        Ordering::Equal => {
            run.push(first)?;
            Ok(right.ended)
        }
        Ordering::Greater => Ok(right.ended),
    }
}

// Gives the next of what the left tuple gives, whose run is whole; where none is held, the next has
// to come first.
fn give(
    alloc: Global,
    outer: bool,
    run: &[Tuple],
    place: &mut usize,
    left: &mut Side,
) -> Result<Ask, Memory>
    ensures out { IfOk result (λ answer. (terms : List JoinTerm) (lefts rights : List Doc)
        → IsMidway terms left.old.held place.old run.now lefts rights
        → IsWhole terms left.old.held rights
        → pairs_from outer terms place.old (flow left.old.held lefts) (run.now ++ rights)
        ≡ emitted answer
        ++ pairs_from outer terms place.new (flow left.new.held lefts) (run.now ++ rights)) }
    ensures midway { IfOk result (λ _. (terms : List JoinTerm) (lefts rights : List Doc)
        → IsMidway terms left.old.held place.old run.now lefts rights
        → IsWhole terms left.old.held rights
        → IsMidway terms left.new.held place.new run.now lefts rights) }
    ensures end { IfOk result (λ answer. IfEnd answer
        ((left.new.held ≡ None) × (left.new.ended ≡ true))) }
    ensures need { IfOk result (λ answer. IfSome (wanted answer)
        (λ i. (i ≡ 0) × (left.new.held ≡ None) × (left.new.ended ≡ false))) }
    ensures over { left.old.held ≡ None → left.old.ended ≡ true → result ≡ Ok Ask.End }
    ensures ended { left.new.ended ≡ left.old.ended }
{
    let Some(tuple) = left.held.take() else {
        return Ok(next_left(left.ended));
    };
    let Some(right) = run.get(*place) else {
        *place = 0;
        return Ok(alone(outer, tuple, left.ended));
    };
    if *place + 1 < run.len() {
        let pair = joined(alloc, tuple.copy(alloc)?, right)?;
        *place += 1;
        left.held = Some(tuple);
        return Ok(Ask::Emit(pair));
    }
    let last = joined(alloc, tuple, right)?;
    *place = 0;
    Ok(Ask::Emit(last))
}

// What is answered for a left tuple without an equal.
fn alone(outer: bool, left: Tuple, ended: bool) -> Ask
    ensures { result ≡ (if outer then Ask.Emit left else next_left ended) }
{
    if outer {
        Ask::Emit(left)
    } else {
        next_left(ended)
    }
}

// Lets the run go where a left tuple comes behind it.
fn let_go(terms: &JoinTerms, left: &Tuple, run: &mut Vec<Tuple>)
    ensures out { (outer : Bool) (place : ℕ) (lefts rights : List Doc)
        → IsAscending (less (left_order terms.now)) (left.now ∷ lefts)
        → IsKept terms.now (left.now ∷ lefts) run.old.items
        → pairs_from outer terms.now place (left.now ∷ lefts) (run.old.items ++ rights)
        ≡ pairs_from outer terms.now place (left.now ∷ lefts) (run.new.items ++ rights) }
    ensures equal { (lefts : List Doc) → IsKept terms.now (left.now ∷ lefts) run.old.items
        → AreEqual terms.now left.now run.new.items }
{
    if is_behind(terms, left, run) {
        run.clear();
    }
}

// Whether a left tuple comes behind a run.
fn is_behind(terms: &JoinTerms, left: &Tuple, run: &[Tuple]) -> bool
    ensures { result ≡ is_behind terms.now left.now run.now }
{
    match run {
        [] => false,
        [first, ..] => compare_by(terms, left, first).is_gt(),
    }
}
