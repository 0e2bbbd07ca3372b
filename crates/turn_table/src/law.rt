// The law between any two steps, and that of a table with one pass.
ghost use Rattle.turn_table.specs.Moments.{IsLawBetweenSteps};
ghost use Rattle.turn_table.specs.Steps.{IsLawOfOnePass};

use crate::CellState;
use crate::knowledge::View;
use crate::rule::{Opening, Turns};
use atomic_table::TableRule;

/// Each state that keeps the rule with which a table is made has histories that meet the law, and
/// its turn words, length words and slots fit them. The rule holds between any two steps on it.
pub fn law_between_steps<C: CellState>()
    ensures { IsLawBetweenSteps C.about C.history C.law C.settled
        C.is_shut C.fault_count
        ⟦<Turns<C> as TableRule<Option<C>, View<C::About, C::Entry>, Opening<C>>>⟧.holds }
{}

/// A pass that is alone at its table is told of no entry but its own, after what was there at the
/// start: a look adds nothing to what it had seen, or finds just that.
pub fn law_of_one_pass<C: CellState>()
    ensures { IsLawOfOnePass C.About C.writer }
{}
