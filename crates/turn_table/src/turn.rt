// The turn of a cell.
ghost use Rattle.std.specs.Prelude.{◌≡◌, ◌≤◌, ◌⊎◌, false, true, IfErr, IfOk, IfSome, OnErr, OnOk, Some, is_some};
ghost use Rattle.io_edge.specs.Edge.{Rose};

use crate::{CellState, Pass};

/// The turn of a cell, with the cell's value. A pass that took it has to give it back.
pub struct Turn<C> {
    pub(crate) value: Option<C>,
    pub(crate) cell: u32,
    ghost there: { is_some value ≡ true },
}

/// Why a try took no turn.
#[derive(Clone, Copy, Debug, PartialEq, Eq)]
pub(crate) enum Absence {
    /// Some pass holds it.
    Taken,
    /// The cell is shut for good.
    Shut,
}

impl<C: CellState> Turn<C> {
    ghost use Rattle.turn_table.specs.Calls.{known, turn_about, turn_faults, turn_history};

    /// The value.
    pub fn state(&self) -> &C
        ensures { self.now.value ≡ Some result.now }
    {
        match &self.value {
            Some(value) => value,
            None => unreachable!(),
        }
    }

    /// Makes room for a sealing, under the number of the pass, and puts it into the cell's log
    /// where it has one.
    pub fn reserve(
        &mut self,
        pass: &Pass<C, C::About, C::Entry>,
        sealing: &C::Sealing,
    ) -> Result<C::Made, C::Refusal>
        requires can { IfSome self.old.value (λ value. C.can_reserve value sealing.now) }
        requires sound { IfSome self.old.value
            (λ value. C.settled value × (C.is_shut value ≡ false)) }
        ensures cell { self.new.cell ≡ self.old.cell }
        ensures history { turn_history C.history self.new ≡ turn_history C.history self.old }
        ensures about { turn_about C.about self.new ≡ turn_about C.about self.old }
        ensures room { OnOk result
            (IfSome self.new.value (λ value. C.room value (known pass.now).number sealing.now)) }
        ensures takes { OnOk result
            (IfSome self.old.value (λ value. C.takes value sealing.now)) }
        ensures settled { OnErr result (IfSome self.new.value
            (λ value. C.settled value ⊎ (C.is_shut value ≡ true))) }
        ensures sound { OnOk result (IfSome self.new.value
            (λ value. C.is_shut value ≡ false)) }
        ensures later { turn_faults C.fault_count self.old
            ≤ turn_faults C.fault_count self.new }
        ensures broke { IfOk result (λ made. C.broke made ≡ true
            → Rose (turn_faults C.fault_count self.old) (turn_faults C.fault_count self.new)) }
        ensures failed { IfErr result (λ refusal. C.log_failed refusal ≡ true
            → Rose (turn_faults C.fault_count self.old) (turn_faults C.fault_count self.new)) }
        ensures err { IfErr result (λ refusal. C.log_failed refusal ≡ false
            → self.new.value ≡ self.old.value) }
        ensures cause { IfErr result
            (λ refusal. IfSome self.old.value (λ value. C.refuses value sealing.now refusal)) }
    {
        match &mut self.value {
            Some(value) => value.reserve(pass.number, sealing),
            None => unreachable!(),
        }
    }
}
