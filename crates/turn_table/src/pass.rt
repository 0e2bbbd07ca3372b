// A pass: what one thread carries from turn to turn.
ghost use Rattle.std.specs.Prelude.{◌≡◌, ◌<◌, ◌≤◌, ℕ, List, ◌∷◌, length};
ghost use Rattle.std.specs.VecDeque.{deque_capacity};
ghost use Rattle.turn_table.specs.Carried.{AreHeld, emptied, times};
ghost use Rattle.turn_table.specs.Knowledge.{lone, IsWide};

use crate::CellState;
use crate::knowledge::View;
use atomic_table::Seat;
use std::collections::VecDeque;
use tuple_values::Sequence;

/// A pass of a table, with a number that no other pass of the table has. It may hold the turns
/// of several cells at once.
pub struct Pass<C, A, E> {
    pub(crate) seat: Seat<Option<C>, View<A, E>>,
    pub(crate) number: u64,
    // The cells whose turns it holds, in the order in which the seat carries their slots.
    pub(crate) held: VecDeque<u32>,
    ghost alone: { seat.me.0 ≡ lone seat.me.0.faults seat.me.0.pass },
    ghost named: { seat.me.0.pass.number ≡ number },
    ghost wide: { IsWide seat.me.0.pass seat.table_id.slots },
    ghost noted: { length seat.me.0.faults ≡ seat.table_id.slots },
    ghost carried: { seat.me.1 ≡ emptied held.items },
    ghost counted: { AreHeld held.items seat.me.0.pass.hand },
    ghost roomy: { seat.table_id.slots ≤ deque_capacity held },
}

/// Passes of a table.
pub type Passes<C> = Sequence<Pass<C, <C as CellState>::About, <C as CellState>::Entry>>;

impl<C, A, E> Pass<C, A, E> {
    ghost use Rattle.turn_table.specs.Calls.{fault_words, known, table_of};

    /// The pass's number, which its entries carry.
    pub fn number(&self) -> u64
        ensures { result ≡ (known self.now).number }
    {
        self.number
    }

    // Brings the slot of a cell whose turn the pass holds to the front.
    pub(crate) fn bring(&mut self, cell: u32)
        requires { 0 < times cell self.old.held.items }
        ensures known { known self.new ≡ known self.old }
        ensures faults { fault_words self.new ≡ fault_words self.old }
        ensures table { table_of self.new ≡ table_of self.old }
        ensures front { (others : List ℕ) × (self.new.held.items ≡ cell ∷ others) }
    {
        loop {
            let Some(first) = self.held.front() else {
                unreachable!()
            };
            if *first == cell {
                return;
            }
            self.held.rotate_left(1);
            self.seat.turn();
        }
    }

    // The seat of a pass that holds no turn.
    pub(crate) fn into_seat(self) -> Seat<Option<C>, View<A, E>>
        ensures { result ≡ self.seat }
    {
        let Pass {
            seat,
            number: _,
            held,
        } = self;
        drop(held);
        seat
    }
}

impl<C, A, E> Drop for Pass<C, A, E> {
    fn drop(self) {
        let Self {
            seat,
            number: _,
            held,
        } = self;
        drop(seat);
        drop(held);
    }
}
