// The rule of the table on which turns stand, and what each kind of step tells the one that
// makes it.
use crate::cell_state::CellState;
use crate::knowledge::View;
use crate::table::Cells;
use atomic_table::{Join, Play, Split, TableRule};
use std::marker::PhantomData;
use std::snapshot::Snapshot;
use tuple_values::Numbers;

/// The cells and the numbers with which a table started.
pub struct Opening<C> {
    pub cells: Snapshot<Cells<C>>,
    pub numbers: Snapshot<Numbers>,
}

impl<C> Drop for Opening<C> {
    fn drop(self) {
        let Self {
            cells: _,
            numbers: _,
        } = self;
    }
}

/// The rule: the law holds of the histories, and words, slots and views fit them.
pub struct Turns<C> {
    cell: PhantomData<C>,
}

impl<C: CellState> TableRule<Option<C>, View<C::About, C::Entry>, Opening<C>> for Turns<C> {
    ghost use Rattle.std.specs.Prelude.{map, length};
    ghost use Rattle.turn_table.specs.Knowledge.{dealt, fresh};
    ghost use Rattle.turn_table.specs.Rule.{Kept};

    ghost holds = { λ start. Kept C.about C.history C.writer C.law C.tells C.settled
        C.is_shut C.fault_count (map C.about start.cells.value)
        (map C.history start.cells.value) start.numbers.value };

    ghost first = { λ start. dealt (map
        (fresh (map C.about start.cells.value) (map C.history start.cells.value)
        start.numbers.value (length start.cells.value))
        start.numbers.value) };
}

// A seat's first pass gets a seat of its own; two seats become one.
pub(crate) struct Deal;

impl<A, E> Split<View<A, E>> for Deal {
    ghost use Rattle.turn_table.specs.Knowledge.{blank, dealt, lone};

    ghost left = { λ view. dealt view.more };

    ghost right = { λ view. lone (blank view.pass) view.pass };
}

impl<A, E> Join<View<A, E>> for Deal {
    ghost use Rattle.std.specs.Prelude.{◌++◌, []};
    ghost use Rattle.turn_table.specs.Knowledge.{dealt, passes_of};

    ghost both = { λ view other. dealt (passes_of view ++ passes_of other) };

    ghost spent = { dealt [] };
}

// A try to take a turn.
pub(crate) struct Try<C> {
    cell: PhantomData<C>,
}

impl<C: CellState> Play<Option<C>, View<C::About, C::Entry>> for Try<C> {
    ghost use Rattle.turn_table.specs.Steps.{Tries};

    ghost then = { Tries C.about C.history C.writer C.law C.tells C.settled C.is_shut
        C.fault_count };
}

// A look, with the turn held.
pub(crate) struct Look<C> {
    cell: PhantomData<C>,
}

impl<C: CellState> Play<Option<C>, View<C::About, C::Entry>> for Look<C> {
    ghost use Rattle.turn_table.specs.Steps.{Sees};

    ghost then = { Sees C.about C.history C.writer C.law C.tells C.settled C.is_shut
        C.fault_count };
}

// A moment at which nothing changes.
pub(crate) struct Watch<C> {
    cell: PhantomData<C>,
}

impl<C: CellState> Play<Option<C>, View<C::About, C::Entry>> for Watch<C> {
    ghost use Rattle.turn_table.specs.Steps.{Watches};

    ghost then = { Watches C.about C.history C.writer C.law C.tells C.settled C.is_shut
        C.fault_count };
}

// A seal, with the turn held.
pub(crate) struct Seal<C> {
    cell: PhantomData<C>,
}

impl<C: CellState> Play<Option<C>, View<C::About, C::Entry>> for Seal<C> {
    ghost use Rattle.turn_table.specs.Steps.{Seals};

    ghost then = { Seals C.history };
}

// A note of faults, with the turn held.
pub(crate) struct Note<C> {
    cell: PhantomData<C>,
}

impl<C: CellState> Play<Option<C>, View<C::About, C::Entry>> for Note<C> {
    ghost use Rattle.turn_table.specs.Steps.{Notes};

    ghost then = { Notes };
}

// The giving back of a turn.
pub(crate) struct Give<C> {
    cell: PhantomData<C>,
}

impl<C: CellState> Play<Option<C>, View<C::About, C::Entry>> for Give<C> {
    ghost use Rattle.turn_table.specs.Steps.{Gives};

    ghost then = { Gives };
}
