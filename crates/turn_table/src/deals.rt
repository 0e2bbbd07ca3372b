// How a table is laid out, dealt to passes, gathered and unloaded.
ghost use Rattle.std.specs.Prelude.{◌≡◌, ◌+◌, ◌<◌, ◌≤◌, ◌^◌, ℕ, [], ◌∷◌, ◌++◌, All, IfOk, Some, length, map, vec_capacity};
ghost use Rattle.std.specs.Slots.{IsFull, slots_items, slots_len};
ghost use mathlib.Core.Option.{some};
ghost use lib.ListN.{get_elem?};
ghost use Rattle.turn_table.specs.Calls.{known, table_of};
ghost use Rattle.turn_table.specs.Histories.{words_of};
ghost use Rattle.turn_table.specs.Knowledge.{dealt, fresh, passes_of, IsFree};

use crate::knowledge::View;
use crate::rule::{Deal, Opening, Turns};
use crate::{CellState, Pass};
use atomic_table::{Closed, Seat, Shared};
use std::alloc::Global;
use std::collections::VecDeque;
use tuple_values::Memory;

type Top<C, A, E> = Shared<Option<C>, View<A, E>, Opening<C>, Turns<C>>;

type Place<C, A, E> = Seat<Option<C>, View<A, E>>;

// The words and the slots of these cells, of which no turn is taken.
pub(crate) fn lay<C: CellState>(
    alloc: Global,
    cells: Vec<C>,
) -> Result<(Vec<u64>, Vec<Option<C>>), Memory>
    requires { length cells.items < 2 ^ 30 }
    ensures words { IfOk result
        (λ r. r.0.items ≡ 0 ∷ words_of C.history C.fault_count cells.items) }
    ensures slots { IfOk result (λ r. r.1.items ≡ map Some cells.items) }
{
    let mut words = Vec::with_capacity(alloc, 3 * cells.len() + 1)?;
    let mut slots = Vec::with_capacity(alloc, cells.len())?;
    words.push(0)?;
    for cell in cells {
        words.push(0)?;
        words.push(cell.len())?;
        words.push(cell.faults())?;
        slots.push(Some(cell))?;
    }
    Ok((words, slots))
}

// A pass for each number, in its order, from the seat that has them all.
pub(crate) fn deal<C: CellState>(
    alloc: Global,
    top: &Top<C, C::About, C::Entry>,
    mut seat: Place<C, C::About, C::Entry>,
    numbers: &[u64],
    cells: usize,
) -> Result<Vec<Pass<C, C::About, C::Entry>>, Memory>
    requires table { (seat.table_id ≡ top.now.table_id) × (0 < top.now.table_id.words) }
    requires cells { (cells ≡ top.now.table_id.slots) × (cells ≡ length top.now.key.cells.value) }
    requires seat { seat.me ≡ (
      dealt (map
          (fresh (map C.about top.now.key.cells.value) (map C.history top.now.key.cells.value)
          top.now.key.numbers.value (length top.now.key.cells.value))
          numbers.now),
      [],
    ) }
    ensures known { IfOk result (λ v. map known v.items ≡ map
        (fresh (map C.about top.now.key.cells.value) (map C.history top.now.key.cells.value)
        top.now.key.numbers.value (length top.now.key.cells.value))
        numbers.now) }
    ensures own { IfOk result (λ v. All (λ pass. table_of pass ≡ top.now.table_id) v.items) }
{
    let mut passes = Vec::with_capacity(alloc, numbers.len())?;
    for number in numbers {
        let held = VecDeque::with_capacity(alloc, cells)?;
        passes.push(Pass {
            seat: top.split_seat::<Deal>(&mut seat),
            number: *number,
            held,
        })?;
    }
    Ok(passes)
}

// The seat takes in all passes.
pub(crate) fn gather<C: CellState>(
    top: &Top<C, C::About, C::Entry>,
    passes: Vec<Pass<C, C::About, C::Entry>>,
    mut seat: Place<C, C::About, C::Entry>,
) -> Place<C, C::About, C::Entry>
    requires seat { (seat.table_id ≡ top.now.table_id) × (0 < top.now.table_id.words)
        × (seat.me.1 ≡ []) }
    requires idle { All IsFree (passes_of seat.me.0) }
    requires own { All (λ pass. table_of pass ≡ top.now.table_id) passes.items }
    requires free { All (λ pass. IsFree (known pass)) passes.items }
    ensures seat { (result.table_id ≡ top.now.table_id) × (result.me.1 ≡ []) }
    ensures passes { passes_of result.me.0 ≡ passes_of seat.me.0 ++ map known passes.items }
{
    for pass in passes {
        top.join_seat::<Deal>(&mut seat, pass.into_seat());
    }
    seat
}

// The values that lie in the slots.
pub(crate) fn unload<C: CellState>(
    mut closed: Closed<Option<C>, Global>,
    mut room: Vec<C>,
    cells: usize,
) -> Vec<C>
    requires full { IsFull closed.slots × (slots_len closed.slots ≡ cells) }
    requires there { (cell : ℕ) → cell < cells
        → (value : C) × (get_elem? (slots_items closed.slots) cell ≡ some (Some value)) }
    requires room { (room.items ≡ []) × (cells ≤ vec_capacity room) }
    ensures { map Some result.items ≡ slots_items closed.slots }
{
    let mut cell = 0;
    while cell < cells {
        match closed.take(cell) {
            Some(value) => room.push_reserved(value),
            None => unreachable!(),
        }
        cell += 1;
    }
    closed.free();
    room
}
