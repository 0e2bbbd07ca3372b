// The table of turns: its start, the calls of a pass, and its end.
ghost use Rattle.std.specs.Prelude.{◌≡◌, ◌≢◌, ◌+◌, ◌*◌, ◌^◌, ◌<◌, ◌≤◌, ◌⊎◌, ℕ, [], ◌++◌, false, true, All, AllPairs, Contains, IfNone, IfOk, IfSome, IsErrOf, None, OnErr, Some, cond, length, map, slice_get, slice_index, slice_set, vec_capacity};
ghost use Rattle.turn_table.specs.Calls.{fault_word, fault_words, known, table_of, turn_about, turn_faults, turn_history};
ghost use Rattle.turn_table.specs.Histories.{at, GrewBy};
ghost use Rattle.turn_table.specs.Knowledge.{barred, fresh, gave, hand, looked, missed, noted, sealed, took, waited, IsFree};
ghost use Rattle.turn_table.specs.Steps.{AddsOthers, Glimpse, WasShut, WasTaken, Watched};
ghost use Rattle.turn_table.specs.declared.turn.Absence.TheVariants as absence;

use crate::deals::{deal, gather, lay, unload};
use crate::knowledge::View;
use crate::rule::{Give, Look, Note, Opening, Seal, Try, Turns, Watch};
use crate::turn::Absence;
use crate::{CellState, Pass, Passes, Turn};
use atomic_table::Table;
use std::alloc::Global;
use std::snapshot::Snapshot;
use std::sync::Wait;
use std::thread;
use tuple_values::{Memory, Numbers, Sequence};

/// The values of cells, in the order of cells.
pub type Cells<C> = Sequence<C>;

/// A table of cells, which passes share. Whoever has the turn of a cell has the cell's value;
/// the law over all histories holds at each moment.
#[derive(Drop)]
pub struct TurnTable<C: CellState> {
    pub(crate) board: Table<Option<C>, View<C::About, C::Entry>, Opening<C>, Turns<C>, Global>,
    pub(crate) cells: u32,
    // Room for the cells that `close` gives.
    pub(crate) room: Vec<C>,
    ghost words: { board.shared.table_id.words ≡ 3 * cells + 1 },
    ghost slots: { board.shared.table_id.slots ≡ cells },
    ghost few: { cells < 2 ^ 30 },
    ghost empty: { room.items ≡ [] },
    ghost roomy: { cells ≤ vec_capacity room },
}

impl<C: CellState> TurnTable<C> {
    /// A table over these cells, and a pass for each number.
    pub fn start(
        alloc: Global,
        cells: Cells<C>,
        numbers: Numbers,
    ) -> Result<(TurnTable<C>, Passes<C>), Memory>
        requires few { length cells < 2 ^ 30 }
        requires lawful { C.law (map C.about cells) (map C.history cells) }
        requires differ { AllPairs (λ m n. m ≢ n) numbers }
        requires new { All (λ cell. All (λ entry. ¬ Contains numbers (C.writer entry))
            (C.history cell)) cells }
        requires sound { All (λ cell. C.settled cell × (C.is_shut cell ≡ false)) cells }
        ensures cells { IfOk result (λ made. made.0.cells ≡ length cells) }
        ensures opening { IfOk result (λ made. (made.0.board.shared.key.cells.value ≡ cells)
            × (made.0.board.shared.key.numbers.value ≡ numbers)) }
        ensures passes { IfOk result (λ made. map known made.1 ≡ map
            (fresh (map C.about cells) (map C.history cells) numbers (length cells)) numbers) }
        ensures own { IfOk result (λ made.
            All (λ pass. table_of pass ≡ made.0.board.shared.table_id) made.1) }
    {
        let opening = Opening {
            cells: Snapshot::of(&cells),
            numbers: Snapshot::of(&numbers),
        };
        let count = cells.len();
        let room = Vec::with_capacity(alloc, count)?;
        let (words, slots) = lay(alloc, cells.into_vec())?;
        let Ok((board, seat)) = Table::new(alloc, words.as_slice(), slots, &opening) else {
            return Err(Memory::OutOfMemory);
        };
        let passes = deal(alloc, &board.shared, seat, numbers.as_slice(), count)?;
        let table = TurnTable {
            board,
            cells: count as u32,
            room,
        };
        Ok((table, Sequence::from_vec(passes)))
    }

    /// How many cells there are.
    pub fn cells(&self) -> u32
        ensures { result ≡ self.now.cells }
    {
        self.cells
    }

    /// Makes one try to take the turn of a cell.
    pub fn try_turn(&self, pass: &mut Pass<C, C::About, C::Entry>, cell: u32) -> Option<Turn<C>>
        requires own { table_of pass.old ≡ self.now.board.shared.table_id }
        requires cell { cell < self.now.cells }
        ensures own { table_of pass.new ≡ table_of pass.old }
        ensures found { IfSome result (λ turn. (turn.cell ≡ cell)
            × (turn_about C.about turn ≡ slice_get (known pass.old).about cell)
            × (known pass.new ≡ took cell (turn_history C.history turn) (known pass.old))
            × (hand (known pass.new) cell ≡ Some (turn_history C.history turn))) }
        ensures sound { IfSome result (λ turn. IfSome turn.value
            (λ value. C.settled value × (C.is_shut value ≡ false))) }
        ensures faults { IfSome result (λ turn.
            (fault_word pass.new cell ≡ turn_faults C.fault_count turn)
            × (fault_words pass.new
            ≡ slice_set (fault_words pass.old) cell (turn_faults C.fault_count turn))) }
        ensures absent { IfNone result
            (((known pass.new ≡ missed cell (known pass.old))
            × WasTaken C.about C.history C.writer C.law C.tells C.settled C.is_shut
            C.fault_count (known pass.old) cell)
            ⊎ ((known pass.new ≡ barred cell (known pass.old))
            × WasShut C.about C.history C.writer C.law C.tells C.settled C.is_shut
            C.fault_count (known pass.old) cell)) }
        ensures same { IfNone result (fault_words pass.new ≡ fault_words pass.old) }
    {
        match self.attempt(pass, cell) {
            Ok(turn) => Some(turn),
            Err(_) => None,
        }
    }

    // Makes one try, and tells why it took no turn.
    fn attempt(&self, pass: &mut Pass<C, C::About, C::Entry>, cell: u32) -> Result<Turn<C>, Absence>
        requires own { table_of pass.old ≡ self.now.board.shared.table_id }
        requires cell { cell < self.now.cells }
        ensures own { table_of pass.new ≡ table_of pass.old }
        ensures found { IfOk result (λ turn. (turn.cell ≡ cell)
            × (turn_about C.about turn ≡ slice_get (known pass.old).about cell)
            × (known pass.new ≡ took cell (turn_history C.history turn) (known pass.old))
            × (hand (known pass.new) cell ≡ Some (turn_history C.history turn))) }
        ensures sound { IfOk result (λ turn. IfSome turn.value
            (λ value. C.settled value × (C.is_shut value ≡ false))) }
        ensures faults { IfOk result (λ turn.
            (fault_word pass.new cell ≡ turn_faults C.fault_count turn)
            × (fault_words pass.new
            ≡ slice_set (fault_words pass.old) cell (turn_faults C.fault_count turn))) }
        ensures taken { IsErrOf result absence.Taken
            → (known pass.new ≡ missed cell (known pass.old))
            × WasTaken C.about C.history C.writer C.law C.tells C.settled C.is_shut
            C.fault_count (known pass.old) cell }
        ensures shut { IsErrOf result absence.Shut
            → (known pass.new ≡ barred cell (known pass.old))
            × WasShut C.about C.history C.writer C.law C.tells C.settled C.is_shut
            C.fault_count (known pass.old) cell }
        ensures same { OnErr result (fault_words pass.new ≡ fault_words pass.old) }
    {
        let shared = &self.board.shared;
        let place = cell as usize;
        let found = shared.compare_exchange::<Try<C>>(&mut pass.seat, 3 * place + 1, 0, 1);
        if found == 0 {
            let value = shared.exchange(&mut pass.seat, place, None);
            pass.held.push_front_reserved(cell);
            Ok(Turn { value, cell })
        } else if found == 1 {
            Err(Absence::Taken)
        } else {
            Err(Absence::Shut)
        }
    }

    /// Waits for the turn of a cell. There is none only where the cell is shut.
    pub fn turn<R: Wait>(
        &self,
        rt: &R,
        pass: &mut Pass<C, C::About, C::Entry>,
        cell: u32,
    ) -> Option<Turn<C>>
        requires own { table_of pass.old ≡ self.now.board.shared.table_id }
        requires cell { cell < self.now.cells }
        ensures own { table_of pass.new ≡ table_of pass.old }
        ensures cell { IfSome result (λ turn. turn.cell ≡ cell) }
        ensures about { IfSome result
            (λ turn. turn_about C.about turn ≡ slice_get (known pass.old).about cell) }
        ensures took { IfSome result
            (λ turn. (count : ℕ) × (slice_index (known pass.old).met cell ≤ count)
            × (known pass.new ≡ took cell (turn_history C.history turn)
            (waited cell count (known pass.old)))) }
        ensures holds { IfSome result
            (λ turn. hand (known pass.new) cell ≡ Some (turn_history C.history turn)) }
        ensures sound { IfSome result (λ turn. IfSome turn.value
            (λ value. C.settled value × (C.is_shut value ≡ false))) }
        ensures faults { IfSome result (λ turn.
            (fault_word pass.new cell ≡ turn_faults C.fault_count turn)
            × (fault_words pass.new
            ≡ slice_set (fault_words pass.old) cell (turn_faults C.fault_count turn))) }
        ensures absent { IfNone result
            ((count : ℕ) × (slice_index (known pass.old).met cell ≤ count)
            × (known pass.new ≡ barred cell (waited cell count (known pass.old)))
            × WasShut C.about C.history C.writer C.law C.tells C.settled C.is_shut
            C.fault_count (known pass.old) cell) }
        ensures same { IfNone result (fault_words pass.new ≡ fault_words pass.old) }
    {
        for _ in rt.forever() {
            match self.attempt(pass, cell) {
                Ok(turn) => return Some(turn),
                Err(Absence::Shut) => return None,
                Err(Absence::Taken) => thread::yield_now(),
            }
        }
        unreachable!()
    }

    /// Looks at the cell whose turn it is: the pass then has seen its whole history.
    pub fn look(&self, pass: &mut Pass<C, C::About, C::Entry>, turn: &Turn<C>)
        requires own { table_of pass.old ≡ self.now.board.shared.table_id }
        requires turn { hand (known pass.old) turn.now.cell
            ≡ Some (turn_history C.history turn.now) }
        ensures own { table_of pass.new ≡ table_of pass.old }
        ensures looked { known pass.new
            ≡ looked turn.now.cell (turn_history C.history turn.now) (known pass.old) }
        ensures holds { hand (known pass.new) turn.now.cell
            ≡ Some (turn_history C.history turn.now) }
        ensures seen { at (known pass.new).seen turn.now.cell
            ≡ turn_history C.history turn.now }
        ensures others { AddsOthers C.writer (known pass.old) turn.now.cell
            (turn_history C.history turn.now) }
        ensures glimpse { Glimpse C.about C.history C.writer C.law C.tells C.settled C.is_shut
            C.fault_count turn.now.cell (known pass.new) }
        ensures faults { fault_words pass.new ≡ fault_words pass.old }
    {
        let place = turn.cell as usize;
        self.board
            .shared
            .load::<Look<C>>(&mut pass.seat, 3 * place + 2);
    }

    /// Shows a pass one moment of the table, at which the law holds of all histories. It sees no
    /// entry, and knows what it knew.
    pub fn watch(&self, pass: &mut Pass<C, C::About, C::Entry>)
        requires { table_of pass.old ≡ self.now.board.shared.table_id }
        ensures own { table_of pass.new ≡ table_of pass.old }
        ensures known { known pass.new ≡ known pass.old }
        ensures watched { Watched C.about C.history C.writer C.law C.tells C.settled C.is_shut
            C.fault_count (known pass.old) }
        ensures faults { fault_words pass.new ≡ fault_words pass.old }
    {
        self.board.shared.load::<Watch<C>>(&mut pass.seat, 0);
    }

    /// Appends the entries of a sealing that has room, after a look in this turn.
    pub fn seal(
        &self,
        pass: &mut Pass<C, C::About, C::Entry>,
        turn: &mut Turn<C>,
        sealing: C::Sealing,
    )
        requires own { table_of pass.old ≡ self.now.board.shared.table_id }
        requires turn { hand (known pass.old) turn.old.cell
            ≡ Some (turn_history C.history turn.old) }
        requires looked { at (known pass.old).seen turn.old.cell
            ≡ turn_history C.history turn.old }
        requires room { IfSome turn.old.value
            (λ value. C.room value (known pass.old).number sealing) }
        requires allowed { C.allows (known pass.old).about (known pass.old).number
            (known pass.old).seen turn.old.cell sealing }
        ensures own { table_of pass.new ≡ table_of pass.old }
        ensures cell { turn.new.cell ≡ turn.old.cell }
        ensures about { turn_about C.about turn.new ≡ turn_about C.about turn.old }
        ensures appended { turn_history C.history turn.new ≡ turn_history C.history turn.old
            ++ C.entries (known pass.old).number sealing }
        ensures signed { All (λ entry. C.writer entry ≡ (known pass.old).number)
            (C.entries (known pass.old).number sealing) }
        ensures sealed { known pass.new
            ≡ sealed turn.old.cell (turn_history C.history turn.new) (known pass.old) }
        ensures holds { hand (known pass.new) turn.new.cell
            ≡ Some (turn_history C.history turn.new) }
        ensures seen { at (known pass.new).seen turn.new.cell
            ≡ turn_history C.history turn.new }
        ensures sound { IfSome turn.new.value
            (λ value. C.settled value × (C.is_shut value ≡ false)) }
        ensures faults { (turn_faults C.fault_count turn.new ≡ turn_faults C.fault_count turn.old)
            × (fault_words pass.new ≡ fault_words pass.old) }
    {
        let cell = turn.cell;
        let place = cell as usize;
        pass.bring(cell);
        let mut value = turn.value.take().unwrap();
        let before = value.len();
        value.append(pass.number, sealing);
        let more = value.len() - before;
        // The step tells what lies in the slot, so the value lies there while it is made.
        let shared = &self.board.shared;
        shared.exchange(&mut pass.seat, place, Some(value));
        shared.fetch_add::<Seal<C>>(&mut pass.seat, 3 * place + 2, more);
        turn.value = shared.exchange(&mut pass.seat, place, None);
    }

    /// Notes the count of faults of the value whose turn it is, for all passes. A turn can only be
    /// given back while the count that was noted last is the value's.
    pub fn note(&self, pass: &mut Pass<C, C::About, C::Entry>, turn: &mut Turn<C>)
        requires own { table_of pass.old ≡ self.now.board.shared.table_id }
        requires turn { hand (known pass.old) turn.old.cell
            ≡ Some (turn_history C.history turn.old) }
        ensures own { table_of pass.new ≡ table_of pass.old }
        ensures turn { turn.new ≡ turn.old }
        ensures noted { known pass.new
            ≡ noted turn.old.cell (fault_word pass.old turn.old.cell)
            (turn_faults C.fault_count turn.old) (known pass.old) }
        ensures holds { hand (known pass.new) turn.new.cell
            ≡ Some (turn_history C.history turn.new) }
        ensures faults { (fault_word pass.new turn.new.cell ≡ turn_faults C.fault_count turn.new)
            × (fault_words pass.new
            ≡ slice_set (fault_words pass.old) turn.new.cell (turn_faults C.fault_count turn.new)) }
    {
        let word = 3 * (turn.cell as usize) + 3;
        let faults = turn.state().faults();
        self.board
            .shared
            .swap::<Note<C>>(&mut pass.seat, word, faults);
    }

    /// Gives a turn back that the pass took, in whatever order it took its turns. Where the value
    /// is shut, no pass has its turn from then on.
    pub fn give(&self, pass: &mut Pass<C, C::About, C::Entry>, turn: Turn<C>)
        requires own { table_of pass.old ≡ self.now.board.shared.table_id }
        requires turn { hand (known pass.old) turn.cell ≡ Some (turn_history C.history turn) }
        requires about { turn_about C.about turn ≡ slice_get (known pass.old).about turn.cell }
        requires settled { IfSome turn.value
            (λ value. C.settled value ⊎ (C.is_shut value ≡ true)) }
        requires noted { fault_word pass.old turn.cell ≡ turn_faults C.fault_count turn }
        ensures own { table_of pass.new ≡ table_of pass.old }
        ensures gave { known pass.new ≡ gave turn.cell (known pass.old) }
        ensures free { hand (known pass.new) turn.cell ≡ None }
        ensures faults { fault_words pass.new ≡ fault_words pass.old }
    {
        let shared = &self.board.shared;
        let word = word_of(turn.state().shut());
        let Turn { value, cell } = turn;
        let place = cell as usize;
        pass.bring(cell);
        shared.exchange(&mut pass.seat, place, value);
        shared.swap::<Give<C>>(&mut pass.seat, 3 * place + 1, word);
        pass.held.pop_front();
    }

    /// Ends the table, and gives its cells. It takes all passes that were made for it, none of
    /// which holds a turn. Takes no memory.
    pub fn close(self, passes: Passes<C>) -> Cells<C>
        requires some { 0 < length passes }
        requires own { All (λ pass. table_of pass ≡ self.board.shared.table_id) passes }
        requires free { All (λ pass. IsFree (known pass)) passes }
        requires all { All (λ number. Contains (map (λ pass. (known pass).number) passes) number)
            self.board.shared.key.numbers.value }
        ensures lawful { C.law (map C.about self.board.shared.key.cells.value)
            (map C.history result) }
        ensures about { map C.about result ≡ map C.about self.board.shared.key.cells.value }
        ensures written { GrewBy
            (λ entry. Contains self.board.shared.key.numbers.value (C.writer entry))
            (map C.history self.board.shared.key.cells.value) (map C.history result) }
        ensures seen { All (λ pass. GrewBy (λ entry. C.writer entry ≢ (known pass).number)
            (known pass).seen (map C.history result)) passes }
    {
        let TurnTable { board, cells, room } = self;
        let mut passes = passes.into_vec();
        let Some(first) = passes.pop() else {
            unreachable!()
        };
        let seat = gather(&board.shared, passes, first.into_seat());
        Sequence::from_vec(unload(board.close_with(seat), room, cells as usize))
    }
}

// The turn word of a cell whose value is at home.
fn word_of(shut: bool) -> u64
    ensures { result ≡ cond shut 2 0 }
{
    if shut { 2 } else { 0 }
}
