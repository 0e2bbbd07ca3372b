// Tests of turn_table, over a small cell: amounts, of which the second cell has no more than the
// first.
ghost use Rattle.std.specs.Prelude.{◌≡◌, ◌<◌, ◌+◌, ℕ, [], ◌∷◌, length, vec_len, vec_capacity, All, IfOk, Some, None};
ghost use Rattle.turn_table.specs.Calls.{known, table_of};
ghost use Rattle.turn_table.specs.Knowledge.{fresh, IsFree};

use std::alloc::{AllocError, Global};
use std::marker::Model;
use std::sync::Wait;
use std::test::Fail;
use std::thread::{Threads, join};
use tuple_values::{Memory, Numbers, Sequence};
use turn_table::{CellState, Pass, TurnTable, law_between_steps};

/// Amounts, each with the number of the pass that added it. A contract sees them and for how many there is room.
#[derive(Drop)]
struct Tally {
    entries: Vec<(u64, u64)>,
}

impl Model for Tally {
    ghost use Rattle.std.specs.Prelude.{List, ℕ, vec_capacity};

    ghost Value = { List (ℕ × ℕ) × ℕ };

    ghost view = { λ t. (t.entries.items, vec_capacity t.entries) };
}

impl CellState for Tally {
    ghost use Rattle.std.specs.Prelude.{◌<◌, [], ◌∷◌, false, length};
    ghost use Rattle.std.proofs.Common.{refl};
    ghost use Rattle.std.proofs.lemmas.List.Elements.{All-cons, All-nil};
    ghost use Rattle.site_tests.specs.Tallies.{IsBehind, IsCovered, MayAdd, behind_kept, covered_at_look, covered_later, signed_one};

    type About = u64;

    type Entry = (u64, u64);

    type Sealing = u64;

    type Made = ();

    type Refusal = AllocError;

    ghost about = { λ _. 0 };

    ghost history = { λ tally. tally.0 };

    ghost can_reserve = { λ tally amount. Unit {0} };

    ghost room = { λ tally by amount. length tally.0 < tally.1 };

    ghost takes = { λ tally amount. Unit {0} };

    ghost refuses = { λ tally amount refusal. Unit {0} };

    ghost settled = { λ tally. Unit {0} };

    ghost is_shut = { λ tally. false };

    ghost fault_count = { λ tally. 0 };

    ghost broke = { λ made. false };

    ghost log_failed = { λ refusal. false };

    ghost writer = { λ entry. entry.0 };

    ghost entries = { λ by amount. (by, amount) ∷ [] };

    ghost law = { λ _ histories. IsBehind histories };

    ghost allows = { λ _ by seen cell amount. MayAdd seen cell };

    ghost tells = { λ _ cell seen histories. IsCovered cell seen histories };

    fn reserve(&mut self, by: u64, sealing: &u64) -> Result<(), AllocError> {
        let _by = by;
        let _sealing = sealing;
        self.entries.reserve(1)
    }

    fn append(&mut self, by: u64, sealing: u64) {
        self.entries.push_reserved((by, sealing));
    }

    fn shut(&self) -> bool {
        false
    }

    fn faults(&self) -> u64 {
        0
    }

    fn len(&self) -> u64 {
        self.entries.len() as u64
    }

    ghost keeps = { λ abouts by histories seen cell amount behind prefixes low whole may.
        behind_kept histories seen cell (by, amount) behind prefixes low whole may };

    ghost looks = { λ abouts histories seen cell behind prefixes low whole.
        covered_at_look histories seen cell behind prefixes };

    ghost lasts = { λ abouts cell seen histories later covered prefixes behind.
        covered_later cell seen histories later covered prefixes };

    ghost signed = { λ abouts by seen cell amount may. signed_one by amount };
}

impl Tally {
    fn empty(alloc: Global) -> Tally
        ensures { result.0 ≡ [] }
    {
        Tally {
            entries: Vec::new(alloc),
        }
    }
}

type TallyPass = Pass<Tally, u64, (u64, u64)>;

/// A table of two cells with no entry, and its passes, with the numbers 1 and 2.
fn two_cells(alloc: Global) -> Result<(TurnTable<Tally>, TallyPass, TallyPass), Fail>
    ensures cells { IfOk result (λ made. made.0.cells ≡ 2) }
    ensures numbers { IfOk result (λ made. made.0.board.shared.key.numbers.value ≡ 1 ∷ 2 ∷ []) }
    ensures own { IfOk result (λ made. (table_of made.1 ≡ made.0.board.shared.table_id)
        × (table_of made.2 ≡ made.0.board.shared.table_id)) }
    ensures known { IfOk result (λ made.
        (known made.1 ≡ fresh (0 ∷ 0 ∷ []) ([] ∷ [] ∷ []) (1 ∷ 2 ∷ []) 2 1)
        × (known made.2 ≡ fresh (0 ∷ 0 ∷ []) ([] ∷ [] ∷ []) (1 ∷ 2 ∷ []) 2 2)) }
{
    let mut cells = Sequence::new(alloc);
    cells.push(Tally::empty(alloc))?;
    cells.push(Tally::empty(alloc))?;
    let mut numbers = Numbers::new(alloc);
    numbers.push(1)?;
    numbers.push(2)?;
    let (table, passes) = TurnTable::start(alloc, cells, numbers)?;
    let mut passes = passes.into_vec();
    let Some(second) = passes.pop() else {
        return Err("no second pass".into());
    };
    let Some(first) = passes.pop() else {
        return Err("no first pass".into());
    };
    Ok((table, first, second))
}

// Whether a pass gets the turn of a cell, which it then gives back.
fn is_free(table: &TurnTable<Tally>, pass: &mut TallyPass, cell: u32) -> bool
    requires own { table_of pass.old ≡ table.now.board.shared.table_id }
    requires cell { cell < table.now.cells }
    ensures own { table_of pass.new ≡ table_of pass.old }
{
    match table.try_turn(pass, cell) {
        Some(turn) => {
            table.give(pass, turn);
            true
        }
        None => false,
    }
}

// Whether, while one pass has the turn of the first cell, another gets that of the second alone.
fn are_apart(table: &TurnTable<Tally>, first: &mut TallyPass, second: &mut TallyPass) -> bool
    requires own { (table_of first.old ≡ table.now.board.shared.table_id)
        × (table_of second.old ≡ table.now.board.shared.table_id) }
    requires cells { table.now.cells ≡ 2 }
    ensures own { table_of second.new ≡ table_of second.old }
{
    match table.try_turn(first, 0) {
        Some(turn) => {
            let other = is_free(table, second, 1);
            let taken = !is_free(table, second, 0);
            table.give(first, turn);
            other && taken
        }
        None => false,
    }
}

#[test]
fn turns_apart(rt: HostRuntime) -> Result<(), Fail> {
    let (table, mut first, mut second) = two_cells(rt.alloc())?;
    let apart = are_apart(&table, &mut first, &mut second);
    assert!(rt; apart && is_free(&table, &mut second, 0));
    law_between_steps::<Tally>();
    Ok(())
}

// Whether a pass that has both turns gives the first back before the second.
fn gives_in_order(table: &TurnTable<Tally>, pass: &mut TallyPass, other: &mut TallyPass) -> bool
    requires own { (table_of pass.old ≡ table.now.board.shared.table_id)
        × (table_of other.old ≡ table.now.board.shared.table_id) }
    requires cells { table.now.cells ≡ 2 }
{
    let one = table.try_turn(pass, 0);
    let two = table.try_turn(pass, 1);
    let both = one.is_some() && two.is_some();
    if let Some(turn) = one {
        table.give(pass, turn);
    }
    let free = is_free(table, other, 0);
    if let Some(turn) = two {
        table.give(pass, turn);
    }
    both && free
}

#[test]
fn one_pass_gives_two_turns_in_the_order_it_took_them(rt: HostRuntime) -> Result<(), Fail> {
    let (table, mut pass, mut other) = two_cells(rt.alloc())?;
    assert!(rt; gives_in_order(&table, &mut pass, &mut other));
    Ok(())
}

/// One amount more in the first cell, where there is room for it: the pass waits for the turn,
/// looks, makes room, seals and gives the turn back.
fn add<R: Wait>(
    rt: &R,
    table: &TurnTable<Tally>,
    mut pass: TallyPass,
    amount: u64,
) -> (TallyPass, bool)
    requires own { table_of pass ≡ table.now.board.shared.table_id }
    requires cells { 0 < table.now.cells }
    requires free { IsFree (known pass) }
    ensures own { table_of result.0 ≡ table.now.board.shared.table_id }
    ensures free { IsFree (known result.0) }
    ensures number { (known result.0).number ≡ (known pass).number }
{
    let Some(mut turn) = table.turn(rt, &mut pass, 0) else {
        return (pass, false);
    };
    table.look(&mut pass, &turn);
    let room = turn.reserve(&pass, &amount).is_ok();
    if room {
        table.seal(&mut pass, &mut turn, amount);
    }
    table.give(&mut pass, turn);
    (pass, room)
}

/// Two threads add, each with its pass.
fn add_both<R: Threads + Wait + Sync>(
    rt: &R,
    table: &TurnTable<Tally>,
    first: TallyPass,
    second: TallyPass,
) -> ((TallyPass, bool), (TallyPass, bool))
    requires own { (table_of first ≡ table.now.board.shared.table_id)
        × (table_of second ≡ table.now.board.shared.table_id) }
    requires cells { 0 < table.now.cells }
    requires free { IsFree (known first) × IsFree (known second) }
    ensures own { (table_of result.0.0 ≡ table.now.board.shared.table_id)
        × (table_of result.1.0 ≡ table.now.board.shared.table_id) }
    ensures free { IsFree (known result.0.0) × IsFree (known result.1.0) }
    ensures numbers { ((known result.0.0).number ≡ (known first).number)
        × ((known result.1.0).number ≡ (known second).number) }
{
    join(
        rt,
        || add(rt, table, first, 5),
        || add(rt, table, second, 7),
    )
}

fn sum_of(cells: &[Tally]) -> u64 {
    let mut sum: u64 = 0;
    for cell in cells {
        for entry in &cell.entries {
            sum = sum.saturating_add(entry.1);
        }
    }
    sum
}

/// Ends a table; the sum of its amounts.
fn sum_left(
    alloc: Global,
    table: TurnTable<Tally>,
    first: TallyPass,
    second: TallyPass,
) -> Result<u64, Memory>
    requires own { (table_of first ≡ table.board.shared.table_id)
        × (table_of second ≡ table.board.shared.table_id) }
    requires free { IsFree (known first) × IsFree (known second) }
    requires numbers { table.board.shared.key.numbers.value ≡ 1 ∷ 2 ∷ [] }
    requires one { (known first).number ≡ 1 }
    requires two { (known second).number ≡ 2 }
{
    let mut passes = Sequence::new(alloc);
    passes.push(first)?;
    passes.push(second)?;
    let cells = table.close(passes);
    Ok(sum_of(cells.as_slice()))
}

#[test]
fn two_threads_add_by_turns(rt: HostRuntime) -> Result<(), Fail> {
    let (table, first, second) = two_cells(rt.alloc())?;
    let ((first, one), (second, two)) = add_both(&rt, &table, first, second);
    let sum = sum_left(rt.alloc(), table, first, second)?;
    assert!(rt; one && two && sum == 12);
    Ok(())
}
