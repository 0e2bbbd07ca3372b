// Tests of turn_table, over a cell whose log can fail.
ghost use Rattle.std.specs.Prelude.{◌≡◌, ◌<◌, [], false, IfOk};
ghost use Rattle.turn_table.specs.Calls.{table_of};

use std::alloc::Global;
use std::marker::Model;
use std::sync::Wait;
use std::test::Fail;
use tuple_values::{Numbers, Sequence};
use turn_table::{CellState, Pass, TurnTable};

/// What a log that fails leaves behind: the step, nothing, or a log that is shut.
const STANDS: u64 = 97;

const IS_LOST: u64 = 98;

const SHUTS: u64 = 99;

/// Why a step got no room.
#[derive(Drop)]
struct Refused {
    log: bool,
}

/// The numbers of passes that added something. Some amounts make the cell's log fail. A contract sees them, for how
/// many there is room, the faults, and whether it is shut.
#[derive(Drop)]
struct Vault {
    entries: Vec<u64>,
    faults: u64,
    shut: bool,
}

impl Model for Vault {
    ghost use Rattle.std.specs.Prelude.{Bool, List, ℕ, vec_capacity};

    ghost Value = { List ℕ × ℕ × ℕ × Bool };

    ghost view = { λ v. (v.entries.items, vec_capacity v.entries, v.faults, v.shut) };
}

impl CellState for Vault {
    ghost use Rattle.std.specs.Prelude.{◌≡◌, ◌<◌, [], ◌∷◌, false, length};
    ghost use Rattle.site_tests.specs.Tallies.{signed_by};

    type About = u64;

    type Entry = u64;

    type Sealing = u64;

    type Made = bool;

    type Refusal = Refused;

    ghost about = { λ _. 0 };

    ghost history = { λ vault. vault.0 };

    ghost can_reserve = { λ vault amount. Unit {0} };

    ghost room = { λ vault by amount. (length vault.0 < vault.1) × (vault.3 ≡ false) };

    ghost takes = { λ vault amount. Unit {0} };

    ghost refuses = { λ vault amount refusal. Unit {0} };

    ghost settled = { λ vault. Unit {0} };

    ghost is_shut = { λ vault. vault.3 };

    ghost fault_count = { λ vault. vault.2 };

    ghost broke = { λ made. made };

    ghost log_failed = { λ refusal. refusal.log };

    ghost writer = { λ entry. entry };

    ghost entries = { λ by amount. by ∷ [] };

    ghost law = { λ _ histories. Unit {0} };

    ghost allows = { λ _ by seen cell amount. Unit {0} };

    ghost tells = { λ _ cell seen histories. Unit {0} };

    fn reserve(&mut self, by: u64, sealing: &u64) -> Result<bool, Refused> {
        let _by = by;
        let Ok(()) = self.entries.reserve(1) else {
            return Err(Refused { log: false });
        };
        let amount = *sealing;
        if amount < STANDS {
            return Ok(false);
        }
        self.faults = self.faults.saturating_add(1);
        self.shut = amount == SHUTS;
        if amount == STANDS {
            Ok(true)
        } else {
            Err(Refused { log: true })
        }
    }

    fn append(&mut self, by: u64, sealing: u64) {
        let _sealing = sealing;
        self.entries.push_reserved(by);
    }

    fn shut(&self) -> bool {
        self.shut
    }

    fn faults(&self) -> u64 {
        self.faults
    }

    fn len(&self) -> u64 {
        self.entries.len() as u64
    }

    ghost keeps = { λ abouts by histories seen cell amount law prefixes low whole may. tt };

    ghost looks = { λ abouts histories seen cell law prefixes low whole. tt };

    ghost lasts = { λ abouts cell seen histories later told prefixes law. tt };

    ghost signed = { λ abouts by seen cell amount may. signed_by by };
}

impl Vault {
    fn empty(alloc: Global) -> Vault
        ensures { (result.0 ≡ []) × (result.3 ≡ false) }
    {
        Vault {
            entries: Vec::new(alloc),
            faults: 0,
            shut: false,
        }
    }
}

type VaultPass = Pass<Vault, u64, u64>;

/// A table of two cells with no entry, and the first of its passes.
fn two_vaults(alloc: Global) -> Result<(TurnTable<Vault>, VaultPass), Fail>
    ensures cells { IfOk result (λ made. made.0.cells ≡ 2) }
    ensures own { IfOk result (λ made. table_of made.1 ≡ made.0.board.shared.table_id) }
{
    let mut cells = Sequence::new(alloc);
    cells.push(Vault::empty(alloc))?;
    cells.push(Vault::empty(alloc))?;
    let mut numbers = Numbers::new(alloc);
    numbers.push(1)?;
    numbers.push(2)?;
    let (table, passes) = TurnTable::start(alloc, cells, numbers)?;
    let mut passes = passes.into_vec();
    let Some(pass) = passes.pop() else {
        return Err("no pass".into());
    };
    Ok((table, pass))
}

/// One amount in a cell: whether it was added, and nothing where the cell is shut. What the log's failing
/// tells is noted before the turn is given back.
fn put<R: Wait>(
    rt: &R,
    table: &TurnTable<Vault>,
    pass: &mut VaultPass,
    cell: u32,
    amount: u64,
) -> Option<bool>
    requires own { table_of pass.old ≡ table.now.board.shared.table_id }
    requires cell { cell < table.now.cells }
    ensures own { table_of pass.new ≡ table_of pass.old }
{
    let mut turn = table.turn(rt, pass, cell)?;
    table.look(pass, &turn);
    let made = turn.reserve(pass, &amount);
    table.note(pass, &mut turn);
    let is_made = made.is_ok();
    if is_made {
        table.seal(pass, &mut turn, amount);
    }
    table.give(pass, turn);
    Some(is_made)
}

/// Whether a try gets the turn of a cell, which is then given back.
fn is_had(table: &TurnTable<Vault>, pass: &mut VaultPass, cell: u32) -> bool
    requires own { table_of pass.old ≡ table.now.board.shared.table_id }
    requires cell { cell < table.now.cells }
    ensures own { table_of pass.new ≡ table_of pass.old }
{
    match table.try_turn(pass, cell) {
        Some(turn) => {
            table.give(pass, turn);
            true
        }
        None => false,
    }
}

#[test]
fn a_cell_whose_log_is_shut_is_not_given_again(rt: HostRuntime) -> Result<(), Fail> {
    let (table, mut pass) = two_vaults(rt.alloc())?;
    assert!(rt; put(&rt, &table, &mut pass, 0, 5) == Some(true));
    assert!(rt; put(&rt, &table, &mut pass, 0, SHUTS) == Some(false));
    assert!(rt; put(&rt, &table, &mut pass, 0, 5).is_none());
    assert!(rt; !is_had(&table, &mut pass, 0));
    assert!(rt; put(&rt, &table, &mut pass, 1, 5) == Some(true));
    Ok(())
}

#[test]
fn a_cell_whose_log_was_opened_again_goes_on(rt: HostRuntime) -> Result<(), Fail> {
    let (table, mut pass) = two_vaults(rt.alloc())?;
    assert!(rt; put(&rt, &table, &mut pass, 0, STANDS) == Some(true));
    assert!(rt; put(&rt, &table, &mut pass, 0, IS_LOST) == Some(false));
    assert!(rt; put(&rt, &table, &mut pass, 0, 5) == Some(true));
    Ok(())
}
