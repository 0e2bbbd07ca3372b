// What is appended in a turn.
ghost use Rattle.std.specs.Prelude.{◌≡◌, ◌≤◌, ◌<◌, ◌⊎◌, false, true, IfErr, IfOk, IfSome, OnErr, OnOk, Some, vec_capacity, vec_len};
ghost use Rattle.io_edge.specs.Edge.{Rose};
ghost use Rattle.exchange_rules.specs.Steps.{kinds_of, writes_in};
ghost use Rattle.site_laws.specs.Sealings.{MayAppend};
ghost use Rattle.turn_table.specs.Calls.{fault_word, known, table_of, turn_about, turn_faults, turn_history};
ghost use Rattle.site_cells.specs.Values.{CanReserve, IsTaken};
ghost use Rattle.logged_cells.specs.Answers.{is_broken, is_log_fault, IsCause};
ghost use Rattle.logged_cells.specs.Cells.{about_in, faults_of, is_closed, log_of_cell, value_of, HasRoom, IsSettled};
ghost use Rattle.running_site.specs.Seals.{broken_once, writes_of, IsCauseOf, IsGivable, IsReady, IsSealed, IsUnready, IsUnsealedIn, UnlessBroken};
ghost use Rattle.running_site.specs.Visits.{IsVisit};

use crate::SiteOn;
use crate::pass::TablePass;
use crate::refusal::SealRefusal;
use disk_edge::Disk;
use logged_cells::{LoggedCell, LoggedRefusal, Made};
use shard_versions::{Kind, OwnMark, Step};
use site_cells::CellRefusal;
use site_laws::Sealing;
use turn_table::{CellState, Turn};

/// Whether the log failed, though it has the step.
fn broke(made: Made) -> bool
    ensures { result ≡ is_broken made }
{
    match made {
        Made::Clean => false,
        Made::Broke => true,
    }
}

/// Makes room for the mark of a sealing, and then for it in the cell whose turn this is, whose log
/// has it then. Answers whether the disk failed at that.
fn room_for<D: Disk>(
    pass: &TablePass<D>,
    turn: &mut Turn<LoggedCell<D>>,
    own: &mut Vec<OwnMark>,
    sealing: &Sealing,
) -> Result<bool, LoggedRefusal>
    requires can { IfSome turn.old.value (λ cell. CanReserve (value_of cell) sealing.now) }
    requires sound { IfSome turn.old.value
        (λ cell. IsSettled D.seen D.may_leave cell × (is_closed cell ≡ false)) }
    ensures cell { turn.new.cell ≡ turn.old.cell }
    ensures log { turn_history log_of_cell turn.new ≡ turn_history log_of_cell turn.old }
    ensures about { turn_about about_in turn.new ≡ turn_about about_in turn.old }
    ensures later { turn_faults (faults_of D.faults) turn.old ≤ turn_faults (faults_of D.faults) turn.new }
    ensures own { own.new.items ≡ own.old.items }
    ensures room { OnOk result
        (IfSome turn.new.value (λ cell. HasRoom D.seen D.may_leave cell sealing.now)) }
    ensures mark { OnOk result (vec_len own.new < vec_capacity own.new) }
    ensures taken { OnOk result (IfSome turn.old.value (λ cell. IsTaken (value_of cell) sealing.now)) }
    ensures clean { IfOk result (λ failed. failed ≡ false
        → turn_faults (faults_of D.faults) turn.new ≡ turn_faults (faults_of D.faults) turn.old) }
    ensures broke { IfOk result (λ failed. failed ≡ true
        → Rose (turn_faults (faults_of D.faults) turn.old) (turn_faults (faults_of D.faults) turn.new)) }
    ensures failed { IfErr result (λ refusal. is_log_fault refusal ≡ true
        → Rose (turn_faults (faults_of D.faults) turn.old) (turn_faults (faults_of D.faults) turn.new)) }
    ensures givable { OnErr result (IfSome turn.new.value
        (λ cell. IsSettled D.seen D.may_leave cell ⊎ (is_closed cell ≡ true))) }
    ensures same { IfErr result (λ refusal. is_log_fault refusal ≡ false
        → turn.new.value ≡ turn.old.value) }
    ensures cause { IfErr result
        (λ refusal. IfSome turn.old.value (λ cell. IsCause (value_of cell) sealing.now refusal)) }
{
    if turn.state().is_over(sealing) {
        return Err(LoggedRefusal::NoRoom(CellRefusal::ShardFull));
    }
    match own.reserve(1) {
        Ok(()) => {}
        Err(_) => return Err(LoggedRefusal::NoRoom(CellRefusal::OutOfMemory)),
    }
    let before = turn.state().faults();
    match turn.reserve(pass, sealing) {
        Ok(made) => Ok(broke(made) || turn.state().faults() != before),
        Err(refusal) => Err(refusal),
    }
}

/// Notes that the disk of the cell whose turn this is has failed.
fn note_fault<D: Disk>(site: &SiteOn<D>, pass: &mut TablePass<D>, turn: &mut Turn<LoggedCell<D>>)
    requires seated { table_of pass.old ≡ site.now.table.board.shared.table_id }
    requires visit { IsVisit site.now.names site.now.limit (known pass.old) (Some turn.old) }
    requires later { fault_word pass.old turn.old.cell ≤ turn_faults (faults_of D.faults) turn.old }
    requires rose { Rose (fault_word pass.old turn.old.cell) (turn_faults (faults_of D.faults) turn.old) }
    ensures seated { table_of pass.new ≡ table_of pass.old }
    ensures turn { turn.new ≡ turn.old }
    ensures visit { IsVisit site.now.names site.now.limit (known pass.new) (Some turn.new) }
    ensures known { known pass.new ≡ broken_once turn.old.cell (known pass.old) }
    ensures noted { fault_word pass.new turn.new.cell ≡ turn_faults (faults_of D.faults) turn.new }
    ensures numbers { (known pass.new).numbers ≡ (known pass.old).numbers }
{
    site.table.note(pass, turn);
}

/// Makes room for a sealing and its mark, and notes where the disk failed at that. Answers whether
/// it did.
fn ready<D: Disk>(
    site: &SiteOn<D>,
    pass: &mut TablePass<D>,
    turn: &mut Turn<LoggedCell<D>>,
    own: &mut Vec<OwnMark>,
    sealing: &Sealing,
) -> Result<bool, LoggedRefusal>
    requires seated { table_of pass.old ≡ site.now.table.board.shared.table_id }
    requires visit { IsVisit site.now.names site.now.limit (known pass.old) (Some turn.old) }
    requires noted { fault_word pass.old turn.old.cell ≡ turn_faults (faults_of D.faults) turn.old }
    requires can { IfSome turn.old.value (λ cell. CanReserve (value_of cell) sealing.now) }
    requires sound { IfSome turn.old.value
        (λ cell. IsSettled D.seen D.may_leave cell × (is_closed cell ≡ false)) }
    ensures seated { table_of pass.new ≡ table_of pass.old }
    ensures cell { turn.new.cell ≡ turn.old.cell }
    ensures visit { IsVisit site.now.names site.now.limit (known pass.new) (Some turn.new) }
    ensures noted { fault_word pass.new turn.new.cell ≡ turn_faults (faults_of D.faults) turn.new }
    ensures numbers { (known pass.new).numbers ≡ (known pass.old).numbers }
    ensures own { own.new.items ≡ own.old.items }
    ensures room { OnOk result
        (IfSome turn.new.value (λ cell. HasRoom D.seen D.may_leave cell sealing.now)) }
    ensures mark { OnOk result (vec_len own.new < vec_capacity own.new) }
    ensures taken { OnOk result (IfSome turn.old.value (λ cell. IsTaken (value_of cell) sealing.now)) }
    ensures ok { IfOk result (λ failed. IsReady turn.old.cell (known pass.old) (known pass.new) failed) }
    ensures err { IfErr result
        (λ refusal. IsUnready turn.old turn.new (known pass.old) (known pass.new) refusal) }
    ensures givable { OnErr result (IsGivable D.seen D.may_leave turn.new) }
    ensures cause { IfErr result
        (λ refusal. IfSome turn.old.value (λ cell. IsCause (value_of cell) sealing.now refusal)) }
{
    let room = room_for(pass, turn, own, sealing);
    match &room {
        Ok(true) => note_fault(site, pass, turn),
        Ok(false) => {}
        Err(LoggedRefusal::LogFault) => note_fault(site, pass, turn),
        Err(LoggedRefusal::NoRoom(_)) => {}
    }
    room
}

/// Appends a sealing that has room, and its mark.
fn seal_ready<D: Disk>(
    site: &SiteOn<D>,
    pass: &mut TablePass<D>,
    turn: &mut Turn<LoggedCell<D>>,
    own: &mut Vec<OwnMark>,
    cell: u32,
    sealing: Sealing,
)
    requires seated { table_of pass.old ≡ site.now.table.board.shared.table_id }
    requires visit { IsVisit site.now.names site.now.limit (known pass.old) (Some turn.old) }
    requires noted { fault_word pass.old turn.old.cell ≡ turn_faults (faults_of D.faults) turn.old }
    requires cell { turn.old.cell ≡ cell }
    requires room { IfSome turn.old.value (λ cell. HasRoom D.seen D.may_leave cell sealing) }
    requires mark { vec_len own.old < vec_capacity own.old }
    requires allowed { MayAppend site.now.names (known pass.old).number (known pass.old).seen cell
        sealing }
    ensures seated { table_of pass.new ≡ table_of pass.old }
    ensures visit { IsVisit site.now.names site.now.limit (known pass.new) (Some turn.new) }
    ensures noted { fault_word pass.new turn.new.cell ≡ turn_faults (faults_of D.faults) turn.new }
    ensures numbers { (known pass.new).numbers ≡ (known pass.old).numbers }
    ensures sound { IfSome turn.new.value
        (λ cell. IsSettled D.seen D.may_leave cell × (is_closed cell ≡ false)) }
    ensures cell { turn.new.cell ≡ cell }
    ensures sealed { IsSealed (known pass.old) (known pass.new) own.old.items own.new.items cell
        sealing }
{
    let from = turn.state().len();
    site.table.seal(pass, turn, sealing);
    let count = turn.state().len() - from;
    own.push_reserved(OwnMark { cell, from, count });
}

/// How many writes a step has.
fn count_writes(step: &Step) -> u64
    ensures { result ≡ writes_in (kinds_of step.now) }
{
    let mut writes: u64 = 0;
    for entry in step.as_slice() {
        match &entry.kind {
            Kind::Mark => {}
            Kind::Put(_) => writes += 1,
            Kind::Del(_) => writes += 1,
            Kind::Sent { .. } => writes += 1,
        }
    }
    writes
}

/// How many writes of documents a sealing has.
fn writes_of(sealing: &Sealing) -> u64
    ensures { result ≡ writes_of sealing.now }
{
    match sealing {
        Sealing::Shard(step) => count_writes(step),
        Sealing::Book(_) => 0,
    }
}

/// Appends a sealing behind what the pass has seen of the cell whose turn it has, with its mark,
/// unless there is no room, or the cell's log fails and doesn't have it. Where the log failed, the
/// turn is to be given back.
pub(crate) fn seal_in<D: Disk>(
    site: &SiteOn<D>,
    pass: &mut TablePass<D>,
    turn: &mut Turn<LoggedCell<D>>,
    own: &mut Vec<OwnMark>,
    cell: u32,
    sealing: Sealing,
) -> Result<(), SealRefusal>
    requires seated { table_of pass.old ≡ site.now.table.board.shared.table_id }
    requires visit { IsVisit site.now.names site.now.limit (known pass.old) (Some turn.old) }
    requires noted { fault_word pass.old turn.old.cell ≡ turn_faults (faults_of D.faults) turn.old }
    requires sound { IfSome turn.old.value
        (λ cell. IsSettled D.seen D.may_leave cell × (is_closed cell ≡ false)) }
    requires cell { turn.old.cell ≡ cell }
    requires allowed { MayAppend site.now.names (known pass.old).number (known pass.old).seen cell
        sealing }
    ensures seated { table_of pass.new ≡ table_of pass.old }
    ensures visit { IsVisit site.now.names site.now.limit (known pass.new) (Some turn.new) }
    ensures noted { fault_word pass.new turn.new.cell ≡ turn_faults (faults_of D.faults) turn.new }
    ensures numbers { (known pass.new).numbers ≡ (known pass.old).numbers }
    ensures cell { turn.new.cell ≡ cell }
    ensures givable { IsGivable D.seen D.may_leave turn.new }
    ensures sound { UnlessBroken (IfSome turn.new.value
        (λ cell. IsSettled D.seen D.may_leave cell × (is_closed cell ≡ false))) result }
    ensures ok { OnOk result (IsSealed (known pass.old) (known pass.new) own.old.items own.new.items
        cell sealing) }
    ensures err { IfErr result (IsUnsealedIn turn.old turn.new (known pass.old) (known pass.new)
        own.old.items own.new.items cell sealing) }
    ensures taken { OnOk result (IfSome turn.old.value (λ cell. IsTaken (value_of cell) sealing)) }
    ensures cause { IfErr result
        (λ refusal. IfSome turn.old.value (λ cell. IsCauseOf (value_of cell) sealing refusal)) }
{
    match ready(site, pass, turn, own, &sealing) {
        Ok(false) => {
            seal_ready(site, pass, turn, own, cell, sealing);
            Ok(())
        }
        Ok(true) => {
            let writes = writes_of(&sealing);
            seal_ready(site, pass, turn, own, cell, sealing);
            Err(SealRefusal::Broken { writes })
        }
        Err(LoggedRefusal::LogFault) => Err(SealRefusal::Broken { writes: 0 }),
        Err(LoggedRefusal::NoRoom(refusal)) => Err(SealRefusal::NoRoom(refusal)),
    }
}
