// A pass at its site as a writer: what it does by turns.
ghost use Rattle.std.specs.Prelude.{◌≡◌, ◌<◌, ◌∷◌, ◌↔◌, [], true, false, None, Some, get_or, map, List, IfErr, IfSome, IsErrOf, OnErr, OnOk};
ghost use Rattle.topic_book.specs.Cells.{cells_in};
ghost use Rattle.exchange_rules.specs.Bindings.{book_cell, book_seen};
ghost use Rattle.exchange_rules.specs.Cells.{history_in, payload_of, signed, write};
ghost use Rattle.exchange_rules.specs.Primitives.{made};
ghost use Rattle.exchange_rules.specs.Steps.{is_full, kinds_of, writes_in};
ghost use Rattle.stream_site.specs.Refusals.{IsUnsealed, StaysWith};
ghost use Rattle.site_laws.specs.Sealings.{entries_of, MayAppend};
ghost use Rattle.turn_table.specs.Calls.{fault_word, known, table_of, turn_faults};
ghost use Rattle.logged_cells.specs.Cells.{faults_of, is_closed, IsSettled};
ghost use Rattle.shard_versions.specs.declared.cut.CutMark.{CutMark};
ghost use Rattle.shard_versions.specs.declared.cut.OwnMark.{OwnMark};
ghost use Rattle.turn_table.specs.Histories.{at};
ghost use Rattle.running_site.specs.Passes.{layout_in, writer_in};
ghost use Rattle.running_site.specs.Seals.{IsFitting, IsRefusalOf, IsSealed, LeavesWriter, StaysIn, UnlessBroken, IsGivable, made_by, writes_of};
ghost use Rattle.running_site.specs.Visits.{AreCounted, HasTurn, IsNoted, IsSound, IsVisit};

use crate::SiteOn;
use crate::pass::TablePass;
use crate::refusal::{SealRefusal, unsealed, unsealed_entry};
use crate::sealing::seal_in;
use crate::visit::Visit;
use disk_edge::Disk;
use logged_cells::LoggedCell;
use shard_versions::{CutMark, CutMarks, OwnMarks, Record, ShardState, Snapshot, Step};
use site_laws::Sealing;
use std::alloc::Global;
use std::mem::replace;
use std::sync::Wait;
use stream_site::{EntryRefusal, LookRefusal, StepRefusal, Turns, admitted, close};
use topic_book::{Binding, BookEntry, BookState, TopicKey};
use tuple_values::{Memory, Names, Versions};
use turn_table::{CellState, Turn};

/// Keeps the turn, where there is none.
fn hold<D: Drop>(slot: &mut Option<Turn<LoggedCell<D>>>, turn: Turn<LoggedCell<D>>)
    requires { slot.old ≡ None }
    ensures { slot.new ≡ Some turn }
{
    match replace(slot, Some(turn)) {
        None => {}
        Some(_) => unreachable!(),
    }
}

/// Keeps the turn, or gives it back where the cell's log failed.
fn hold_or_give<D: Disk>(
    site: &SiteOn<D>,
    pass: &mut TablePass<D>,
    slot: &mut Option<Turn<LoggedCell<D>>>,
    turn: Turn<LoggedCell<D>>,
    answer: &Result<(), SealRefusal>,
)
    requires empty { slot.old ≡ None }
    requires seated { table_of pass.old ≡ site.now.table.board.shared.table_id }
    requires visit { IsVisit site.now.names site.now.limit (known pass.old) (Some turn) }
    requires noted { fault_word pass.old turn.cell ≡ turn_faults (faults_of D.faults) turn }
    requires givable { IsGivable D.seen D.may_leave turn }
    requires sound { UnlessBroken (IfSome turn.value
        (λ cell. IsSettled D.seen D.may_leave cell × (is_closed cell ≡ false))) answer.now }
    ensures seated { table_of pass.new ≡ table_of pass.old }
    ensures visit { IsVisit site.now.names site.now.limit (known pass.new) slot.new }
    ensures noted { IsNoted D.faults pass.new slot.new }
    ensures sound { IsSound D.seen D.may_leave slot.new }
    ensures numbers { (known pass.new).numbers ≡ (known pass.old).numbers }
    ensures writer { (marks : List CutMark) (own : List OwnMark)
        → writer_in (known pass.new) marks own ≡ writer_in (known pass.old) marks own }
    ensures known { OnOk answer.now (known pass.new ≡ known pass.old) }
    ensures holds { OnOk answer.now (HasTurn slot.new turn.cell) }
    ensures turn { IfErr answer.now (StaysIn (HasTurn slot.new turn.cell) (slot.new ≡ None)) }
{
    match answer {
        Ok(()) => hold(slot, turn),
        Err(SealRefusal::NoRoom(_)) => hold(slot, turn),
        Err(SealRefusal::Broken { writes: _ }) => site.table.give(pass, turn),
    }
}

impl<R, D: Disk> Visit<'_, R, D> {
    /// The shard whose turn the pass has, which it has seen whole.
    fn shard(&self, cell: u32) -> &ShardState
        requires cell { cell < cells_in self.now.site.now.names }
        requires holds { HasTurn self.now.turn cell }
        ensures { result.now.entries ≡ history_in (at (known self.now.pass).seen cell) }
    {
        let _cell = cell;
        match &self.turn {
            Some(turn) => turn.state().shard(),
            None => unreachable!(),
        }
    }

    /// The book, where the pass has its turn and has seen it whole.
    fn book(&self) -> &BookState
        requires { HasTurn self.now.turn (book_cell self.now.site.now.names) }
        ensures seen { result.now.entries ≡ book_seen
            (layout_in self.now.site.now.names self.now.site.now.limit)
            (writer_in (known self.now.pass) self.now.marks.items self.now.own.items) }
        ensures counted { AreCounted self.now.site.now.names result.now.entries }
    {
        match &self.turn {
            Some(turn) => turn.state().book(),
            None => unreachable!(),
        }
    }

    /// Appends a sealing behind what the pass has seen of the cell whose turn it has. Where the log
    /// failed at that, the turn is given back.
    fn append(&mut self, cell: u32, sealing: Sealing) -> Result<(), SealRefusal>
        requires holds { HasTurn self.old.turn cell }
        requires allowed { MayAppend self.old.site.now.names (known self.old.pass).number
            (known self.old.pass).seen cell sealing }
        ensures site { self.new.site.now ≡ self.old.site.now }
        ensures holds { OnOk result (HasTurn self.new.turn cell) }
        ensures turn { IfErr result
            (StaysIn (HasTurn self.new.turn cell) (self.new.turn ≡ None)) }
        ensures marks { self.new.marks ≡ self.old.marks }
        ensures ok { OnOk result (IsSealed (known self.old.pass) (known self.new.pass)
            self.old.own.items self.new.own.items cell sealing) }
        ensures err { IfErr result (LeavesWriter
            (writer_in (known self.old.pass) self.old.marks.items self.old.own.items)
            (made_by (known self.old.pass) self.old.marks.items self.old.own.items cell sealing)
            cell (writes_of sealing)
            (writer_in (known self.new.pass) self.new.marks.items self.new.own.items)) }
        ensures fits { OnOk result (IsFitting self.old.site.now.limit
            (at (known self.old.pass).seen cell) sealing) }
        ensures cause { IfErr result (λ refusal. IsRefusalOf self.old.site.now.limit
            (at (known self.old.pass).seen cell) sealing refusal) }
    {
        let Some(mut turn) = self.turn.take() else {
            unreachable!()
        };
        let result = seal_in(
            self.site,
            &mut self.pass,
            &mut turn,
            &mut self.own,
            cell,
            sealing,
        );
        hold_or_give(self.site, &mut self.pass, &mut self.turn, turn, &result);
        result
    }

    /// Appends a step to the shard whose turn the pass has.
    fn append_step(&mut self, cell: u32, step: Step) -> Result<(), StepRefusal>
        requires holds { HasTurn self.old.turn cell }
        requires allowed { MayAppend self.old.site.now.names (known self.old.pass).number
            (known self.old.pass).seen cell (Sealing.Shard step) }
        ensures site { self.new.site.now ≡ self.old.site.now }
        ensures holds { OnOk result (HasTurn self.new.turn cell) }
        ensures turn { IfErr result
            (StaysWith (HasTurn self.new.turn cell) (self.new.turn ≡ None)) }
        ensures marks { self.new.marks ≡ self.old.marks }
        ensures ok { OnOk result
            (writer_in (known self.new.pass) self.new.marks.items self.new.own.items
            ≡ made (writer_in (known self.old.pass) self.old.marks.items self.old.own.items) cell
            (map write (kinds_of step))) }
        ensures err { IfErr result (IsUnsealed
            (is_full self.old.site.now.limit (history_in (at (known self.old.pass).seen cell))
            (kinds_of step) ≡ false)
            (writer_in (known self.old.pass) self.old.marks.items self.old.own.items)
            (made (writer_in (known self.old.pass) self.old.marks.items self.old.own.items) cell
            (map write (kinds_of step))) cell (writes_in (kinds_of step))
            (writer_in (known self.new.pass) self.new.marks.items self.new.own.items)) }
        ensures shard_full { IsErrOf result StepRefusal.ShardFull
            ↔ (is_full self.old.site.now.limit (history_in (at (known self.old.pass).seen cell))
            (kinds_of step) ≡ true) }
    {
        match self.append(cell, Sealing::Shard(step)) {
            Ok(()) => Ok(()),
            Err(refusal) => Err(unsealed(refusal)),
        }
    }
}

impl<R: Wait, D: Disk> Turns for Visit<'_, R, D> {
    ghost use Rattle.std.specs.Prelude.{◌≡◌, ◌-◌, None, vec_capacity, vec_len};
    ghost use Rattle.std.proofs.Common.{refl, ap, ◌∙◌};
    ghost use Rattle.turn_table.specs.Calls.{known};
    ghost use Rattle.site_laws.specs.Looks.{IsLater};
    ghost use Rattle.site_laws.proofs.LaterLemmas.{later-self, later-next};
    ghost use Rattle.running_site.specs.Passes.{layout_in, sight_in, writer_in};
    ghost use Rattle.running_site.specs.Visits.{HasTurn};

    type Home = SiteOn<D>;

    ghost home = { λ v. v.site.now };

    ghost lone = { λ s. s.passes ≡ 1 };

    ghost writer = { λ v. writer_in (known v.pass) v.marks.items v.own.items };

    ghost layout = { λ v. layout_in v.site.now.names v.site.now.limit };

    ghost room = { λ v. vec_capacity v.marks - vec_len v.marks };

    ghost holds = { λ v cell. HasTurn v.turn cell };

    ghost free = { λ v. v.turn ≡ None };

    ghost later = { λ v w. (w.site.now ≡ v.site.now)
        × IsLater v.site.now.names (sight_in (known v.pass)) (sight_in (known w.pass)) };

    fn names(&self) -> &Names {
        &self.site.names
    }

    fn number(&self) -> u64 {
        self.pass.number()
    }

    fn make_room(&mut self, looks: usize) -> Result<(), Memory> {
        self.leave();
        self.marks.reserve(looks)?;
        Ok(())
    }

    fn look(&mut self, cell: u32) -> Result<(), LookRefusal> {
        self.leave();
        match self.marks.reserve(1) {
            Ok(()) => {}
            Err(_) => return Err(LookRefusal::OutOfMemory),
        }
        let Some(turn) = self.site.table.turn(self.rt, &mut self.pass, cell) else {
            return Err(LookRefusal::Closed { cell });
        };
        self.site.table.look(&mut self.pass, &turn);
        let upto = turn.state().len();
        self.marks.push_reserved(CutMark { cell, upto });
        hold(&mut self.turn, turn);
        Ok(())
    }

    fn leave(&mut self) {
        match self.turn.take() {
            Some(turn) => self.site.table.give(&mut self.pass, turn),
            None => {}
        }
    }

    fn watch(&mut self) {
        self.site.table.watch(&mut self.pass);
    }

    fn is_pending(&self, cell: u32) -> bool {
        self.shard(cell).pending()
    }

    fn snapshot(&self, alloc: Global, cell: u32) -> Result<Snapshot, Memory> {
        self.shard(cell).snapshot(alloc)
    }

    fn seal(&mut self, cell: u32, step: Step) -> Result<(), StepRefusal> {
        self.append_step(cell, step)
    }

    fn deliver(&mut self, cell: u32, step: Step) -> Result<u64, StepRefusal> {
        let kept = match admitted(self.alloc, self.shard(cell), step) {
            Ok(kept) => kept,
            Err(_) => return Err(StepRefusal::OutOfMemory),
        };
        let count = kept.len() as u64;
        if count == 0 {
            return Ok(0);
        }
        let whole = match close(kept, self.pass.number(), true) {
            Ok(whole) => whole,
            Err(_) => return Err(StepRefusal::OutOfMemory),
        };
        match self.append_step(cell, whole) {
            Ok(()) => Ok(count),
            Err(fault) => Err(fault),
        }
    }

    fn bound(&self, key: &TopicKey) -> Option<&Binding> {
        self.book().bound(key)
    }

    fn checkpoint(&self, key: &TopicKey) -> Option<&Versions> {
        self.book().checkpoint(key)
    }

    fn raises(&self, key: &TopicKey, upto: &Versions) -> bool {
        self.book().is_raised(key, upto)
    }

    fn append_entry(&mut self, entry: BookEntry) -> Result<(), EntryRefusal> {
        let cell = self.site.table.cells() - 1;
        match self.append(cell, Sealing::Book(entry)) {
            Ok(()) => Ok(()),
            Err(refusal) => Err(unsealed_entry(refusal)),
        }
    }

    fn take_record(&mut self) -> Record {
        let marks = replace(&mut self.marks, Vec::new(self.alloc));
        let own = replace(&mut self.own, Vec::new(self.alloc));
        Record {
            marks: CutMarks::from_vec(marks),
            own: OwnMarks::from_vec(own),
        }
    }

    ghost later_self = { λ v. (refl, later-self v.site.now.names (sight_in (known v.pass))) };

    ghost later_on = { λ u v w f g. (
      g.0 ∙ f.0,
      later-next u.site.now.names v.site.now.names
          (sight_in (known u.pass)) (sight_in (known v.pass)) (sight_in (known w.pass))
          (ap (λ s. s.names) f.0) f.1 g.1,
    ) };
}
