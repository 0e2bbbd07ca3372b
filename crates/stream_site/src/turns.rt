// What a writer does at a cell, and what it can know of one.
use crate::refusal::{EntryRefusal, LookRefusal, StepRefusal};
use shard_versions::{Record, Snapshot, Step};
use std::alloc::Global;
use topic_book::{Binding, BookEntry, TopicKey};
use tuple_values::{Memory, Names, Versions};

/// A writer of a site. What a call does is written over looks, and over what is appended where the
/// writer has looked.
pub trait Turns {
    ghost use Rattle.std.specs.Prelude.{ℕ, ◌≡◌, ◌+◌, ◌<◌, ◌≤◌, ◌^◌, ◌↔◌, [], ◌∷◌, false, true, length, map, get_or, option_copied, IfErr, IfOk, OnOk, OnErr, IsErrOf};
    ghost use Rattle.shard_versions.specs.Histories.{is_pending};
    ghost use Rattle.topic_book.specs.Books.{binding_of, checkpoints, raises};
    ghost use Rattle.topic_book.specs.Cells.{cells_in};
    ghost use Rattle.topic_book.specs.States.{IsOpenTo};
    ghost use Rattle.once_core.specs.Allowed.{MayStore};
    ghost use Rattle.once_core.specs.Law.{IsFitCell};
    ghost use Rattle.exchange_rules.specs.Bindings.{book_cell, book_seen};
    ghost use Rattle.exchange_rules.specs.Cells.{payload_of, history_in, write};
    ghost use Rattle.exchange_rules.specs.Deliveries.{admitted_kinds};
    ghost use Rattle.exchange_rules.specs.Following.{Writer, cleared};
    ghost use Rattle.exchange_rules.specs.Primitives.{LooksAt, delivered, made};
    ghost use Rattle.exchange_rules.specs.Rows.{Layout, HasCell, shown_of};
    ghost use Rattle.exchange_rules.specs.Steps.{is_full, is_over, kinds_of, writes_in};
    ghost use Rattle.site_laws.specs.Duties.{MayDeliver, MayAppendEntry, MayWrite};
    ghost use Rattle.site_laws.specs.SiteCells.{histories_in};
    ghost use Rattle.stream_site.specs.Lone.{IsAllOwn};
    ghost use Rattle.stream_site.specs.Refusals.{IsUnadded, IsUnsealed, IsUnseen, StaysWith, StaysWithEntry};
    ghost use Rattle.stream_site.specs.Rooms.{MayWant};

    /// Where the writer is: it stays there.
    type Home;

    ghost home: { Self → Self.Home };

    /// No other writer is there.
    ghost lone: { Self.Home → Type 0 };

    /// What the writer has seen, and its record.
    ghost writer: { Self → Writer };

    /// The collections, and the limit on each shard.
    ghost layout: { Self → Layout };

    /// For how many looks there is room in the record.
    ghost room: { Self → ℕ };

    /// The writer has this cell's turn: what it has seen of the cell is all that there is.
    ghost holds: { Self → ℕ → Type 0 };

    /// It has no turn.
    ghost free: { Self → Type 0 };

    /// What stays from one moment of the writer to a later one.
    ghost later: { Self → Self → Type 0 };

    /// The collections. There is a cell for each of their shards, and the book's. What the writer
    /// has seen of a shard's cell belongs there.
    fn names(&self) -> &Names
        ensures names { result.now ≡ (layout self.now).names }
        ensures cells { length (writer self.now).seen ≡ cells_in (layout self.now).names + 1 }
        ensures few { cells_in (layout self.now).names < 2 ^ 32 }
        ensures fit { (cell : ℕ) → cell < cells_in (layout self.now).names
            → IsFitCell (layout self.now).names cell
            (history_in (get_or (writer self.now).seen cell [])) };

    /// The writer's number, which its entries carry.
    fn number(&self) -> u64
        ensures { result ≡ (writer self.now).me };

    /// Shows the writer a moment of its site, and nothing of what is there. Where no other writer is,
    /// all that it has seen is its own and meets the law of all histories, so by `delivery_holds`
    /// each topic delivers once.
    fn watch(&mut self)
        ensures alone { lone (home self.old)
            → IsAllOwn (layout self.old).names (writer self.old) }
        ensures writer { writer self.new ≡ writer self.old }
        ensures free { free self.old → free self.new }
        ensures layout { layout self.new ≡ layout self.old }
        ensures home { home self.new ≡ home self.old };

    /// Makes room in the record for so many looks, so that none of them wants memory while the
    /// writer has a turn. There is no less room than before, after an `Err` too. A writer that has
    /// a turn gives it back first.
    fn make_room(&mut self, looks: usize) -> Result<(), Memory>
        ensures ok { OnOk result (looks ≤ room self.new) }
        ensures room { room self.old ≤ room self.new }
        ensures writer { writer self.new ≡ writer self.old }
        ensures layout { layout self.new ≡ layout self.old }
        ensures home { home self.new ≡ home self.old }
        ensures later { later self.old self.new };

    /// Gives back the turn that the writer has, if any, takes the cell's and looks. Entries of
    /// others may have come since it was seen. It is refused where the cell is closed. It wants
    /// memory only where there was no room for a look, or where the looks at the cell can't be
    /// counted any further, and it takes up the room of one look at most.
    fn look(&mut self, cell: u32) -> Result<(), LookRefusal>
        requires { cell < length (writer self.old).seen }
        ensures ok { OnOk result (LooksAt (writer self.old) (writer self.new) cell) }
        ensures holds { OnOk result (holds self.new cell) }
        ensures err { IfErr result (IsUnseen (writer self.old) (writer self.new) cell) }
        ensures cause { IsErrOf result LookRefusal.OutOfMemory
            → MayWant (room self.old) (writer self.old) cell }
        ensures room { room self.old ≤ room self.new + 1 }
        ensures layout { layout self.new ≡ layout self.old }
        ensures home { home self.new ≡ home self.old }
        ensures later { later self.old self.new };

    /// Gives back the turn that the writer has, if any. The room for looks stays.
    fn leave(&mut self)
        ensures writer { writer self.new ≡ writer self.old }
        ensures free { free self.new }
        ensures room { room self.new ≡ room self.old }
        ensures layout { layout self.new ≡ layout self.old }
        ensures home { home self.new ≡ home self.old }
        ensures later { later self.old self.new };

    /// Whether a write is pending in what was seen of the cell.
    fn is_pending(&self, cell: u32) -> bool
        requires cell { HasCell (layout self.now) (writer self.now) cell }
        requires holds { holds self.now cell }
        ensures { result ≡ is_pending (history_in (get_or (writer self.now).seen cell [])) };

    /// What was seen of the cell, as a shard is read.
    fn snapshot(&self, alloc: Global, cell: u32) -> Result<Snapshot, Memory>
        requires cell { HasCell (layout self.now) (writer self.now) cell }
        requires holds { holds self.now cell }
        ensures { IfOk result
            (λ s. s ≡ shown_of (history_in (get_or (writer self.now).seen cell []))) };

    /// Appends the writer's step right behind what it has seen of the cell. Where the append to the
    /// cell's log fails, the step stands or it doesn't, and the turn is given back. The room for looks
    /// stays.
    fn seal(&mut self, cell: u32, step: Step) -> Result<(), StepRefusal>
        requires in_range { HasCell (layout self.old) (writer self.old) cell }
        requires holds { holds self.old cell }
        requires allowed { MayWrite (layout self.old).names (writer self.old).me
            (writer self.old).seen cell step }
        ensures ok { OnOk result
            (writer self.new ≡ made (writer self.old) cell (map write (kinds_of step))) }
        ensures err { IfErr result (IsUnsealed
            (is_full (layout self.old).limit (history_in (get_or (writer self.old).seen cell []))
            (kinds_of step) ≡ false)
            (writer self.old) (made (writer self.old) cell (map write (kinds_of step))) cell
            (writes_in (kinds_of step)) (writer self.new)) }
        ensures shard_full { IsErrOf result StepRefusal.ShardFull
            ↔ (is_full (layout self.old).limit (history_in (get_or (writer self.old).seen cell []))
            (kinds_of step) ≡ true) }
        ensures room { room self.new ≡ room self.old }
        ensures holds { OnOk result (holds self.new cell) }
        ensures turn { IfErr result (StaysWith (holds self.new cell) (free self.new)) }
        ensures layout { layout self.new ≡ layout self.old }
        ensures home { home self.new ≡ home self.old };

    /// Appends those entries of a step of deliveries that what was seen of the cell admits, and a
    /// Mark behind them; nothing where none is admitted. The answer is how many are. Where the append
    /// to the cell's log fails, they stand or they don't, and the turn is given back. The room for looks
    /// stays.
    fn deliver(&mut self, cell: u32, step: Step) -> Result<u64, StepRefusal>
        requires in_range { HasCell (layout self.old) (writer self.old) cell }
        requires holds { holds self.old cell }
        requires allowed { MayDeliver (layout self.old).names (writer self.old).me
            (writer self.old).seen cell step }
        ensures ok { OnOk result (writer self.new ≡ delivered (writer self.old) cell
            (admitted_kinds (history_in (get_or (writer self.old).seen cell [])) (kinds_of step))) }
        ensures count { IfOk result (λ n. n ≡ length
            (admitted_kinds (history_in (get_or (writer self.old).seen cell [])) (kinds_of step))) }
        ensures fits { OnOk result (is_over (layout self.old).limit
            (history_in (get_or (writer self.old).seen cell []))
            (admitted_kinds (history_in (get_or (writer self.old).seen cell [])) (kinds_of step))
            ≡ false) }
        ensures err { IfErr result (IsUnsealed
            (is_over (layout self.old).limit (history_in (get_or (writer self.old).seen cell []))
            (admitted_kinds (history_in (get_or (writer self.old).seen cell [])) (kinds_of step))
            ≡ false)
            (writer self.old) (delivered (writer self.old) cell
            (admitted_kinds (history_in (get_or (writer self.old).seen cell [])) (kinds_of step)))
            cell (length
            (admitted_kinds (history_in (get_or (writer self.old).seen cell [])) (kinds_of step)))
            (writer self.new)) }
        ensures shard_full { IsErrOf result StepRefusal.ShardFull
            → is_over (layout self.old).limit (history_in (get_or (writer self.old).seen cell []))
            (admitted_kinds (history_in (get_or (writer self.old).seen cell [])) (kinds_of step))
            ≡ true }
        ensures room { room self.new ≡ room self.old }
        ensures holds { OnOk result (holds self.new cell) }
        ensures turn { IfErr result (StaysWith (holds self.new cell) (free self.new)) }
        ensures layout { layout self.new ≡ layout self.old }
        ensures home { home self.new ≡ home self.old };

    /// What the topic is bound to in what was seen of the book; none exactly where it isn't bound.
    fn bound(&self, key: &TopicKey) -> Option<&Binding>
        requires { holds self.now (book_cell (layout self.now).names) }
        ensures { option_copied result
            ≡ binding_of key.now (book_seen (layout self.now) (writer self.now)) };

    /// Up to where the topic was delivered, in what was seen of the book; none exactly where it
    /// isn't bound.
    fn checkpoint(&self, key: &TopicKey) -> Option<&Versions>
        requires { holds self.now (book_cell (layout self.now).names) }
        ensures { option_copied result
            ≡ checkpoints key.now (book_seen (layout self.now) (writer self.now)) };

    /// Whether versions that may be stored raise the topic's checkpoint somewhere, in what was seen
    /// of the book.
    fn raises(&self, key: &TopicKey, upto: &Versions) -> bool
        requires holds { holds self.now (book_cell (layout self.now).names) }
        requires delivered { MayStore (layout self.now).names
            (histories_in (layout self.now).names (writer self.now).seen) key.now upto.now }
        ensures { result
            ≡ raises key.now (book_seen (layout self.now) (writer self.now)) upto.now };

    /// Adds the writer's entry right behind what it has seen of the book. Where the append to the
    /// book's log fails, the entry stands or it doesn't, and the turn is given back. The room for looks
    /// stays.
    fn append_entry(&mut self, entry: BookEntry) -> Result<(), EntryRefusal>
        requires holds { holds self.old (book_cell (layout self.old).names) }
        requires allowed { MayAppendEntry (layout self.old).names (writer self.old).me
            (writer self.old).seen entry }
        ensures ok { OnOk result (writer self.new
            ≡ made (writer self.old) (book_cell (layout self.old).names) (payload_of entry ∷ [])) }
        ensures opened { OnOk result (IsOpenTo (book_seen (layout self.old) (writer self.old)) entry) }
        ensures err { IfErr result (IsUnadded
            (IsOpenTo (book_seen (layout self.old) (writer self.old)) entry)
            (book_seen (layout self.old) (writer self.old)) entry
            (writer self.old)
            (made (writer self.old) (book_cell (layout self.old).names) (payload_of entry ∷ []))
            (book_cell (layout self.old).names) (writer self.new)) }
        ensures room { room self.new ≡ room self.old }
        ensures holds { OnOk result (holds self.new (book_cell (layout self.old).names)) }
        ensures turn { IfErr result (StaysWithEntry
            (holds self.new (book_cell (layout self.old).names)) (free self.new)) }
        ensures layout { layout self.new ≡ layout self.old }
        ensures home { home self.new ≡ home self.old };

    /// The looks and steps since the last such call, those of refused calls too. The record begins
    /// anew, and how much room it has then isn't said.
    fn take_record(&mut self) -> Record
        ensures marks { result.marks ≡ (writer self.old).marks }
        ensures own { result.own ≡ (writer self.old).own }
        ensures rest { writer self.new ≡ cleared (writer self.old) }
        ensures layout { layout self.new ≡ layout self.old }
        ensures home { home self.new ≡ home self.old };

    ghost later_self: { (a : Self) → later a a };

    ghost later_on: { (a b c : Self) → later a b → later b c → later a c };
}
