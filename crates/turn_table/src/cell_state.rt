// What a cell's value means, and the law over all cells.
ghost use Rattle.std.specs.Prelude.{ℕ, ◌≡◌, ◌<◌, ◌≤◌, ◌⊎◌, Bool, false, true, List, ◌++◌, All, length, IfErr, IfOk, OnErr, OnOk};
ghost use Rattle.io_edge.specs.Edge.{Rose};
ghost use Rattle.turn_table.specs.Histories.{at, with_more, ArePrefixes};

/// The value of a cell. It has a history, which only grows, and a law is over the histories of
/// all cells.
pub trait CellState: Drop {
    /// What is fixed of a cell.
    type About;
    /// What a history is a list of.
    type Entry;
    /// What is appended at once.
    type Sealing;
    /// What is told where room was made, as whether the cell's log failed and stands again. It
    /// is `()` where a cell has no log.
    type Made;
    /// Why there is no room.
    type Refusal;

    // What is fixed of this cell. The law is told it of each cell.
    ghost about: { Self → Self.About };

    ghost history: { Self → List Self.Entry };

    // When room may be asked for.
    ghost can_reserve: { Self → Self.Sealing → Type 0 };

    // There is room for this sealing under this number.
    ghost room: { Self → ℕ → Self.Sealing → Type 0 };

    // What is known of the value where room was made.
    ghost takes: { Self → Self.Sealing → Type 0 };

    // What is known of the value where none was made, for this reason.
    ghost refuses: { Self → Self.Sealing → Self.Refusal → Type 0 };

    // The number of the pass that made the entry.
    ghost writer: { Self.Entry → ℕ };

    // What a sealing appends under a number.
    ghost entries: { ℕ → Self.Sealing → List Self.Entry };

    // The law over the histories of all cells.
    ghost law: { List Self.About → List (List Self.Entry) → Type 0 };

    // The pass with this number may append this sealing to this cell, by what it has seen.
    ghost allows: { List Self.About → ℕ → List (List Self.Entry) → ℕ → Self.Sealing → Type 0 };

    // What a look at this cell tells: of what was seen by then, and of the histories from then on.
    ghost tells: { List Self.About → ℕ → List (List Self.Entry) → List (List Self.Entry)
        → Type 0 };

    // The history of the cell's log is the cell's, and the log waits for nothing. It is always so
    // where the cell has no log.
    ghost settled: { Self → Type 0 };

    // The cell's log is shut for good.
    ghost is_shut: { Self → Bool };

    // How often the disk of the cell's log has failed, and 0 where it has none.
    ghost fault_count: { Self → ℕ };

    // Room was made, and the log has the sealing's entries, though it failed.
    ghost broke: { Self.Made → Bool };

    // The reason is that the log failed.
    ghost log_failed: { Self.Refusal → Bool };

    /// Makes room for the entries of a sealing, and puts them into the cell's log where it has
    /// one. Where it makes none and no log failed, the room stays too.
    fn reserve(&mut self, by: u64, sealing: &Self::Sealing) -> Result<Self::Made, Self::Refusal>
        requires can { can_reserve self.old sealing.now }
        requires settled { settled self.old }
        requires sound { is_shut self.old ≡ false }
        ensures about { about self.new ≡ about self.old }
        ensures history { history self.new ≡ history self.old }
        ensures room { OnOk result (room self.new by sealing.now) }
        ensures takes { OnOk result (takes self.old sealing.now) }
        ensures settled { OnErr result (settled self.new ⊎ (is_shut self.new ≡ true)) }
        ensures sound { OnOk result (is_shut self.new ≡ false) }
        ensures later { fault_count self.old ≤ fault_count self.new }
        ensures broke { IfOk result (λ made. broke made ≡ true
            → Rose (fault_count self.old) (fault_count self.new)) }
        ensures failed { IfErr result (λ refusal. log_failed refusal ≡ true
            → Rose (fault_count self.old) (fault_count self.new)) }
        ensures err { IfErr result (λ refusal. log_failed refusal ≡ false
            → self.new ≡ self.old) }
        ensures cause { IfErr result (λ refusal. refuses self.old sealing.now refusal) };

    /// Appends the entries of a sealing that has room. Takes no memory.
    fn append(&mut self, by: u64, sealing: Self::Sealing)
        requires { room self.old by sealing }
        ensures about { about self.new ≡ about self.old }
        ensures history { history self.new ≡ history self.old ++ entries by sealing }
        ensures settled { settled self.new }
        ensures sound { is_shut self.new ≡ false }
        ensures faults { fault_count self.new ≡ fault_count self.old };

    /// How many entries the history has.
    fn len(&self) -> u64
        ensures { result ≡ length (history self.now) };

    /// Whether the cell's log is shut for good.
    fn shut(&self) -> bool
        ensures { result ≡ is_shut self.now };

    /// How often the disk of the cell's log has failed.
    fn faults(&self) -> u64
        ensures { result ≡ fault_count self.now };

    // An allowed sealing keeps the law, where the cell was seen whole and the others in part.
    ghost keeps: { (abouts : List Self.About) (by : ℕ) (histories seen : List (List Self.Entry))
        (cell : ℕ) (sealing : Self.Sealing) → law abouts histories → ArePrefixes seen histories
        → cell < length histories → at seen cell ≡ at histories cell
        → allows abouts by seen cell sealing
        → law abouts (with_more histories cell (entries by sealing)) };

    // What a look tells is true at that look.
    ghost looks: { (abouts : List Self.About) (histories seen : List (List Self.Entry))
        (cell : ℕ) → law abouts histories → ArePrefixes seen histories
        → cell < length histories → at seen cell ≡ at histories cell
        → tells abouts cell seen histories };

    // It stays true as the histories grow and keep the law.
    ghost lasts: { (abouts : List Self.About) (cell : ℕ)
        (seen histories later : List (List Self.Entry)) → tells abouts cell seen histories
        → ArePrefixes histories later → law abouts later → tells abouts cell seen later };

    // What a pass may append carries its number.
    ghost signed: { (abouts : List Self.About) (by : ℕ) (seen : List (List Self.Entry))
        (cell : ℕ) (sealing : Self.Sealing) → allows abouts by seen cell sealing
        → All (λ entry. writer entry ≡ by) (entries by sealing) };
}
