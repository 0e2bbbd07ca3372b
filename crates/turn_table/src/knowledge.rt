// What passes and seats know. No value of these types is made: a seat keeps them as ghosts.
use std::collections::LinkedList;

/// What one pass knows. Each list has a place for each cell.
pub struct Known<A, E> {
    /// What is fixed of each cell.
    pub about: LinkedList<A>,
    /// The histories with which the table started.
    pub start: LinkedList<LinkedList<E>>,
    /// The numbers of all passes of the table.
    pub numbers: LinkedList<u64>,
    /// The number that no other pass of the table has.
    pub number: u64,
    /// The beginning of the cell's history that the pass has seen.
    pub seen: LinkedList<LinkedList<E>>,
    /// The cell's history, where the pass holds its turn.
    pub hand: LinkedList<Option<LinkedList<E>>>,
    /// How often the pass found the turn of the cell taken.
    pub met: LinkedList<u64>,
    /// How often the pass looked at the cell.
    pub looks: LinkedList<u64>,
    /// What the pass had seen of all cells at its last look at this one.
    pub asof: LinkedList<LinkedList<LinkedList<E>>>,
    /// How often the pass found the cell shut.
    pub barred: LinkedList<u64>,
    /// How often the pass raised the cell's fault word, or found it at its end.
    pub broke: LinkedList<u64>,
}

/// What a seat knows: the passes that it has. At the start the first seat has all of them.
pub struct View<A, E> {
    /// Whether it has a pass.
    pub used: bool,
    /// Its first pass.
    pub pass: Known<A, E>,
    /// The others.
    pub more: LinkedList<Known<A, E>>,
    /// The fault words of the cells whose turns its one pass holds, at the places of these cells.
    pub faults: LinkedList<u64>,
}
