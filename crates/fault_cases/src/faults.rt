// Where a run has a fault.
use std::alloc::Global;
use tuple_values::{Memory, Numbers};

/// The call that fails, of which the number of an end or of a door is told beside it.
#[derive(Clone, Copy, PartialEq, Eq)]
pub enum Kind {
    /// No call fails.
    Nothing,
    /// A read of a client's input.
    Take,
    /// A write of a client's output.
    Put,
    /// A call of `listen` of a door.
    Listen,
    /// A call of `next` of a door.
    Next,
}

/// So many calls that fail, from this one on: of the client or the door with this number. Both are
/// counted from 0.
#[derive(Clone, Copy)]
pub struct Fault {
    pub kind: Kind,
    pub place: usize,
    pub call: u64,
    pub times: u64,
}

/// No call fails.
pub const NONE: Fault = Fault {
    kind: Kind::Nothing,
    place: 0,
    call: 0,
    times: 0,
};

// So many numbers, from this one on.
fn numbers_from(alloc: Global, first: u64, times: u64) -> Result<Numbers, Memory> {
    let mut numbers = Numbers::new(alloc);
    for number in first..first.saturating_add(times) {
        numbers.push(number)?;
    }
    Ok(numbers)
}

/// The calls of this kind that fail at this place.
pub fn failing(alloc: Global, fault: Fault, kind: Kind, place: usize) -> Result<Numbers, Memory> {
    if fault.kind == kind && fault.place == place {
        numbers_from(alloc, fault.call, fault.times)
    } else {
        Ok(Numbers::new(alloc))
    }
}
