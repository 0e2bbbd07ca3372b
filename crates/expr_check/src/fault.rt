// Why an expression may not be evaluated.
ghost use Rattle.std.specs.Prelude.{◌≡◌, ◌++◌, IfOk, codes};
ghost use Rattle.expr_check.specs.declared.fault.CheckFault.TheVariants.{OutOfMemory};

use std::alloc::{AllocError, Global};
use thiserror::Error;
use tuple_values::{Memory, Text};

/// Why an expression may not be evaluated: the first fault of the walk, a call before its inputs,
/// inputs from the left to the right.
#[derive(Debug, Drop, Error)]
pub enum CheckFault {
    /// The function may not stand where it does.
    #[error("BadPlace")]
    BadPlace {
        function: Text,
    },
    /// There is no collection of this name.
    #[error("UnknownCollection")]
    UnknownCollection {
        name: Text,
    },
    /// The collection would be updated from a topic of itself.
    #[error("UpdateOfItself")]
    UpdateOfItself {
        collection: Text,
    },
    /// A search's sort has this field, which isn't in `fl`.
    #[error("SortFieldNotInFl")]
    SortFieldNotInFl {
        field: Text,
    },
    /// The function needs another order of an input.
    #[error("NotSorted")]
    NotSorted {
        function: Text,
        needed: Text,
        has: Text,
    },
    /// The function has no partition keys, and stands in a parallel; or it is a parallel whose sort
    /// doesn't hold those of its input.
    #[error("NotPartitioned")]
    NotPartitioned {
        function: Text,
    },
    /// An allocation was refused.
    #[error("out of memory")]
    OutOfMemory,
}

impl From<Memory> for CheckFault {
    ghost from_gives = { λ _ fault. fault ≡ OutOfMemory };

    fn from(_: Memory) -> Self {
        CheckFault::OutOfMemory
    }
}

impl From<AllocError> for CheckFault {
    ghost from_gives = { λ _ fault. fault ≡ OutOfMemory };

    fn from(_: AllocError) -> Self {
        CheckFault::OutOfMemory
    }
}

impl CheckFault {
    ghost use Rattle.expr_check.specs.Faults.{fault_text};

    /// What a reply says of the fault.
    pub fn text(&self, alloc: Global) -> Result<Text, Memory>
        ensures { IfOk result (λ text. text ≡ fault_text self.now) }
    {
        match self {
            CheckFault::BadPlace { function } => one_word(alloc, "BadPlace", function),
            CheckFault::UnknownCollection { name } => one_word(alloc, "UnknownCollection", name),
            CheckFault::UpdateOfItself { collection } => {
                one_word(alloc, "UpdateOfItself", collection)
            }
            CheckFault::SortFieldNotInFl { field } => one_word(alloc, "SortFieldNotInFl", field),
            CheckFault::NotSorted {
                function,
                needed,
                has,
            } => not_sorted(alloc, function, needed, has),
            CheckFault::NotPartitioned { function } => one_word(alloc, "NotPartitioned", function),
            CheckFault::OutOfMemory => Text::of(alloc, "out of memory"),
        }
    }
}

fn one_word(alloc: Global, what: &str, name: &Text) -> Result<Text, Memory>
    ensures { IfOk result (λ text. text ≡ what.now ++ codes " " ++ name.now) }
{
    let name = name.as_str();
    Ok(Text::from_string(format!(in alloc; "{what} {name}")?))
}

fn not_sorted(alloc: Global, function: &Text, needed: &Text, has: &Text) -> Result<Text, Memory>
    ensures { IfOk result (λ text. text ≡ codes "NotSorted " ++ function.now
        ++ codes " needs " ++ needed.now ++ codes " has " ++ has.now) }
{
    let function = function.as_str();
    let needed = needed.as_str();
    let has = has.as_str();
    Ok(Text::from_string(format!(in alloc; "NotSorted {function} needs {needed} has {has}")?))
}
