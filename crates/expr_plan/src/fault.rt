// Why a call stands for no expression.
ghost use Rattle.std.specs.Prelude.{◌≡◌, ◌++◌, IfOk, codes};
ghost use Rattle.std.specs.Fmt.{decimal};
ghost use Rattle.expr_plan.specs.declared.fault.PlanFault.TheVariants.{OutOfMemory};

use std::alloc::{AllocError, Global};
use thiserror::Error;
use tuple_values::{Memory, Text};

/// Why a call stands for no expression: the first fault of the walk from the left to the right.
#[derive(Debug, Drop, Error)]
pub enum PlanFault {
    /// No function has this name.
    #[error("UnknownFunction")]
    UnknownFunction { name: Text },
    /// The function needs this operand, helper or key, and doesn't have it.
    #[error("MissingParam")]
    MissingParam { function: Text, name: Text },
    /// The function has no such parameter, or has it already, or takes no more, or it can't be read,
    /// or it names a field that the function makes.
    #[error("BadParam")]
    BadParam { function: Text, name: Text },
    /// The function takes another number of inputs.
    #[error("WrongInputs")]
    WrongInputs { function: Text, found: u64 },
    /// A text isn't a sort or a list of pairs; no such text begins with more bytes than `at`.
    #[error("BadSort")]
    BadSort { at: u64 },
    /// A text isn't a query; no query begins with more bytes than `at`.
    #[error("BadQuery")]
    BadQuery { at: u64 },
    /// An allocation was refused.
    #[error("out of memory")]
    OutOfMemory,
}

impl From<Memory> for PlanFault {
    ghost from_gives = { λ _ fault. fault ≡ OutOfMemory };

    fn from(_: Memory) -> Self {
        PlanFault::OutOfMemory
    }
}

impl From<AllocError> for PlanFault {
    ghost from_gives = { λ _ fault. fault ≡ OutOfMemory };

    fn from(_: AllocError) -> Self {
        PlanFault::OutOfMemory
    }
}

impl PlanFault {
    ghost use Rattle.expr_plan.specs.Fault.{fault_text};

    /// What a reply says of the fault.
    pub fn text(&self, alloc: Global) -> Result<Text, Memory>
        ensures { IfOk result (λ text. text ≡ fault_text self.now) }
    {
        match self {
            PlanFault::UnknownFunction { name } => one_word(alloc, "UnknownFunction", name),
            PlanFault::MissingParam { function, name } => {
                two_words(alloc, "MissingParam", function, name)
            }
            PlanFault::BadParam { function, name } => two_words(alloc, "BadParam", function, name),
            PlanFault::WrongInputs { function, found } => wrong_inputs(alloc, function, *found),
            PlanFault::BadSort { at } => placed(alloc, "BadSort", *at),
            PlanFault::BadQuery { at } => placed(alloc, "BadQuery", *at),
            PlanFault::OutOfMemory => Text::of(alloc, "out of memory"),
        }
    }
}

fn one_word(alloc: Global, what: &str, name: &Text) -> Result<Text, Memory>
    ensures { IfOk result (λ text. text ≡ what.now ++ codes " " ++ name.now) }
{
    let name = name.as_str();
    Ok(Text::from_string(format!(in alloc; "{what} {name}")?))
}

fn two_words(alloc: Global, what: &str, function: &Text, name: &Text) -> Result<Text, Memory>
    ensures { IfOk result (λ text. text
        ≡ what.now ++ codes " " ++ function.now ++ codes " " ++ name.now) }
{
    let function = function.as_str();
    let name = name.as_str();
    Ok(Text::from_string(format!(in alloc; "{what} {function} {name}")?))
}

fn wrong_inputs(alloc: Global, function: &Text, found: u64) -> Result<Text, Memory>
    ensures { IfOk result (λ text. text
        ≡ codes "WrongInputs " ++ function.now ++ codes " " ++ decimal found) }
{
    let function = function.as_str();
    Ok(Text::from_string(format!(in alloc; "WrongInputs {function} {found}")?))
}

fn placed(alloc: Global, what: &str, at: u64) -> Result<Text, Memory>
    ensures { IfOk result (λ text. text ≡ what.now ++ codes " at " ++ decimal at) }
{
    Ok(Text::from_string(format!(in alloc; "{what} at {at}")?))
}
