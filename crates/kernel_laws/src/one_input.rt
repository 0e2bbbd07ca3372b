// The one input of a kernel.
ghost use Rattle.std.specs.Prelude.{◌≡◌, ◌++◌, ◌∷◌, [], true, false, IfOk, IfErr};
ghost use Rattle.kernel_laws.specs.OneInput.{answer_of};

use crate::Ask;
use tuple_values::{Memory, Tuple};

/// What a kernel of one input keeps of it beside its own tuples: whether it has ended, and whether
/// memory was wanting.
#[derive(Drop)]
pub struct OneInput {
    ended: bool,
    failed: bool,
}

impl OneInput {
    /// An input that hasn't ended.
    pub fn open() -> OneInput
        ensures { result ≡ record { ended = false; failed = false } }
    {
        OneInput {
            ended: false,
            failed: false,
        }
    }

    /// Whether it has ended.
    pub fn has_ended(&self) -> bool
        ensures { result ≡ self.now.ended }
    {
        self.ended
    }

    /// An `Err` where memory was wanting.
    pub fn lives(&self) -> Result<(), Memory>
        ensures ok { IfOk result (λ _. self.now.failed ≡ false) }
        ensures err { IfErr result (λ _. self.now.failed ≡ true) }
    {
        if self.failed {
            return Err(Memory::OutOfMemory);
        }
        Ok(())
    }

    /// What the kernel answers where this is the next tuple of its output, if that is known.
    pub fn answer(&self, next: Option<Tuple>) -> Result<Ask, Memory>
        ensures { result ≡ answer_of self.now next }
    {
        if self.failed {
            return Err(Memory::OutOfMemory);
        }
        match next {
            Some(tuple) => Ok(Ask::Emit(tuple)),
            None => {
                if self.ended {
                    Ok(Ask::End)
                } else {
                    Ok(Ask::Need(0))
                }
            }
        }
    }

    /// Passes on what was made. Where memory was wanting for it, that is kept.
    pub fn keep<T: Drop>(&mut self, made: Result<T, Memory>) -> Result<T, Memory>
        ensures same { result ≡ made }
        ensures ok { IfOk made (λ _. self.new ≡ self.old) }
        ensures err { IfErr made (λ _. self.new ≡ record self.old { failed = true }) }
    {
        if made.is_err() {
            self.failed = true;
        }
        made
    }

    /// Adds a tuple to those that the kernel holds. Where memory was wanting for it, that is kept.
    pub fn push(&mut self, held: &mut Vec<Tuple>, tuple: Tuple) -> Result<(), Memory>
        ensures held { IfOk result (λ _. held.new.items ≡ held.old.items ++ tuple ∷ []) }
        ensures ok { IfOk result (λ _. self.new ≡ self.old) }
        ensures err { IfErr result (λ _. self.new ≡ record self.old { failed = true }) }
    {
        if held.push(tuple).is_err() {
            self.failed = true;
            return Err(Memory::OutOfMemory);
        }
        Ok(())
    }

    /// The input has ended.
    pub fn end(&mut self)
        ensures { self.new ≡ record self.old { ended = true } }
    {
        self.ended = true;
    }
}
