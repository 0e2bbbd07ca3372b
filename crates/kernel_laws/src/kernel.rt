// The law of kernels.
ghost use Rattle.std.specs.Prelude.{◌≡◌, ℕ, ◌++◌, [], List, Bool, true, false, length};
ghost use Rattle.std.specs.Prelude.{slice_index_or, slice_set, IfOk, IfErr, IsErr, IsOk, IfSome, IfNone};
ghost use Rattle.tuple_values.specs.Document.{Doc};
ghost use Rattle.kernel_laws.specs.Rests.{Rests, put_front, rest_at};
ghost use Rattle.kernel_laws.specs.Asks.{emitted, wanted, IfEnd};

use crate::Ask;
use tuple_values::{Memory, Tuple};

/// An operator on streams that is fed tuple by tuple. It is asked; where it needs a tuple of an
/// input it is fed that tuple, or none where the input has ended, and is asked again.
///
/// Its output is a function of its state and of the rests, the lists that its inputs still give.
pub trait Kernel: Drop {
    // For each input whether it has ended.
    ghost ended: { Self → List Bool };

    // The next tuple of this input may be fed.
    ghost waits: { Self → ℕ → Type 0 };

    // The rests go on with inputs that are in the order that the kernel asks of them.
    ghost ready: { Self → Rests → Type 0 };

    // What is still to be emitted, where these rests are still to come.
    ghost out: { Self → Rests → List Doc };

    // Nothing is left to be emitted, and the kernel has said so or can.
    ghost over: { Self → Type 0 };

    // Memory was wanting once.
    ghost failed: { Self → Bool };

    // To ask takes no memory.
    ghost lean: { Bool };

    /// How many inputs there are.
    fn inputs(&self) -> u32
        ensures { result ≡ length (ended self.now) };

    /// What comes next. After `End` it is `End` again, and after a want of memory that.
    fn ask(&mut self) -> Result<Ask, Memory>
        // A tuple comes off the front of the output, and nothing else changes it.
        ensures out { IfOk result (λ answer. (rests : Rests) → ready self.old rests
            → out self.old rests ≡ emitted answer ++ out self.new rests) }
        ensures ready { IfOk result (λ answer. (rests : Rests) → ready self.old rests
            → ready self.new rests) }

        // It ends only where nothing is left.
        ensures end { IfOk result (λ answer. IfEnd answer ((rests : Rests) → ready self.old rests
            → out self.new rests ≡ [])) }
        ensures at_end { IfOk result (λ answer. IfEnd answer (over self.new)) }
        ensures over { over self.old → result ≡ Ok Ask.End }

        // It needs an input that hasn't ended, and waits for it.
        ensures need { IfOk result (λ answer. IfSome (wanted answer)
            (λ i. (slice_index_or (ended self.new) i true ≡ false) × waits self.new i)) }
        ensures ended { IfOk result (λ answer. ended self.new ≡ ended self.old) }

        // Only an `Err` sets `failed`.
        ensures fails { IfErr result (λ _. failed self.new ≡ true) }
        ensures lives { IfOk result (λ _. failed self.new ≡ failed self.old) }
        ensures failed { failed self.old ≡ true → IsErr result }
        ensures lean { lean ≡ true → failed self.old ≡ false → IsOk result };

    /// Takes the next tuple of an input that it needs, or that the input has ended. After an `Err`
    /// the tuple is dropped.
    fn feed(&mut self, input: u32, tuple: Option<Tuple>) -> Result<(), Memory>
        requires open { slice_index_or (ended self.old) input true ≡ false }
        requires waits { waits self.old input }

        // The output is what it was with the tuple in front of the input's rest.
        ensures out { IfOk result (λ _. IfSome tuple (λ t. (rests : Rests)
            → ready self.old (put_front input t rests)
            → out self.new rests ≡ out self.old (put_front input t rests))) }
        ensures ready { IfOk result (λ _. IfSome tuple (λ t. (rests : Rests)
            → ready self.old (put_front input t rests) → ready self.new rests)) }
        ensures open { IfOk result (λ _. IfSome tuple (λ t. ended self.new ≡ ended self.old)) }

        // Where the input has ended the output stays, and the end is kept.
        ensures out_at_end { IfOk result (λ _. IfNone tuple ((rests : Rests)
            → rest_at input rests ≡ [] → ready self.old rests
            → out self.new rests ≡ out self.old rests)) }
        ensures ready_at_end { IfOk result (λ _. IfNone tuple ((rests : Rests)
            → rest_at input rests ≡ [] → ready self.old rests → ready self.new rests)) }
        ensures ended { IfOk result (λ _. IfNone tuple
            (ended self.new ≡ slice_set (ended self.old) input true)) }

        // Only an `Err` sets `failed`.
        ensures fails { IfErr result (λ _. failed self.new ≡ true) }
        ensures lives { IfOk result (λ _. failed self.new ≡ failed self.old) }
        ensures failed { failed self.old ≡ true → IsErr result };
}
