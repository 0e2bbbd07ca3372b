// What time it is.
ghost use Rattle.std.specs.Prelude.{ℕ};
ghost use Rattle.server_edge.specs.Clocks.{Took};

/// A clock, in milliseconds from a moment of its own. It can't fail, and of what it tells only that is
/// known which it says itself.
pub trait Clock: Sync {
    /// What it may tell.
    ghost tells: { Self → ℕ → Type 0 };

    /// The time now.
    fn now_ms(&self) -> u64
        ensures { tells self.now result };
}

/// How many milliseconds went by since a time that the clock told, and 0 where it tells an earlier one.
pub fn since<C: Clock>(clock: &C, start: u64) -> u64
    requires { C.tells clock.now start }
    ensures { Took (C.tells clock.now) start result }
{
    clock.now_ms().saturating_sub(start)
}
