// Where bytes come from.
ghost use Rattle.std.specs.Prelude.{ℕ, List, Option, ◌<◌, length};
ghost use Rattle.io_edge.specs.Edge.{TakeGives, TakeHasCause};

/// What a source answered.
#[derive(Clone, Copy, Debug, PartialEq, Eq)]
pub enum Taken {
    /// So many bytes, at least one, stand at the front of the room.
    Got(usize),
    /// No byte will come.
    Ended,
    /// The outside failed, and the count of faults rose.
    Failed,
}

/// A stream of bytes that comes in pieces.
pub trait Source: Drop {
    /// The bytes that are left, where the source tells them. A source that doesn't tell never does.
    ghost left: { Self → Option (List ℕ) };

    /// How often the outside has failed, as a count of 64 bits that stays at its end.
    ghost faults: { Self → ℕ };

    /// Puts the next bytes at the front of the room. What stands behind them there is left open.
    /// After `Failed` the same bytes are left, and after `Ended` none are.
    fn take(&mut self, room: &mut [u8]) -> Taken
        requires { 0 < length room.old }
        ensures gives { TakeGives (left self.old) (left self.new) room.new result }
        ensures cause { TakeHasCause (faults self.old) (faults self.new) result };
}
