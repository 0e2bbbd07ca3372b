// Where bytes go.
ghost use Rattle.std.specs.Prelude.{ℕ, List, Option};
ghost use Rattle.io_edge.specs.Edge.{PutGives, PutHasCause};

/// What a sink answered.
#[derive(Clone, Copy, Debug, PartialEq, Eq)]
pub enum Put {
    /// The whole piece is written.
    All,
    /// The outside failed, and the count of faults rose.
    Failed,
}

/// A stream of bytes that is written piece by piece.
pub trait Sink: Drop {
    /// The bytes that are written, where the sink tells them. A sink that doesn't tell never does.
    ghost written: { Self → Option (List ℕ) };

    /// How often the outside has failed, as a count of 64 bits that stays at its end.
    ghost faults: { Self → ℕ };

    /// Writes the piece behind what is written. After `Failed` a prefix of the piece is.
    fn put(&mut self, piece: &[u8]) -> Put
        ensures gives { PutGives (written self.old) (written self.new) piece.now result }
        ensures cause { PutHasCause (faults self.old) (faults self.new) result };
}
