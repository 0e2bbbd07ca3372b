// Where connections come from.
ghost use Rattle.std.specs.Prelude.{ℕ, ◌≡◌, Option};
ghost use Rattle.server_edge.specs.Doors.{ListenHasCause, NextGives, NextHasCause, Row, TakesBack};

use io_edge::{Sink, Source};

/// What a door answered that is to listen.
#[derive(Clone, Copy, Debug, PartialEq, Eq)]
pub enum Listen {
    Ready,
    /// The outside failed, and both counts rose.
    Failed,
}

/// What a door answered that is to give a connection.
#[derive(Drop)]
pub enum Next<I, O> {
    /// The two ends of one.
    Got { input: I, output: O },
    /// None will come.
    Closed,
    /// The outside failed, and the count of faults rose.
    Failed,
}

/// The ends of a connection that was served, and a note on it.
#[derive(Drop)]
pub struct Back<I, O, N> {
    pub input: I,
    pub output: O,
    pub note: N,
}

/// Where connections come from, one after another, and where their ends go back to.
pub trait Door: Drop + Send {
    /// Where the bytes of a connection come from.
    type In: Source + Send;

    /// Where the bytes of its replies go.
    type Out: Sink + Send;

    /// A note on a connection that was served.
    type Note: Drop + Send;

    /// The connections that are left and those that came back, where the door tells them. A door
    /// that doesn't tell never does.
    ghost told: { Self → Option (Row Self.In Self.Out Self.Note) };

    /// How often the outside has failed, as a count of 64 bits that stays at its end.
    ghost faults: { Self → ℕ };

    /// How often it failed to listen, as such a count.
    ghost deaf: { Self → ℕ };

    /// Listens at a port. What is left and what came back stay.
    fn listen(&mut self, port: u16) -> Listen
        ensures row { told self.new ≡ told self.old }
        ensures cause { ListenHasCause (faults self.old) (faults self.new) (deaf self.old)
            (deaf self.new) result };

    /// The next connection. After `Failed` the same ones are left, and after `Closed` none are.
    fn next(&mut self) -> Next<Self::In, Self::Out>
        ensures gives { NextGives (told self.old) (told self.new) result }
        ensures cause { NextHasCause (faults self.old) (faults self.new) result }
        ensures deaf { deaf self.new ≡ deaf self.old };

    /// Takes the ends of a connection back, and a note on it. They follow those that came back
    /// before, where those are fewer than the connections that the door has and has had.
    fn back(&mut self, input: Self::In, output: Self::Out, note: Self::Note)
        ensures row { TakesBack (told self.old) (told self.new) input output note }
        ensures faults { faults self.new ≡ faults self.old }
        ensures deaf { deaf self.new ≡ deaf self.old };
}
