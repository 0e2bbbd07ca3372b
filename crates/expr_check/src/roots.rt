// Where a call stands in an expression.

/// Which functions an expression may hold.
#[derive(Clone, Copy, PartialEq, Eq)]
pub enum Roots {
    /// Those that only read documents.
    Plain,
    /// Those that follow a topic or change a collection, too.
    All,
}

/// The call round another one, as far as it says which calls may stand in it.
#[derive(Clone, Copy)]
pub(crate) enum Round {
    /// There is none: the other one is the root.
    Nothing,
    Update,
    Commit,
    Daemon,
    /// A call of any other function.
    Other,
}

/// Where a call stands.
#[derive(Clone, Copy)]
pub(crate) struct Place {
    /// The call round it.
    pub(crate) round: Round,
    /// Whether it stands in a parallel, however deep.
    pub(crate) in_parallel: bool,
}
