// Points at which a test may hold a thread.

/// Where a run has come.
#[derive(Clone, Copy, PartialEq, Eq)]
pub enum Point {
    /// A worker begins its part, counted from 0.
    WorkerStarts { part: u16 },
    /// A worker has ended its part, counted from 0.
    WorkerEnds { part: u16 },
    /// A batch is about to be sent.
    BeforeSend,
    /// A checkpoint is about to be stored.
    BeforeStore,
}

/// What is told where a run has come. It changes nothing of what the run does.
pub trait Gate: Sync {
    fn at(&self, point: Point);
}

/// The gate of the program, which does nothing.
#[derive(Clone, Copy)]
pub struct NoGate;

impl Gate for NoGate {
    fn at(&self, _point: Point) {}
}
