// What is told of runs of which each has a fault at another place.
use std::alloc::Global;
use tuple_values::Memory;

/// The greatest number of runs of a table.
pub const MOST_RUNS: u64 = 100_000;

/// How a run ended that has a fault.
#[derive(Clone, Copy)]
pub struct Shown {
    /// Its status.
    pub status: u8,
    /// Whether all of it is as it is to be at this fault.
    pub is_so: bool,
    /// How many bytes are written.
    pub written: u64,
}

/// What is told of runs, which are numbered from 0.
#[derive(Drop)]
pub struct Table {
    runs: u64,
    so: u64,
    ended: u64,
    other: Option<u64>,
    written: Option<u64>,
    steps: String,
}

impl Table {
    /// No run.
    pub fn empty(alloc: Global) -> Self {
        Table {
            runs: 0,
            so: 0,
            ended: 0,
            other: None,
            written: None,
            steps: String::new(alloc),
        }
    }

    /// One more run.
    pub fn add(&mut self, alloc: Global, shown: Shown) -> Result<(), Memory> {
        let run = self.runs;
        self.runs = run.saturating_add(1);
        if shown.status == 0 {
            self.ended = self.ended.saturating_add(1);
        }
        self.judge(run, shown.is_so);
        self.step(alloc, run, shown.written)
    }

    // The run is so, or the first that isn't.
    fn judge(&mut self, run: u64, is_so: bool) {
        if is_so {
            self.so = self.so.saturating_add(1);
        } else if self.other.is_none() {
            self.other = Some(run);
        }
    }

    // Tells how many bytes are written from this run on, where the run before wrote another number.
    fn step(&mut self, alloc: Global, run: u64, written: u64) -> Result<(), Memory> {
        if self.written == Some(written) {
            return Ok(());
        }
        self.written = Some(written);
        let step = format!(in alloc; " {written}@{run}")?;
        self.steps.push_str(step.as_str())?;
        Ok(())
    }

    /// How many runs there are, how many ended with 0, how many are so, which is the first that
    /// isn't, and from which run on how many bytes are written.
    pub fn told(&self, alloc: Global) -> Result<String, Memory> {
        let (runs, ended, so) = (self.runs, self.ended, self.so);
        let steps = self.steps.as_str();
        Ok(match self.other {
            Some(run) => {
                format!(in alloc; "runs {runs} ended {ended} so {so} other {run} written{steps}")?
            }
            None => format!(in alloc; "runs {runs} ended {ended} so {so} written{steps}")?,
        })
    }
}
