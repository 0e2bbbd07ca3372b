// Clocks: that of a script, one in memory, and the system's.
ghost use Rattle.std.specs.Prelude.{◌≡◌};

use crate::Clock;
use std::sync::atomic::{AtomicU64, Ordering};
use std::time::Clock as SystemClock;
use tuple_values::Numbers;

/// The clock of a script, at which it is always 0.
#[derive(Clone, Copy)]
pub struct NoClock;

impl Clock for NoClock {
    ghost use Rattle.std.specs.Prelude.{◌≡◌};

    ghost tells = { λ _ n. n ≡ 0 };

    fn now_ms(&self) -> u64 {
        0
    }
}

/// A clock in memory: each call tells the next number of a list, and those behind its end the last
/// one, or 0 where it has none.
#[derive(Drop)]
pub struct MemoryClock {
    numbers: Numbers,
    next: AtomicU64,
}

impl MemoryClock {
    /// The clock before its first call.
    pub fn new(numbers: Numbers) -> MemoryClock {
        MemoryClock {
            numbers,
            next: AtomicU64::new(0),
        }
    }
}

impl Clock for MemoryClock {
    ghost tells = { λ _ _. Unit {0} };

    fn now_ms(&self) -> u64 {
        let at = self.next.fetch_add(1, Ordering::SeqCst) as usize;
        match self.numbers.as_slice().get(at) {
            Some(now) => *now,
            None => self.numbers.as_slice().last().copied().unwrap_or(0),
        }
    }
}

/// The system's steady clock, and 0 where it can't be read.
#[derive(Drop)]
pub struct SteadyClock<'a, R> {
    rt: &'a R,
}

impl<'a, R> SteadyClock<'a, R> {
    /// The clock of this runtime.
    pub fn new(rt: &'a R) -> Self {
        SteadyClock { rt }
    }
}

impl<R: SystemClock + Sync> Clock for SteadyClock<'_, R> {
    ghost tells = { λ _ _. Unit {0} };

    fn now_ms(&self) -> u64 {
        match self.rt.monotonic() {
            Ok(since) => u64::try_from(since.as_millis()).unwrap_or(u64::MAX),
            Err(_) => 0,
        }
    }
}
