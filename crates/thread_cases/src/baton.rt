// Where workers that take turns have come.
use io_edge::{Gate, Point};
use std::sync::atomic::{AtomicU64, Ordering};
use std::thread::yield_now;

/// How often a worker looks whether another has come so far at most.
const LOOKS: u64 = 10_000_000;

/// How far the workers have come together: 1 where a document was put, 2 where it was read to be
/// delivered, and 3 where a later version was delivered.
#[derive(Drop)]
pub struct Baton {
    reached: AtomicU64,
}

impl Baton {
    /// Nothing was done.
    pub fn new() -> Baton {
        Baton {
            reached: AtomicU64::new(0),
        }
    }

    /// So much is done.
    pub fn reach(&self, point: u64) {
        self.reached.store(point, Ordering::SeqCst);
    }

    /// Waits until so much is done, for a number of looks.
    pub fn wait(&self, point: u64) {
        for _ in 0..LOOKS {
            if self.reached.load(Ordering::SeqCst) >= point {
                return;
            }
            yield_now();
        }
    }
}

impl Gate for Baton {
    fn at(&self, point: Point) {
        match point {
            Point::BeforeSend => {
                self.reach(2);
                self.wait(3);
            }
            Point::BeforeStore | Point::WorkerStarts { .. } | Point::WorkerEnds { .. } => {}
        }
    }
}
