// A test of two workers of a parallel, which run side by side.
use crate::running::{Wanted, a_run, is_so};
use crate::samples::{GROUPS, PUT_THREE, TWO_WORKERS};
use handler_tests::joining::{joined, source};
use handler_tests::samples::UPDATED;
use io_edge::{Gate, Point};
use std::alloc::Global;
use std::sync::Wait;
use std::sync::atomic::{AtomicBool, Ordering};
use std::test::Fail;
use std::thread::Threads;
use std::time::Clock as SystemClock;
use tuple_values::Memory;

/// How often the first worker looks for the second one at most.
const TURNS: u64 = 10_000_000;

// Holds the first worker until the second one has started.
#[derive(Drop)]
struct Apart {
    second: AtomicBool,
    lonely: AtomicBool,
}

// Waits for the second worker, for so many turns at most.
fn hold(gate: &Apart) {
    for _ in 0..TURNS {
        if gate.second.load(Ordering::SeqCst) {
            return;
        }
    }
    gate.lonely.store(true, Ordering::SeqCst);
}

impl Gate for Apart {
    fn at(&self, point: Point) {
        match point {
            Point::WorkerStarts { part: 0 } => hold(self),
            Point::WorkerStarts { .. } => self.second.store(true, Ordering::SeqCst),
            Point::WorkerEnds { .. } | Point::BeforeSend | Point::BeforeStore => {}
        }
    }
}

fn is_answered<R: Threads + Wait + SystemClock + Sync>(
    rt: &R,
    alloc: Global,
    gate: &Apart,
) -> Result<bool, Memory> {
    let mut input = source(alloc, joined(alloc, &[PUT_THREE, TWO_WORKERS])?, None)?;
    let ran = a_run(rt, alloc, "script c=2", &mut input, None, gate)?;
    let wanted = Wanted {
        status: 0,
        output: &[UPDATED, GROUPS],
        errors: "",
    };
    Ok(is_so(&ran, wanted))
}

#[test]
fn workers_apart(rt: HostRuntime) -> Result<(), Fail> {
    let gate = Apart {
        second: AtomicBool::new(false),
        lonely: AtomicBool::new(false),
    };
    assert!(rt; is_answered(&rt, rt.alloc(), &gate)?);
    assert!(rt; gate.second.load(Ordering::SeqCst) && !gate.lonely.load(Ordering::SeqCst));
    Ok(())
}
