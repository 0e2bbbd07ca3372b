// Tests of a load: that its threads are at work at once, and what its summary is.
use io_edge::{Gate, NoGate, Point};
use load_mix::run_load;
use load_rules::summary_text;
use server_edge::NoClock;
use std::alloc::Global;
use std::sync::Wait;
use std::sync::atomic::{AtomicBool, AtomicU64, Ordering};
use std::test::Fail;
use std::thread::{Threads, yield_now};
use tuple_values::Memory;

// How many turns the first to store waits for the second.
const TURNS: u64 = 10_000_000;

// Counts those that come to a store, of which the first two wait for each other, and the workers of
// queries.
#[derive(Drop)]
struct Together {
    came: AtomicU64,
    lonely: AtomicBool,
    workers: AtomicU64,
}

// Waits until two have come.
fn hold(gate: &Together) {
    gate.came.fetch_add(1, Ordering::SeqCst);
    for _ in 0..TURNS {
        if gate.came.load(Ordering::SeqCst) >= 2 {
            return;
        }
        yield_now();
    }
    gate.lonely.store(true, Ordering::SeqCst);
}

impl Gate for Together {
    fn at(&self, point: Point) {
        match point {
            Point::BeforeStore => hold(self),
            Point::WorkerStarts { .. } => {
                self.workers.fetch_add(1, Ordering::SeqCst);
            }
            Point::WorkerEnds { .. } | Point::BeforeSend => {}
        }
    }
}

// Whether the summary of a load of so many documents is this.
fn is_summed<R: Threads + Wait + Sync, G: Gate>(
    rt: &R,
    alloc: Global,
    n: u64,
    summary: &str,
    gate: &G,
) -> Result<bool, Memory> {
    let histories = run_load(rt, alloc, n, &NoClock, gate)?;
    let text = summary_text(alloc, &histories)?;
    Ok(text.as_slice() == summary.as_bytes())
}

// The documents 0, 2, 4 and 7 have the amounts 0, 226, 452 and 143.
const EIGHT: &str = "src docs=8 writes=12\ndest docs=4 sum_a=821 sum_rev=3\n";

#[test]
fn load_apart(rt: HostRuntime) -> Result<(), Fail> {
    let gate = Together {
        came: AtomicU64::new(0),
        lonely: AtomicBool::new(false),
        workers: AtomicU64::new(0),
    };
    assert!(rt; is_summed(&rt, rt.alloc(), 8, EIGHT, &gate)?);
    assert!(rt; !gate.lonely.load(Ordering::SeqCst));
    assert!(rt; gate.workers.load(Ordering::SeqCst) == 32);
    Ok(())
}

// As a program by hand has it, with a lock round each shard.
const TWO_THOUSAND: &str = "src docs=2000 writes=3000\ndest docs=1001 sum_a=249835 sum_rev=500\n";

#[test]
fn two_loads_have_one_summary(rt: HostRuntime) -> Result<(), Fail> {
    assert!(rt; is_summed(&rt, rt.alloc(), 2_000, TWO_THOUSAND, &NoGate)?);
    assert!(rt; is_summed(&rt, rt.alloc(), 2_000, TWO_THOUSAND, &NoGate)?);
    Ok(())
}

#[test]
fn no_document_is_summed(rt: HostRuntime) -> Result<(), Fail> {
    let none = "src docs=0 writes=0\ndest docs=0 sum_a=0 sum_rev=0\n";
    assert!(rt; is_summed(&rt, rt.alloc(), 0, none, &NoGate)?);
    Ok(())
}
