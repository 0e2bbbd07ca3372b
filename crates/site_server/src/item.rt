// What one thread of a server does.
ghost use Rattle.std.specs.Prelude.{◌≡◌};
ghost use Rattle.running_site.specs.Passes.{number_of};
ghost use Rattle.running_site.specs.Sites.{IsPassAt};
ghost use Rattle.site_server.specs.Doors.{doors};
ghost use Rattle.site_server.specs.Items.{IsItemAt, IsItemServed};

use daemon_board::{Board, SharedBoard};
use io_edge::Gate;
use pass_calls::{DoorRun, run_door, run_due};
use running_site::{Pass, Site};
use server_edge::{Clock, Door};
use std::alloc::Global;
use std::sync::atomic::{AtomicU64, Ordering};
use std::sync::{Mutex, Wait};
use std::thread::{Threads, sleep};
use std::time::{Clock as SystemClock, Duration};
use stream_handler::SessionEnd;

/// What one thread of a server does. A worker has a door, and how its serving went once it is over;
/// a runner has none.
#[derive(Drop)]
pub struct ItemOf<L, P> {
    pub door: Option<L>,
    pub pass: P,
    pub run: Option<DoorRun>,
}

/// The same with a pass of a site.
pub type Item<L> = ItemOf<L, Pass>;

/// How many milliseconds a runner rests where no daemon is due.
const REST: u64 = 10;

// Runs the daemons that are due until no worker works.
fn run_daemons<R: Threads + Wait + SystemClock + Sync, C: Clock, G: Gate>(
    rt: &R,
    alloc: Global,
    site: &Site,
    pass: &mut Pass,
    board: &Mutex<Board>,
    clock: &C,
    gate: &G,
    working: &AtomicU64,
)
    requires { IsPassAt site.now pass.old }
    ensures own { IsPassAt site.now pass.new }
    ensures number { number_of pass.new ≡ number_of pass.old }
{
    let mut board = SharedBoard::over(rt, board);
    for _ in rt.forever() {
        if working.load(Ordering::SeqCst) == 0 {
            break;
        }
        if !run_due(rt, alloc, site, pass, &mut board, clock, gate) {
            sleep(rt, Duration::from_millis(REST));
        }
    }
}

/// Carries an item out: a worker serves its door and then works no more, and a runner runs the
/// daemons that are due until no worker works.
pub(crate) fn serve_item<
    L: Door<Note = SessionEnd>,
    R: Threads + Wait + SystemClock + Sync,
    C: Clock,
    G: Gate,
>(
    rt: &R,
    alloc: Global,
    site: &Site,
    board: &Mutex<Board>,
    item: &mut Item<L>,
    port: u16,
    clock: &C,
    gate: &G,
    working: &AtomicU64,
)
    requires { IsItemAt site.now item.old }
    ensures { IsItemServed (doors L.told L.faults L.deaf L.In.left L.In.faults L.Out.written
        L.Out.faults) (C.tells clock.now) site.now item.old item.new }
{
    let pass = &mut item.pass;
    match &mut item.door {
        Some(door) => {
            let mut held = SharedBoard::over(rt, board);
            let run = run_door(rt, alloc, site, pass, &mut held, door, port, clock, gate);
            item.run = Some(run);
            working.fetch_sub(1, Ordering::SeqCst);
        }
        None => run_daemons(rt, alloc, site, pass, board, clock, gate, working),
    }
}
