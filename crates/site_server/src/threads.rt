// The items of a server, each carried out in a thread of its own.
ghost use Rattle.std.specs.Prelude.{◌≡◌, ◌<◌, ℕ, All, length, slice_index_or};
ghost use Rattle.site_server.specs.Doors.{doors};
ghost use Rattle.site_server.specs.Items.{Item, IsItemAt, IsItemServed};

use crate::item::{Item, ItemOf, serve_item};
use daemon_board::Board;
use io_edge::Gate;
use running_site::Site;
use server_edge::{Clock, Door};
use std::alloc::Global;
use std::sync::atomic::AtomicU64;
use std::sync::{Mutex, Wait};
use std::thread::{Threads, for_each_mut};
use std::time::Clock as SystemClock;
use stream_handler::SessionEnd;

// How many of the items have a door.
fn workers_in<L, P>(items: &[ItemOf<L, P>]) -> u64 {
    let mut count: u64 = 0;
    for item in items {
        if item.door.is_some() {
            count = count.saturating_add(1);
        }
    }
    count
}

/// Carries each item out, in a thread of its own where one can be made, the first ones first. The
/// runners end once all workers have.
pub fn serve_items<
    L: Door<Note = SessionEnd>,
    R: Threads + Wait + SystemClock + Sync,
    C: Clock,
    G: Gate,
>(
    rt: &R,
    alloc: Global,
    site: &Site,
    board: &Mutex<Board>,
    items: &mut [Item<L>],
    port: u16,
    clock: &C,
    gate: &G,
)
    requires { All (IsItemAt site.now) items.old }
    ensures count { length items.new ≡ length items.old }
    ensures each { (k : ℕ) (d : Item L) → k < length items.old
        → IsItemServed (doors L.told L.faults L.deaf L.In.left L.In.faults L.Out.written
        L.Out.faults) (C.tells clock.now) site.now (slice_index_or items.old k d)
        (slice_index_or items.new k d) }
{
    let count = items.len();
    if count == 0 {
        return;
    }
    let working = &AtomicU64::new(workers_in(items));
    for_each_mut(
        rt,
        items,
        count,
        &|_place: usize, item: &mut Item<L>|
            requires { IsItemAt site.now item.now }
            ensures { IsItemServed (doors L.told L.faults L.deaf L.In.left L.In.faults L.Out.written
                L.Out.faults) (C.tells clock.entry.now) site.entry.now item.entry.now
                item.exit.now }
        { serve_item(rt, alloc, site, board, item, port, clock, gate, working) },
    );
}
