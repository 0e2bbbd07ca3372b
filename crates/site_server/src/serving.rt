// A server, from the start of its site to its end.
ghost use Rattle.std.specs.Prelude.{◌≡◌, ◌≤◌, ◌<◌, ◌+◌, ◌^◌, ℕ, [], All, IfOk, OnErr, length, map, slice_index_or, vec_capacity, vec_len};
ghost use Rattle.running_site.specs.Passes.{new_writer, number_of, numbers_to, writer_of};
ghost use Rattle.running_site.specs.Sites.{layout_at, IsPassAt};
ghost use Rattle.site_server.specs.Doors.{doors};
ghost use Rattle.site_server.specs.Ended.{IsEnded, IsGivenBack, IsRowServedBy};
ghost use Rattle.site_server.specs.Items.{Item, IsItemAt, IsItemServed};

use crate::item::Item;
use crate::row::{add_items, part_items, put_behind};
use crate::threads::serve_items;
use daemon_board::Board;
use io_edge::Gate;
use running_site::{Histories, Pass, Passes, Site, SiteOf};
use server_edge::{Clock, Door};
use std::alloc::Global;
use std::mem::replace;
use std::sync::{Mutex, Wait};
use std::thread::Threads;
use std::time::Clock as SystemClock;
use stream_handler::SessionEnd;
use tuple_values::{Memory, Names, Sequence};

/// How a server is to serve: at which port, by how many workers and runners, and with which limit
/// on the counted bytes of each shard.
#[derive(Clone, Copy, PartialEq, Eq)]
pub struct Serving {
    pub port: u16,
    pub workers: u64,
    pub runners: u64,
    pub limit: u64,
}

/// What a server leaves: the histories with which its site was closed, and whether a door failed.
#[derive(Drop)]
pub struct Served {
    pub histories: Histories,
    pub failed: bool,
}

// Room for the items of a server, and for its doors and passes when it has ended.
#[derive(Drop)]
struct Room<L> {
    items: Vec<Item<L>>,
    doors: Vec<L>,
    passes: Vec<Pass>,
}

// The room for so many passes, and so many doors of a row.
fn room_for<L: Drop>(alloc: Global, passes: usize, doors: usize) -> Result<Room<L>, Memory>
    requires { passes + doors < 2 ^ 64 }
    ensures empty { IfOk result (λ room. (room.items.items ≡ []) × (room.doors.items ≡ [])
        × (room.passes.items ≡ [])) }
    ensures items { IfOk result (λ room. passes ≤ vec_capacity room.items) }
    ensures doors { IfOk result (λ room. passes + doors ≤ vec_capacity room.doors) }
    ensures passes { IfOk result (λ room. passes ≤ vec_capacity room.passes) }
{
    let items = Vec::with_capacity(alloc, passes)?;
    let doors = Vec::with_capacity(alloc, passes + doors)?;
    let passes = Vec::with_capacity(alloc, passes)?;
    Ok(Room {
        items,
        doors,
        passes,
    })
}

// Carries the items out, with one board of daemons.
fn carry_out<L: Door<Note = SessionEnd>, R: Threads + Wait + SystemClock + Sync, C: Clock, G: Gate>(
    rt: &R,
    alloc: Global,
    site: &Site,
    items: &mut Vec<Item<L>>,
    port: u16,
    clock: &C,
    gate: &G,
)
    requires { All (IsItemAt site.now) items.old.items }
    ensures count { length items.new.items ≡ length items.old.items }
    ensures each { (k : ℕ) (d : Item L) → k < length items.old.items
        → IsItemServed (doors L.told L.faults L.deaf L.In.left L.In.faults L.Out.written
        L.Out.faults) (C.tells clock.now) site.now (slice_index_or items.old.items k d)
        (slice_index_or items.new.items k d) }
    ensures len { vec_len items.new ≡ vec_len items.old }
{
    let board = Mutex::new(Board::empty(alloc));
    let items = items.as_mut_slice();
    serve_items(rt, alloc, site, &board, items, port, clock, gate);
}

// Serves the doors of a row at a site, by these passes. The doors are in their row again, and the
// passes are given back; answers whether a door failed.
fn serve_row<L: Door<Note = SessionEnd>, R: Threads + Wait + SystemClock + Sync, C: Clock, G: Gate>(
    rt: &R,
    alloc: Global,
    site: &Site,
    passes: Vec<Pass>,
    row: &mut Sequence<L>,
    room: Room<L>,
    serving: &Serving,
    clock: &C,
    gate: &G,
) -> (Vec<Pass>, bool)
    requires own { All (IsPassAt site.now) passes.items }
    requires new { map writer_of passes.items ≡ map (new_writer site.now.names)
        (numbers_to (serving.now.workers + serving.now.runners)) }
    requires few { serving.now.workers ≤ length row.old }
    requires empty { (room.items.items ≡ []) × (room.doors.items ≡ []) × (room.passes.items ≡ []) }
    requires items { vec_len passes ≤ vec_capacity room.items }
    requires doors { vec_len passes + length row.old ≤ vec_capacity room.doors }
    requires passes { vec_len passes ≤ vec_capacity room.passes }
    ensures own { All (IsPassAt site.now) result.0.items }
    ensures numbers { map number_of result.0.items
        ≡ numbers_to (serving.now.workers + serving.now.runners) }
    ensures served { IsRowServedBy (doors L.told L.faults L.deaf L.In.left L.In.faults
        L.Out.written L.Out.faults) (C.tells clock.now) (layout_at site.now) serving.now.workers
        row.old row.new result.1 (map writer_of result.0.items) }
{
    let Room {
        mut items,
        mut doors,
        passes: mut ended,
    } = room;
    let mut left = replace(row, Sequence::new(alloc)).into_vec();
    add_items(&mut items, passes, &mut left, serving.workers);
    carry_out(rt, alloc, site, &mut items, serving.port, clock, gate);
    let failed = part_items(items, &mut doors, &mut ended);
    put_behind(&mut doors, &mut left);
    *row = Sequence::from_vec(doors);
    (ended, failed)
}

/// Serves the first doors of a row at a new site of these collections, one worker each, with as
/// many runners beside them, until all workers have ended; then ends the site. All workers and
/// runners share one board of daemons. The doors are back in their row, after want of memory too,
/// which may come before the site starts or after the last worker has ended.
pub fn serve<L: Door<Note = SessionEnd>, R: Threads + Wait + SystemClock + Sync, C: Clock, G: Gate>(
    rt: &R,
    alloc: Global,
    names: Names,
    row: &mut Sequence<L>,
    serving: &Serving,
    clock: &C,
    gate: &G,
) -> Result<Served, Memory>
    requires some { 0 < serving.now.workers }
    requires few { serving.now.workers ≤ length row.old }
    requires row { length row.old ≤ 16 }
    requires runners { serving.now.runners ≤ 16 }
    requires limit { serving.now.limit ≤ 268435456 }
    ensures ok { IfOk result (IsEnded (doors L.told L.faults L.deaf L.In.left L.In.faults
        L.Out.written L.Out.faults) (C.tells clock.now) names serving.now row.old row.new) }
    ensures err { OnErr result (IsGivenBack (doors L.told L.faults L.deaf L.In.left L.In.faults
        L.Out.written L.Out.faults) (C.tells clock.now) names serving.now row.old row.new) }
{
    let count = serving.workers + serving.runners;
    let (site, passes) = SiteOf::start(alloc, names, count, serving.limit)?;
    let passes = passes.into_vec();
    let room = room_for(alloc, passes.len(), row.len())?;
    let (passes, failed) = serve_row(rt, alloc, &site, passes, row, room, serving, clock, gate);
    let histories = site.close(alloc, Passes::from_vec(passes))?;
    Ok(Served { histories, failed })
}
