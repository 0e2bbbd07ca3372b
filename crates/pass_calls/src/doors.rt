// The connections of a door, served one after another.
ghost use Rattle.std.specs.Prelude.{◌≡◌, ◌≤◌, ◌<◌, IfNone};
ghost use Rattle.running_site.specs.Passes.{number_of, writer_of};
ghost use Rattle.running_site.specs.Sites.{layout_at, IsPassAt};
ghost use Rattle.stream_handler.specs.Boards.{board_state};
ghost use Rattle.pass_calls.specs.Serving.{server, served_by, EndsAll, EndsDoor, EndsNext};
ghost use Rattle.pass_calls.specs.Serving.{HasFailed, HasGoneOn, IsServed, Rises, ServesOne};

use crate::serving::serve_connection;
use daemon_board::Daemons;
use io_edge::{Gate, Sink, Source};
use running_site::{Pass, Site};
use server_edge::{Clock, Door, Listen, Next};
use std::alloc::Global;
use std::sync::Wait;
use std::thread::Threads;
use stream_handler::SessionEnd;

/// Why the serving of a door ended.
#[derive(Clone, Copy, PartialEq, Eq)]
pub enum DoorEnd {
    /// No connection will come.
    Closed,
    /// The door couldn't listen.
    NoListen,
    /// It failed a hundred times to give a connection.
    Failed,
}

/// How the serving of a door went.
#[derive(Clone, Copy, PartialEq, Eq)]
pub struct DoorRun {
    /// Why it ended.
    pub end: DoorEnd,
    /// Whether the door failed in it.
    pub failed: bool,
}

/// How often a door may fail to give a connection.
const MOST: u64 = 100;

// Serves one connection, and gives its ends back.
fn serve_given<L: Door<Note = SessionEnd>, D: Daemons, R: Threads + Wait + Sync, C: Clock, G: Gate>(
    rt: &R,
    alloc: Global,
    site: &Site,
    pass: &mut Pass,
    board: &mut D,
    door: &mut L,
    clock: &C,
    gate: &G,
    input: L::In,
    output: L::Out,
)
    requires { IsPassAt site.now pass.old }
    ensures own { IsPassAt site.now pass.new }
    ensures number { number_of pass.new ≡ number_of pass.old }
    ensures now { pass.new.now ≡ pass.old.now }
    ensures served { ServesOne (served_by (C.tells clock.now) (layout_at site.now)
        L.In.left L.In.faults L.Out.written L.Out.faults)
        (server (writer_of pass.old) (board_state (D.shown board.old) (D.answers board.old)))
        (server (writer_of pass.new) (board_state (D.shown board.new) (D.answers board.new)))
        (input, output) (L.told door.old) (L.told door.new) }
    ensures faults { L.faults door.new ≡ L.faults door.old }
{
    let mut input = input;
    let mut output = output;
    let note = serve_connection(
        rt,
        alloc,
        site,
        pass,
        board,
        &mut input,
        &mut output,
        clock,
        gate,
    );
    door.back(input, output, note);
}

// Serves the next connection that a door gives, or says why there is none.
fn serve_next<L: Door<Note = SessionEnd>, D: Daemons, R: Threads + Wait + Sync, C: Clock, G: Gate>(
    rt: &R,
    alloc: Global,
    site: &Site,
    pass: &mut Pass,
    board: &mut D,
    door: &mut L,
    clock: &C,
    gate: &G,
    failures: &mut u64,
) -> Option<DoorEnd>
    requires own { IsPassAt site.now pass.old }
    requires few { failures.old < 100 }
    ensures own { IsPassAt site.now pass.new }
    ensures number { number_of pass.new ≡ number_of pass.old }
    ensures now { pass.new.now ≡ pass.old.now }
    ensures served { IsServed (served_by (C.tells clock.now) (layout_at site.now)
        L.In.left L.In.faults L.Out.written L.Out.faults)
        (server (writer_of pass.old) (board_state (D.shown board.old) (D.answers board.old)))
        (server (writer_of pass.new) (board_state (D.shown board.new) (D.answers board.new)))
        (L.told door.old) (L.told door.new) }
    ensures counts { Rises failures.old failures.new (L.faults door.old) (L.faults door.new) }
    ensures ends { EndsNext (L.told door.new) failures.new result }
    ensures goes { IfNone result (HasGoneOn failures.old failures.new (L.told door.old)
        (L.told door.new)) }
{
    match door.next() {
        Next::Got { input, output } => {
            serve_given(
                rt, alloc, site, pass, board, door, clock, gate, input, output,
            );
            None
        }
        Next::Closed => Some(DoorEnd::Closed),
        Next::Failed => {
            *failures += 1;
            if *failures == MOST {
                Some(DoorEnd::Failed)
            } else {
                None
            }
        }
    }
}

// Serves the connections of a door that listens.
fn serve_all<L: Door<Note = SessionEnd>, D: Daemons, R: Threads + Wait + Sync, C: Clock, G: Gate>(
    rt: &R,
    alloc: Global,
    site: &Site,
    pass: &mut Pass,
    board: &mut D,
    door: &mut L,
    clock: &C,
    gate: &G,
) -> DoorRun
    requires { IsPassAt site.now pass.old }
    ensures own { IsPassAt site.now pass.new }
    ensures number { number_of pass.new ≡ number_of pass.old }
    ensures now { pass.new.now ≡ pass.old.now }
    ensures served { IsServed (served_by (C.tells clock.now) (layout_at site.now)
        L.In.left L.In.faults L.Out.written L.Out.faults)
        (server (writer_of pass.old) (board_state (D.shown board.old) (D.answers board.old)))
        (server (writer_of pass.new) (board_state (D.shown board.new) (D.answers board.new)))
        (L.told door.old) (L.told door.new) }
    ensures stays { L.faults door.old ≤ L.faults door.new }
    ensures ends { EndsAll (L.told door.new) (L.faults door.old) (L.faults door.new) result.end }
    ensures failed { HasFailed result.failed (L.faults door.old) (L.faults door.new) }
{
    let mut failures = 0;
    for _ in rt.forever() {
        match serve_next(
            rt,
            alloc,
            site,
            pass,
            board,
            door,
            clock,
            gate,
            &mut failures,
        ) {
            Some(end) => {
                return DoorRun {
                    end,
                    failed: failures > 0,
                };
            }
            None => {}
        }
    }
    unreachable!()
}

/// Listens at the port, and serves the connections that the door gives, one after another. Each
/// one's ends go back to the door with its `SessionEnd`. A door that fails a hundred times to give
/// a connection is left. Answers whether the door failed at all, beside why the serving ended.
pub fn run_door<
    L: Door<Note = SessionEnd>,
    D: Daemons,
    R: Threads + Wait + Sync,
    C: Clock,
    G: Gate,
>(
    rt: &R,
    alloc: Global,
    site: &Site,
    pass: &mut Pass,
    board: &mut D,
    door: &mut L,
    port: u16,
    clock: &C,
    gate: &G,
) -> DoorRun
    requires { IsPassAt site.now pass.old }
    ensures own { IsPassAt site.now pass.new }
    ensures number { number_of pass.new ≡ number_of pass.old }
    ensures now { pass.new.now ≡ pass.old.now }
    ensures served { IsServed (served_by (C.tells clock.now) (layout_at site.now)
        L.In.left L.In.faults L.Out.written L.Out.faults)
        (server (writer_of pass.old) (board_state (D.shown board.old) (D.answers board.old)))
        (server (writer_of pass.new) (board_state (D.shown board.new) (D.answers board.new)))
        (L.told door.old) (L.told door.new) }
    ensures ends { EndsDoor (L.told door.new) (L.faults door.old) (L.faults door.new)
        (L.deaf door.old) (L.deaf door.new) result.end }
    ensures failed { HasFailed result.failed (L.faults door.old) (L.faults door.new) }
    ensures stays { L.faults door.old ≤ L.faults door.new }
{
    match door.listen(port) {
        Listen::Ready => serve_all(rt, alloc, site, pass, board, door, clock, gate),
        Listen::Failed => DoorRun {
            end: DoorEnd::NoListen,
            failed: true,
        },
    }
}

/// The same, of which why the serving ended is told alone.
pub fn serve_door<
    L: Door<Note = SessionEnd>,
    D: Daemons,
    R: Threads + Wait + Sync,
    C: Clock,
    G: Gate,
>(
    rt: &R,
    alloc: Global,
    site: &Site,
    pass: &mut Pass,
    board: &mut D,
    door: &mut L,
    port: u16,
    clock: &C,
    gate: &G,
) -> DoorEnd
    requires { IsPassAt site.now pass.old }
    ensures own { IsPassAt site.now pass.new }
    ensures number { number_of pass.new ≡ number_of pass.old }
    ensures now { pass.new.now ≡ pass.old.now }
    ensures served { IsServed (served_by (C.tells clock.now) (layout_at site.now)
        L.In.left L.In.faults L.Out.written L.Out.faults)
        (server (writer_of pass.old) (board_state (D.shown board.old) (D.answers board.old)))
        (server (writer_of pass.new) (board_state (D.shown board.new) (D.answers board.new)))
        (L.told door.old) (L.told door.new) }
    ensures ends { EndsDoor (L.told door.new) (L.faults door.old) (L.faults door.new)
        (L.deaf door.old) (L.deaf door.new) result }
    ensures stays { L.faults door.old ≤ L.faults door.new }
{
    let run = run_door(rt, alloc, site, pass, board, door, port, clock, gate);
    run.end
}
