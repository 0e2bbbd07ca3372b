// A test of daemon_board's shared board: requests on daemons are answered over it as over a board of
// one thread.
ghost use Rattle.std.specs.Prelude.{IfOk};
ghost use Rattle.running_site.specs.Sites.{IsPassAt};

use crate::daemons::{KILL, LIST, RESUME, START, STARTED, STOP, STOPPED, UNKNOWN};
use crate::joining::{is_joined, joined};
use daemon_board::{Board, Daemons, SharedBoard};
use form_request::Requests;
use io_edge::{MemorySink, MemorySource, NoGate};
use pass_calls::serve_one;
use running_site::{Pass, Site, SiteOf};
use server_edge::NoClock;
use std::alloc::Global;
use std::sync::{Mutex, Wait};
use std::test::Fail;
use std::thread::Threads;
use stream_handler::OneEnd;
use tuple_values::{Memory, NameShards, Names, Numbers, Text};

const LISTED: &str =
    "HTTP/1.1 200 OK\r\nContent-Type: application/json\r\nTransfer-Encoding: chunked\r\n\r\n\
     65\r\n{\"result-set\":{\"docs\":[{\"id\":\"d1\",\"iterations\":0,\"state\":\"RUNNING\"},\
     {\"EOF\":true,\"RESPONSE_TIME\":0}]}}\r\n0\r\n\r\n";

// A site with a source, checkpoints and a destination, and its one pass.
fn sourced(alloc: Global) -> Result<(Site, Pass), Memory>
    ensures { IfOk result (λ made. IsPassAt made.0 made.1) }
{
    let mut names = Names::new(alloc);
    for (name, shards) in [("src", 2), ("ck", 1), ("dest", 2)] {
        let name = Text::of(alloc, name)?;
        names.push(NameShards { name, shards })?;
    }
    SiteOf::start_alone(alloc, names, 1_000_000)
}

// Whether a request is answered so at the site, over the board.
fn is_answered<D: Daemons, R: Threads + Wait + Sync>(
    rt: &R,
    alloc: Global,
    site: &Site,
    pass: &mut Pass,
    board: &mut D,
    request: &str,
    reply: &str,
) -> Result<bool, Memory>
    requires { IsPassAt site.now pass.old }
    ensures { IsPassAt site.now pass.new }
{
    let mut requests = Requests::begin(alloc);
    let mut source = MemorySource::new(joined(alloc, &[request])?, 64, Numbers::new(alloc));
    let mut sink = MemorySink::new(alloc, Numbers::new(alloc));
    let end = serve_one(
        rt,
        alloc,
        site,
        pass,
        board,
        &mut requests,
        &mut source,
        &mut sink,
        &NoClock,
        &NoGate,
    );
    Ok(matches!(end, OneEnd::Served(_)) && is_joined(sink.bytes(), &[reply]))
}

// Whether a daemon is put on the board, listed, stopped and started again, and none is killed that
// isn't there.
fn are_answered<D: Daemons, R: Threads + Wait + Sync>(
    rt: &R,
    alloc: Global,
    board: &mut D,
) -> Result<bool, Memory> {
    let (site, mut pass) = sourced(alloc)?;
    let put = is_answered(rt, alloc, &site, &mut pass, board, START, STARTED)?;
    let listed = is_answered(rt, alloc, &site, &mut pass, board, LIST, LISTED)?;
    let stopped = is_answered(rt, alloc, &site, &mut pass, board, STOP, STOPPED)?;
    let started = is_answered(rt, alloc, &site, &mut pass, board, RESUME, STARTED)?;
    let unknown = is_answered(rt, alloc, &site, &mut pass, board, KILL, UNKNOWN)?;
    Ok(put && listed && stopped && started && unknown)
}

#[test]
fn a_shared_board_answers_as_a_board_does(rt: HostRuntime) -> Result<(), Fail> {
    let alloc = rt.alloc();
    let mut alone = Board::empty(alloc);
    assert!(rt; are_answered(&rt, alloc, &mut alone)?);
    let shared = Mutex::new(Board::empty(alloc));
    let mut held = SharedBoard::over(&rt, &shared);
    assert!(rt; are_answered(&rt, alloc, &mut held)?);
    Ok(())
}
