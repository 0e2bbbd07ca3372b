// Places of cases: a site with its one pass, and a board of daemons beside it.
ghost use Rattle.std.specs.Prelude.{◌≤◌, IfOk};
ghost use Rattle.daemon_board.specs.Rising.{IsKept};
ghost use Rattle.running_site.specs.Sites.{IsPassAt};

use crate::case::answer;
use crate::sites::{named, start};
use daemon_board::Board;
use running_site::{Pass, Site};
use std::alloc::Global;
use std::sync::Wait;
use std::thread::Threads;
use stream_site::Turns;
use tuple_values::{Bytes, Memory};

/// A site with its one pass, and a board of daemons beside it.
#[derive(Drop)]
pub struct Place {
    pub site: Site,
    pub pass: Pass,
    pub board: Board,
}

/// A new place with these collections, whose shards have this limit.
pub fn begin(alloc: Global, limit: u64, words: &str) -> Result<Box<Place>, Memory>
    requires { limit ≤ 268435456 }
    ensures own { IfOk result (λ place. IsPassAt place.value.site place.value.pass) }
    ensures kept { IfOk result (λ place. IsKept place.value.board.shown) }
{
    let (site, pass) = start(alloc, limit, words)?;
    Ok(Box::new(
        alloc,
        Place {
            site,
            pass,
            board: Board::empty(alloc),
        },
    )?)
}

// What a line that begins anew is answered.
fn site_told(alloc: Global) -> Result<Bytes, Memory> {
    let mut told = Bytes::new(alloc);
    told.extend(b"site")?;
    Ok(told)
}

// The place begins anew, where the limit stands first.
fn renew(alloc: Global, place: &mut Place, words: &str) -> Result<Bytes, Memory>
    requires own { IsPassAt place.old.site place.old.pass }
    requires kept { IsKept place.old.board.shown }
    ensures own { IsPassAt place.new.site place.new.pass }
    ensures kept { IsKept place.new.board.shown }
{
    let (site, pass) = named(alloc, words)?;
    place.site = site;
    place.pass = pass;
    place.board = Board::empty(alloc);
    site_told(alloc)
}

// The answer to a case, by a visit of the pass at its site.
fn answer_there<R: Threads + Wait + Sync>(
    rt: &R,
    alloc: Global,
    place: &mut Place,
    case: &str,
) -> Result<Bytes, Memory>
    requires own { IsPassAt place.old.site place.old.pass }
    requires kept { IsKept place.old.board.shown }
    ensures own { IsPassAt place.new.site place.new.pass }
    ensures kept { IsKept place.new.board.shown }
{
    let mut visit = place.site.visit(rt, &mut place.pass);
    let answer = answer(rt, alloc, &mut visit, &mut place.board, case);
    visit.leave();
    visit.end(&mut place.pass);
    answer
}

/// The answer to one line: `site LIMIT NAME=SHARDS ..` is a new place, and each other line a case.
pub fn answer_line<R: Threads + Wait + Sync>(
    rt: &R,
    alloc: Global,
    place: &mut Place,
    line: &str,
) -> Result<Bytes, Memory>
    requires own { IsPassAt place.old.site place.old.pass }
    requires kept { IsKept place.old.board.shown }
    ensures own { IsPassAt place.new.site place.new.pass }
    ensures kept { IsKept place.new.board.shown }
{
    match line.strip_prefix("site ") {
        Some(words) => renew(alloc, place, words),
        None => answer_there(rt, alloc, place, line),
    }
}
