// One case, carried out by a writer of a site with a board of daemons.
ghost use Rattle.std.specs.Prelude.{◌≡◌};
ghost use Rattle.daemon_board.specs.Rising.{IsKept};

use crate::requests::{action_of, update_of};
use daemon_board::Board;
use daemon_steps::run_daemons;
use form_request::Request;
use io_edge::NoGate;
use json_text::tuple_text;
use server_edge::{Clock, NoClock};
use std::alloc::Global;
use std::thread::Threads;
use stream_handler::{Outcome, run_expression, run_plain_expression, run_request};
use stream_site::Turns;
use tuple_values::{Bytes, Memory, Text, Tuple, Tuples};

fn push_tuple(alloc: Global, out: &mut Bytes, tuple: &Tuple) -> Result<(), Memory> {
    let text = tuple_text(alloc, tuple)?;
    out.extend(text.as_slice())
}

// The tuples, with a blank between them.
fn push_tuples(alloc: Global, out: &mut Bytes, docs: &Tuples) -> Result<(), Memory> {
    for k in 0..docs.count() {
        if k > 0 {
            out.extend(b" ")?;
        }
        push_tuple(alloc, out, docs.get(k))?;
    }
    Ok(())
}

fn push_text(out: &mut Bytes, text: &Option<Text>) -> Result<(), Memory> {
    match text {
        Some(text) => out.extend(text.as_str().as_bytes()),
        None => Ok(()),
    }
}

fn push_outcome(alloc: Global, out: &mut Bytes, outcome: Outcome) -> Result<(), Memory> {
    match outcome {
        Outcome::Indexed => out.extend(b"indexed"),
        Outcome::Refused { msg, .. } => out.extend(msg.as_str().as_bytes()),
        Outcome::ResultSet { docs, exception } => {
            let docs = docs.gathered(alloc)?;
            push_tuples(alloc, out, &docs)?;
            push_text(out, &exception)
        }
    }
}

// What an answer says, in one line.
fn line_of(alloc: Global, outcome: Outcome) -> Result<Bytes, Memory> {
    let mut out = Bytes::new(alloc);
    push_outcome(alloc, &mut out, outcome)?;
    Ok(out)
}

// What a request is answered.
fn run<T: Turns, R: Threads + Sync>(
    rt: &R,
    alloc: Global,
    site: &mut T,
    board: &mut Board,
    request: &Request,
) -> Result<Outcome, Memory>
    requires { IsKept board.old.shown }
    ensures kept { IsKept board.new.shown }
    ensures home { T.home site.new ≡ T.home site.old }
{
    run_request(rt, alloc, site, board, request, NoClock.now_ms(), &NoGate)
}

// What an expression is answered.
fn run_text<T: Turns, R: Threads + Sync>(
    rt: &R,
    alloc: Global,
    site: &mut T,
    board: &mut Board,
    text: &str,
) -> Result<Outcome, Memory>
    requires { IsKept board.old.shown }
    ensures kept { IsKept board.new.shown }
    ensures home { T.home site.new ≡ T.home site.old }
{
    run_expression(
        rt,
        alloc,
        site,
        board,
        text.as_bytes(),
        NoClock.now_ms(),
        &NoGate,
    )
}

// What the update of these words is answered.
fn run_update<T: Turns, R: Threads + Sync>(
    rt: &R,
    alloc: Global,
    site: &mut T,
    board: &mut Board,
    commit: &str,
    words: &str,
) -> Result<Outcome, Memory>
    requires { IsKept board.old.shown }
    ensures kept { IsKept board.new.shown }
    ensures home { T.home site.new ≡ T.home site.old }
{
    let request = update_of(alloc, commit, words)?;
    run(rt, alloc, site, board, &request)
}

// What the action of these words is answered.
fn run_action<T: Turns, R: Threads + Sync>(
    rt: &R,
    alloc: Global,
    site: &mut T,
    board: &mut Board,
    words: &str,
) -> Result<Outcome, Memory>
    requires { IsKept board.old.shown }
    ensures kept { IsKept board.new.shown }
    ensures home { T.home site.new ≡ T.home site.old }
{
    let request = action_of(alloc, site.names(), words)?;
    run(rt, alloc, site, board, &request)
}

// What a case is answered.
fn outcome_of<T: Turns, R: Threads + Sync>(
    rt: &R,
    alloc: Global,
    site: &mut T,
    board: &mut Board,
    case: &str,
) -> Result<Outcome, Memory>
    requires { IsKept board.old.shown }
    ensures kept { IsKept board.new.shown }
    ensures home { T.home site.new ≡ T.home site.old }
{
    if let Some(words) = case.strip_prefix("update ") {
        return run_update(rt, alloc, site, board, "true", words);
    }
    if let Some(words) = case.strip_prefix("pending ") {
        return run_update(rt, alloc, site, board, "false", words);
    }
    if let Some(words) = case.strip_prefix("action ") {
        return run_action(rt, alloc, site, board, words);
    }
    match case.strip_prefix("eval ") {
        Some(text) => run_plain_expression(rt, alloc, site, text.as_bytes(), &NoGate),
        None => run_text(rt, alloc, site, board, case),
    }
}

// What a case is answered, in one line.
fn told<T: Turns, R: Threads + Sync>(
    rt: &R,
    alloc: Global,
    site: &mut T,
    board: &mut Board,
    case: &str,
) -> Result<Bytes, Memory>
    requires { IsKept board.old.shown }
    ensures kept { IsKept board.new.shown }
    ensures home { T.home site.new ≡ T.home site.old }
{
    let outcome = outcome_of(rt, alloc, site, board, case)?;
    line_of(alloc, outcome)
}

/// The answer to one case: `update NAME BODY` is a body of an update with a commit, `pending NAME BODY`
/// one without; `action NAME` and `action NAME ID` are actions on daemons; `eval` and an expression
/// only reads, and each other line is an expression. Tuples are written with a blank between them, and
/// the text of a fault behind them. Every running daemon runs once behind each case.
pub fn answer<T: Turns, R: Threads + Sync>(
    rt: &R,
    alloc: Global,
    site: &mut T,
    board: &mut Board,
    case: &str,
) -> Result<Bytes, Memory>
    requires { IsKept board.old.shown }
    ensures kept { IsKept board.new.shown }
    ensures home { T.home site.new ≡ T.home site.old }
{
    let line = told(rt, alloc, site, board, case)?;
    run_daemons(rt, alloc, site, board, &NoGate)?;
    Ok(line)
}
