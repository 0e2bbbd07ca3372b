// Expressions, carried out at a site.
ghost use Rattle.std.specs.Prelude.{◌≡◌, IfOk, Ok, option_map};
ghost use Rattle.exchange_rules.specs.Calls.{Carried};
ghost use Rattle.expr_check.specs.Views.{tree_of};
ghost use Rattle.expr_check.specs.declared.roots.Roots.TheVariants.{All, Plain};
ghost use Rattle.expr_text.specs.Reading.{expression_of};
ghost use Rattle.expr_types.specs.Plain.{IsPlain};
ghost use Rattle.expr_types.specs.ExprTree.{operator_in};
ghost use Rattle.stream_handler.specs.Asks.{daemon_of, expression_ask, root_ask, stream_ask};
ghost use Rattle.stream_handler.specs.Boards.{IsAsked, board_state};
ghost use Rattle.stream_handler.specs.Questions.{Asks, CarriedTo};
ghost use Rattle.stream_handler.specs.Requests.{CarriedWith, deed_course, expression_course, plain_course, root_or_told, stream_course};
ghost use Rattle.root_runs.specs.Stays.{Stays};

use crate::Outcome;
use crate::action::faulted;
use crate::question::{Question, ask};
use crate::starting::daemon_of;
use daemon_board::Daemons;
use expr_check::{Checked, Roots};
use expr_text::{TextFault, read_checked};
use io_edge::Gate;
use root_runs::{open_plain, run_deed};
use std::alloc::Global;
use std::thread::Threads;
use stream_site::Turns;
use tuple_values::Memory;

// What an expression gives at the site that only reads.
fn give<T: Turns, R: Threads + Sync, G: Gate>(
    rt: &R,
    alloc: Global,
    site: &mut T,
    checked: &Checked,
    gate: &G,
) -> Result<Outcome, Memory>
    requires plain { IsPlain (tree_of checked.now) }
    ensures course { Carried (T.writer site.old) (T.writer site.new)
        (plain_course (T.layout site.old) (Ok (tree_of checked.now))) result }
    ensures stays { Stays T.layout T.home T.free site.old site.new }
{
    let docs = open_plain(rt, alloc, site, checked, gate)?;
    Ok(Outcome::ResultSet {
        docs,
        exception: None,
    })
}

/// What the bytes of an expression give at the site, which only reads, or the exception of their
/// first fault.
pub fn run_plain_expression<T: Turns, R: Threads + Sync, G: Gate>(
    rt: &R,
    alloc: Global,
    site: &mut T,
    bytes: &[u8],
    gate: &G,
) -> Result<Outcome, Memory>
    ensures course { Carried (T.writer site.old) (T.writer site.new)
        (plain_course (T.layout site.old) (expression_of Plain (T.layout site.old).names bytes.now))
        result }
    ensures stays { Stays T.layout T.home T.free site.old site.new }
{
    match read_checked(alloc, site.names(), bytes, Roots::Plain) {
        Ok(checked) => give(rt, alloc, site, &checked, gate),
        Err(TextFault::Told(text)) => Ok(Outcome::exception(alloc, text)),
        Err(TextFault::OutOfMemory) => Err(Memory::OutOfMemory),
    }
}

// What an expression that isn't put on a board does at the site.
fn carry_out<T: Turns, R: Threads + Sync, G: Gate>(
    rt: &R,
    alloc: Global,
    site: &mut T,
    checked: &Checked,
    gate: &G,
) -> Result<Outcome, Memory>
    ensures course { Carried (T.writer site.old) (T.writer site.new)
        (deed_course (T.layout site.old) (tree_of checked.now)) result }
    ensures stays { Stays T.layout T.home T.free site.old site.new }
{
    let done = run_deed(rt, alloc, site, checked, gate)?;
    Ok(Outcome::ResultSet {
        docs: done.docs,
        exception: done.exception,
    })
}

// What an expression does at the site, and what it asks of the board.
fn checked_question<T: Turns, R: Threads + Sync, G: Gate>(
    rt: &R,
    alloc: Global,
    site: &mut T,
    checked: Checked,
    gate: &G,
) -> Result<Question, Memory>
    ensures course { CarriedTo (T.writer site.old) (T.writer site.new) (λ told.
        root_or_told (T.layout site.old) told (tree_of checked)
        (daemon_of (operator_in (tree_of checked)))) result }
    ensures asks { IfOk result
        (Asks (root_ask (tree_of checked) (daemon_of (operator_in (tree_of checked))))) }
    ensures stays { Stays T.layout T.home T.free site.old site.new }
{
    let found = daemon_of(alloc, &checked)?;
    match found {
        Some(daemon) => Ok(Question::Start { daemon, checked }),
        None => {
            let outcome = carry_out(rt, alloc, site, &checked, gate)?;
            Ok(Question::Nothing(outcome))
        }
    }
}

// The same of the bytes of an expression, or the exception of their first fault.
fn expression_question<T: Turns, R: Threads + Sync, G: Gate>(
    rt: &R,
    alloc: Global,
    site: &mut T,
    bytes: &[u8],
    gate: &G,
) -> Result<Question, Memory>
    ensures course { CarriedTo (T.writer site.old) (T.writer site.new) (λ told.
        expression_course (T.layout site.old) told
        (expression_of All (T.layout site.old).names bytes.now)) result }
    ensures asks { IfOk result
        (Asks (expression_ask (expression_of All (T.layout site.old).names bytes.now))) }
    ensures stays { Stays T.layout T.home T.free site.old site.new }
{
    match read_checked(alloc, site.names(), bytes, Roots::All) {
        Ok(checked) => checked_question(rt, alloc, site, checked, gate),
        Err(TextFault::Told(text)) => Ok(Question::Nothing(Outcome::exception(alloc, text))),
        Err(TextFault::OutOfMemory) => Err(Memory::OutOfMemory),
    }
}

/// What the bytes of an expression do at the site, or the exception of their first fault. A daemon
/// is put on the board, where it runs from `now` on, in milliseconds. The board is asked last:
/// where memory is wanting it is as it was.
pub fn run_expression<T: Turns, D: Daemons, R: Threads + Sync, G: Gate>(
    rt: &R,
    alloc: Global,
    site: &mut T,
    board: &mut D,
    bytes: &[u8],
    now: u64,
    gate: &G,
) -> Result<Outcome, Memory>
    ensures course { CarriedWith (T.writer site.old) (T.writer site.new) (λ told.
        expression_course (T.layout site.old) told
        (expression_of All (T.layout site.old).names bytes.now)) result }
    ensures asked { IsAsked now
        (expression_ask (expression_of All (T.layout site.old).names bytes.now))
        (board_state (D.shown board.old) (D.answers board.old))
        (board_state (D.shown board.new) (D.answers board.new)) result }
    ensures stays { Stays T.layout T.home T.free site.old site.new }
{
    let question = expression_question(rt, alloc, site, bytes, gate)?;
    ask(alloc, board, question, now)
}

/// What the expression of a parameter does at the site, and what it asks of the board.
pub(crate) fn stream_question<T: Turns, R: Threads + Sync, G: Gate>(
    rt: &R,
    alloc: Global,
    site: &mut T,
    expr: Option<&str>,
    gate: &G,
) -> Result<Question, Memory>
    ensures course { CarriedTo (T.writer site.old) (T.writer site.new) (λ told.
        stream_course (T.layout site.old) told (option_map (λ s. s.now) expr.entry)) result }
    ensures asks { IfOk result
        (Asks (stream_ask (T.layout site.old).names (option_map (λ s. s.now) expr.entry))) }
    ensures stays { Stays T.layout T.home T.free site.old site.new }
{
    match expr {
        Some(text) => expression_question(rt, alloc, site, text.as_bytes(), gate),
        None => {
            let outcome = faulted(alloc, "MissingParam stream expr")?;
            Ok(Question::Nothing(outcome))
        }
    }
}
