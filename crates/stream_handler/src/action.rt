// Actions at `/stream`, which ask the board of daemons.
ghost use Rattle.std.specs.Prelude.{◌≡◌, ◌++◌, Err, IfOk, option_map};
ghost use Rattle.daemon_board.specs.Calls.{WhereTold};
ghost use Rattle.stream_handler.specs.Asks.{action_read, change_of, change_read};
ghost use Rattle.stream_handler.specs.Boards.{Makes, after_change, change_word, op_docs, op_done};
ghost use Rattle.stream_handler.specs.Outcomes.{exception};
ghost use Rattle.stream_handler.specs.Questions.{IsActionOf};

use crate::Outcome;
use crate::question::Question;
use daemon_board::{BoardFault, Daemons};
use root_runs::Docs;
use std::alloc::Global;
use tuple_values::{Memory, Text, Tuple, Tuples, Value};

/// What is made of one daemon.
#[derive(Clone, Copy, PartialEq, Eq)]
pub enum Change {
    Stop,
    Start,
    Kill,
}

impl Change {
    pub(crate) fn word(self) -> &'static str
        ensures { result.now ≡ change_word self }
    {
        match self {
            Change::Stop => "stopped ",
            Change::Start => "started ",
            Change::Kill => "killed ",
        }
    }
}

// The text of two parts.
fn joined(alloc: Global, front: &str, id: &str) -> Result<Text, Memory>
    ensures { IfOk result (λ text. text ≡ front.now ++ id.now) }
{
    let text = format!(in alloc; "{front}{id}")?;
    Ok(Text::from_string(text))
}

// The tuple that tells what was done with a daemon.
fn op_docs(alloc: Global, done: &str, id: &str) -> Result<Tuples, Memory>
    ensures { IfOk result (λ docs. docs ≡ op_docs done.now id.now) }
{
    let mut tuple = Tuple::empty(alloc);
    tuple.put(
        Text::of(alloc, "DaemonOp")?,
        Value::Text(joined(alloc, done, id)?),
    )?;
    let mut docs = Tuples::empty(alloc);
    docs.push(tuple)?;
    Ok(docs)
}

/// What is answered where something was done with a daemon.
pub(crate) fn op_done(alloc: Global, done: &str, id: &str) -> Result<Outcome, Memory>
    ensures { IfOk result (λ o. o ≡ op_done done.now id.now) }
{
    let docs = op_docs(alloc, done, id)?;
    Ok(Outcome::ResultSet {
        docs: Docs::listed(docs),
        exception: None,
    })
}

/// A refusal of the board that names a daemon, as an exception.
pub(crate) fn refused(alloc: Global, fault: &str, id: &str) -> Result<Outcome, Memory>
    ensures { IfOk result (λ o. o ≡ exception (fault.now ++ id.now)) }
{
    let text = joined(alloc, fault, id)?;
    Ok(Outcome::exception(alloc, text))
}

/// A fault of an action, as an exception.
pub(crate) fn faulted(alloc: Global, fault: &str) -> Result<Outcome, Memory>
    ensures { IfOk result (λ o. o ≡ exception fault.now) }
{
    let text = Text::of(alloc, fault)?;
    Ok(Outcome::exception(alloc, text))
}

// The change of one daemon that an action is, if it is one.
fn change_of(action: &str) -> Option<Change>
    ensures { result ≡ change_of action.now }
{
    match action {
        "stop" => Some(Change::Stop),
        "start" => Some(Change::Start),
        "kill" => Some(Change::Kill),
        _ => None,
    }
}

/// Asks the board for the change of a daemon at this time.
pub(crate) fn ask_for<D: Daemons>(
    board: &mut D,
    what: Change,
    id: &str,
    now: u64,
) -> Result<(), BoardFault>
    ensures told { WhereTold (D.shown board.old) (D.shown board.new)
        (Makes now what id.now result) }
    ensures counted { D.answers board.new ≡ after_change what result (D.answers board.old) }
{
    match what {
        Change::Stop => board.stop(id),
        Change::Start => board.resume(id, now),
        Change::Kill => board.kill(id),
    }
}

// A fault of an action, of which the board is asked nothing.
fn fault_told(alloc: Global, fault: &str) -> Result<Question, Memory>
    ensures { IfOk result (IsActionOf (Err fault.now)) }
{
    let outcome = faulted(alloc, fault)?;
    Ok(Question::Nothing(outcome))
}

// What an action other than a list asks, or its fault.
fn named_question(alloc: Global, what: Option<Change>, id: Option<&str>) -> Result<Question, Memory>
    ensures { IfOk result
        (IsActionOf (change_read what (option_map (λ s. s.now) id.entry))) }
{
    match what {
        None => fault_told(alloc, "BadParam stream action"),
        Some(what) => match id {
            None => fault_told(alloc, "MissingParam stream id"),
            Some(id) => Ok(Question::Change {
                what,
                id: Text::of(alloc, id)?,
            }),
        },
    }
}

/// What an action asks of the board, or its fault.
pub(crate) fn action_question(
    alloc: Global,
    action: &str,
    id: Option<&str>,
) -> Result<Question, Memory>
    ensures { IfOk result
        (IsActionOf (action_read action.now (option_map (λ s. s.now) id.entry))) }
{
    if action == "list" {
        return Ok(Question::List);
    }
    named_question(alloc, change_of(action), id)
}
