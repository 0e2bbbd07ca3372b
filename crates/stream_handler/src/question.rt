// What requests ask of the board, once they are carried out at the site.
ghost use Rattle.std.specs.Prelude.{◌≡◌, IfOk};
ghost use Rattle.stream_handler.specs.Boards.{IsListing, board_state};
ghost use Rattle.stream_handler.specs.Choices.{IsAnswerTo, IsPrepared, prepared_change, prepared_start, start_told};

use crate::Outcome;
use crate::action::{Change, faulted, op_done, refused};
use crate::prepared::{Prepared, StartTold};
use crate::starting::NewDaemon;
use daemon_board::Daemons;
use expr_check::Checked;
use root_runs::Docs;
use std::alloc::Global;
use tuple_values::{Memory, Text};

/// What a request that is carried out at the site asks of the board.
#[derive(Drop)]
pub(crate) enum Question {
    /// Nothing: it is answered so.
    Nothing(Outcome),
    /// The list of its daemons.
    List,
    /// That the daemon with an id is changed.
    Change { what: Change, id: Text },
    /// That an expression is put on it, and runs from now on.
    Start { daemon: NewDaemon, checked: Checked },
}

// Gives the tuples of the board, which stays as it is.
fn list<D: Daemons>(alloc: Global, board: &mut D) -> Result<Outcome, Memory>
    ensures { IsListing (board_state (D.shown board.old) (D.answers board.old))
        (board_state (D.shown board.new) (D.answers board.new)) result }
{
    let docs = board.list(alloc)?;
    Ok(Outcome::ResultSet {
        docs: Docs::listed(docs),
        exception: None,
    })
}

// All that the change of a daemon may be answered.
fn prepare_change(alloc: Global, what: Change, id: Text) -> Result<Prepared<Outcome>, Memory>
    ensures { IfOk result (λ p. p ≡ prepared_change what id) }
{
    let made = op_done(alloc, what.word(), id.as_str())?;
    let unknown = refused(alloc, "UnknownDaemon ", id.as_str())?;
    Ok(Prepared::Change {
        what,
        id,
        made,
        unknown,
    })
}

// All that a start may be answered.
fn start_told(alloc: Global, id: &str) -> Result<StartTold<Outcome>, Memory>
    ensures { IfOk result (λ told. told ≡ start_told id.now) }
{
    let started = op_done(alloc, "started ", id)?;
    let taken = refused(alloc, "DaemonTaken ", id)?;
    let full = faulted(alloc, "BoardFull")?;
    Ok(StartTold {
        started,
        taken,
        full,
    })
}

// A start with all that it may be answered.
fn prepare_start(
    alloc: Global,
    daemon: NewDaemon,
    checked: Checked,
) -> Result<Prepared<Outcome>, Memory>
    ensures { IfOk result (λ p. p ≡ prepared_start daemon checked) }
{
    let told = start_told(alloc, daemon.id.as_str())?;
    Ok(Prepared::Start {
        daemon,
        checked,
        told,
    })
}

/// Makes all that a question may be answered. The board is listed here, which leaves it as it is,
/// and nothing else is asked.
pub(crate) fn prepare<D: Daemons>(
    alloc: Global,
    board: &mut D,
    question: Question,
) -> Result<Prepared<Outcome>, Memory>
    ensures prepared { IfOk result (IsPrepared question
        (board_state (D.shown board.old) (D.answers board.old))) }
    ensures same { board_state (D.shown board.new) (D.answers board.new)
        ≡ board_state (D.shown board.old) (D.answers board.old) }
{
    match question {
        Question::Nothing(outcome) => Ok(Prepared::Told(outcome)),
        Question::List => {
            let outcome = list(alloc, board)?;
            Ok(Prepared::Told(outcome))
        }
        Question::Change { what, id } => prepare_change(alloc, what, id),
        Question::Start { daemon, checked } => prepare_start(alloc, daemon, checked),
    }
}

/// Asks the board a question at this time. What it may be answered is made before.
pub(crate) fn ask<D: Daemons>(
    alloc: Global,
    board: &mut D,
    question: Question,
    now: u64,
) -> Result<Outcome, Memory>
    ensures { IsAnswerTo now question (board_state (D.shown board.old) (D.answers board.old))
        (board_state (D.shown board.new) (D.answers board.new)) result }
{
    let prepared = prepare(alloc, board, question)?;
    prepared.ask(alloc, board, now)
}
