// What the board is asked last, when all that may be answered is made.
ghost use Rattle.std.specs.Prelude.{◌≡◌, IfOk};
ghost use Rattle.stream_handler.specs.Boards.{board_state};
ghost use Rattle.stream_handler.specs.Choices.{IsChangeChosen, IsChosen, IsStartAsked, IsStartPicked, each_start, each_told};
ghost use Rattle.stream_handler.specs.Outcomes.{due_for};
ghost use Rattle.stream_handler.specs.Replies.{due};

use crate::action::{Change, ask_for};
use crate::starting::NewDaemon;
use crate::{Framing, Outcome, Reply};
use daemon_board::{BoardFault, Daemons};
use expr_check::Checked;
use std::alloc::Global;
use tuple_values::{Memory, Text};

/// What a start is told: that it was made, that its id is taken, or that the board is full.
#[derive(Drop)]
pub(crate) struct StartTold<A> {
    pub(crate) started: A,
    pub(crate) taken: A,
    pub(crate) full: A,
}

impl<A: Drop> StartTold<A> {
    // What is told of the answer to a start. Want of memory stays.
    fn pick(self, answer: Result<(), BoardFault>) -> Result<A, Memory>
        ensures { IsStartPicked self answer result }
    {
        let StartTold {
            started,
            taken,
            full,
        } = self;
        match answer {
            Ok(()) => Ok(started),
            Err(BoardFault::DaemonTaken { .. }) => Ok(taken),
            Err(BoardFault::BoardFull) => Ok(full),
            Err(BoardFault::UnknownDaemon) | Err(BoardFault::OutOfMemory) => Err(
                Memory::OutOfMemory,
            ),
        }
    }
}

impl StartTold<Outcome> {
    // The responses that tell it, after so many milliseconds.
    fn replies(
        self,
        alloc: Global,
        framing: Framing,
        millis: u64,
    ) -> Result<StartTold<Reply>, Memory>
        ensures { IfOk result (λ told.
            each_start due told ≡ each_start (due_for framing millis) self) }
    {
        let StartTold {
            started,
            taken,
            full,
        } = self;
        let started = started.reply(alloc, framing, millis)?;
        let taken = taken.reply(alloc, framing, millis)?;
        let full = full.reply(alloc, framing, millis)?;
        Ok(StartTold {
            started,
            taken,
            full,
        })
    }
}

/// A request that is carried out at the site, with all that it may be answered.
#[derive(Drop)]
pub(crate) enum Prepared<A> {
    /// Nothing is left to ask.
    Told(A),
    /// A daemon is to be changed; it is there, or unknown.
    Change {
        what: Change,
        id: Text,
        made: A,
        unknown: A,
    },
    /// An expression is to be put on the board.
    Start {
        daemon: NewDaemon,
        checked: Checked,
        told: StartTold<A>,
    },
}

impl Prepared<Outcome> {
    /// The same with the response to each answer, after so many milliseconds.
    pub(crate) fn replies(
        self,
        alloc: Global,
        framing: Framing,
        millis: u64,
    ) -> Result<Prepared<Reply>, Memory>
        ensures { IfOk result (λ replies.
            each_told due replies ≡ each_told (due_for framing millis) self) }
    {
        match self {
            Prepared::Told(outcome) => Ok(Prepared::Told(outcome.reply(alloc, framing, millis)?)),
            Prepared::Change {
                what,
                id,
                made,
                unknown,
            } => {
                let made = made.reply(alloc, framing, millis)?;
                let unknown = unknown.reply(alloc, framing, millis)?;
                Ok(Prepared::Change {
                    what,
                    id,
                    made,
                    unknown,
                })
            }
            Prepared::Start {
                daemon,
                checked,
                told,
            } => {
                let told = told.replies(alloc, framing, millis)?;
                Ok(Prepared::Start {
                    daemon,
                    checked,
                    told,
                })
            }
        }
    }
}

// Asks the board for the change of a daemon at this time, and picks what is told.
fn ask_change<A: Drop, D: Daemons>(
    board: &mut D,
    what: Change,
    id: Text,
    made: A,
    unknown: A,
    now: u64,
) -> A
    ensures { IsChangeChosen now what id made unknown
        (board_state (D.shown board.old) (D.answers board.old))
        (board_state (D.shown board.new) (D.answers board.new)) result }
{
    match ask_for(board, what, id.as_str(), now) {
        Ok(()) => made,
        Err(_) => unknown,
    }
}

// Puts an expression on the board at this time, and picks what is told.
fn ask_start<A: Drop, D: Daemons>(
    alloc: Global,
    board: &mut D,
    daemon: NewDaemon,
    checked: Checked,
    told: StartTold<A>,
    now: u64,
) -> Result<A, Memory>
    ensures { IsStartAsked now daemon checked told
        (board_state (D.shown board.old) (D.answers board.old))
        (board_state (D.shown board.new) (D.answers board.new)) result }
{
    let NewDaemon {
        id,
        interval,
        terminate,
    } = daemon;
    let answer = board.start(alloc, id, checked, interval, terminate, now);
    told.pick(answer)
}

impl<A: Drop> Prepared<A> {
    /// Asks the board at this time, and picks what is told of its answer. Only a start may want
    /// memory.
    pub(crate) fn ask<D: Daemons>(self, alloc: Global, board: &mut D, now: u64) -> Result<A, Memory>
        ensures { IsChosen now self (board_state (D.shown board.old) (D.answers board.old))
            (board_state (D.shown board.new) (D.answers board.new)) result }
    {
        match self {
            Prepared::Told(told) => Ok(told),
            Prepared::Change {
                what,
                id,
                made,
                unknown,
            } => Ok(ask_change(board, what, id, made, unknown, now)),
            Prepared::Start {
                daemon,
                checked,
                told,
            } => ask_start(alloc, board, daemon, checked, told, now),
        }
    }
}
