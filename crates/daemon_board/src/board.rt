// The board of daemons in memory.
ghost use Rattle.std.specs.Prelude.{◌≡◌, ◌==◌, ◌||◌, ◌^◌, ◌-◌, nat_le, Ok, Err, Some, if◌then◌else◌};
ghost use Rattle.daemon_board.specs.Boards.{empty_board};
ghost use Rattle.daemon_board.specs.Calls.{Starts};
ghost use Rattle.daemon_board.specs.Daemons.{fresh, is_full};
ghost use Rattle.daemon_board.specs.declared.fault.BoardFault.TheVariants.{UnknownDaemon};

use crate::changing::{claim, finish, is_there, put, remove, resume, stop};
use crate::finding::{Kept, Wanted, least_due};
use crate::listing::list;
use crate::{Answers, BoardFault, Claim, Daemon, Daemons, State};
use expr_check::Checked;
use indexmap::IndexMap;
use std::alloc::Global;
use std::marker::Model;
use tuple_values::{Memory, Text, Tuples};

/// How many daemons a board has at most.
const DAEMONS: usize = 256;

/// The board of daemons in memory, which tells what it holds.
pub struct Board {
    daemons: Kept,
    put: u64,
    answers: Answers,
}

impl Drop for Board {
    fn drop(self) {
        let Board {
            daemons,
            put: _,
            answers,
        } = self;
        drop(daemons);
        drop(answers);
    }
}

impl Model for Board {
    ghost use Rattle.daemon_board.specs.Boards.{Told};
    ghost use Rattle.daemon_board.specs.Views.{told_of};
    ghost use Rattle.expr_check.specs.contracts.checked.Checked as c;
    ghost use Rattle.std.specs.Coded.{codes};

    ghost Value = { Told };

    ghost coded = { Prim.hlevel (codes, c.the_row.coded) };

    ghost view = { told_of };
}

impl Board {
    /// The board on which no daemon was ever put. Takes no memory.
    pub fn empty(alloc: Global) -> Board
        ensures { result ≡ empty_board }
    {
        Board {
            daemons: IndexMap::new(alloc),
            put: 0,
            answers: Answers::none(),
        }
    }

    fn is_full(&self) -> bool
        ensures { result ≡ is_full self.now.shown }
    {
        has_no_place(self.daemons.len(), self.put)
    }

    // Puts a daemon on the board, where its id isn't taken and there is a place.
    fn put_on(
        &mut self,
        alloc: Global,
        id: Text,
        checked: Checked,
        interval: u64,
        terminate: bool,
        now: u64,
    ) -> Result<(), BoardFault>
        ensures put { Starts id (fresh self.old.shown checked interval terminate now) result
            self.old.shown self.new.shown }
        ensures answers { self.new.answers ≡ self.old.answers }
    {
        if is_there(&self.daemons, id.as_str()) {
            return Err(BoardFault::DaemonTaken { id });
        }
        if self.is_full() {
            return Err(BoardFault::BoardFull);
        }
        let daemon = Daemon {
            number: self.put + 1,
            interval,
            terminate,
            next: now,
            state: State::Running,
            runs: 0,
            fault: None,
            checked: Some(checked),
        };
        put(alloc, &mut self.daemons, id.as_str(), daemon)?;
        self.put += 1;
        Ok(())
    }
}

// Whether there is no place beside so many daemons, when so many were put on the board.
fn has_no_place(daemons: usize, put: u64) -> bool
    ensures { result ≡ (nat_le 256 daemons || put == 2 ^ 64 - 1) }
{
    daemons >= DAEMONS || put == u64::MAX
}

// What a call answers of a daemon that is there, or isn't.
fn answer_of(there: bool) -> Result<(), BoardFault>
    ensures { result ≡ (if there then Ok tt else Err UnknownDaemon) }
{
    if there {
        Ok(())
    } else {
        Err(BoardFault::UnknownDaemon)
    }
}

impl Daemons for Board {
    ghost shown = { λ b. Some b.shown };

    ghost answers = { λ b. b.answers };

    fn start(
        &mut self,
        alloc: Global,
        id: Text,
        checked: Checked,
        interval: u64,
        terminate: bool,
        now: u64,
    ) -> Result<(), BoardFault> {
        let answer = self.put_on(alloc, id, checked, interval, terminate, now);
        self.answers.start(&answer);
        answer
    }

    fn stop(&mut self, id: &str) -> Result<(), BoardFault> {
        let answer = answer_of(stop(&mut self.daemons, id));
        self.answers.stop(&answer);
        answer
    }

    fn resume(&mut self, id: &str, now: u64) -> Result<(), BoardFault> {
        let answer = answer_of(resume(&mut self.daemons, id, now));
        self.answers.resume(&answer);
        answer
    }

    fn kill(&mut self, id: &str) -> Result<(), BoardFault> {
        let answer = answer_of(remove(&mut self.daemons, id));
        self.answers.kill(&answer);
        answer
    }

    fn list(&mut self, alloc: Global) -> Result<Tuples, Memory> {
        list(alloc, &self.daemons)
    }

    fn claim_due(&mut self, now: u64) -> Option<Claim> {
        let time = least_due(&self.daemons, now);
        claim(&mut self.daemons, Wanted::Due { now, time })
    }

    fn claim_next(&mut self, after: u64) -> Option<Claim> {
        claim(&mut self.daemons, Wanted::After(after))
    }

    fn finish(&mut self, claim: Claim, tuples: u64, fault: Option<Text>, now: u64) {
        finish(&mut self.daemons, claim, tuples, fault, now);
    }
}
