// What a board of daemons does.
ghost use Rattle.std.specs.Prelude.{◌≡◌, Option};
ghost use Rattle.daemon_board.specs.Answers.{after_kill, after_resume, after_start, after_stop};
ghost use Rattle.daemon_board.specs.Calls.{Changes, Claims, Finishes, Kills, Lists, Starts, WhereTold};
ghost use Rattle.daemon_board.specs.Daemons.{Shown, fresh, is_first_due, may_run_after, resumed, stopped};
ghost use Rattle.daemon_board.specs.declared.answers.Answers.{Answers};

use crate::{BoardFault, Claim};
use expr_check::Checked;
use std::alloc::Global;
use tuple_values::{Memory, Text, Tuples};

/// A board of daemons, which may tell what it holds. Each answer of `start`, `stop`, `resume` and
/// `kill` is counted. Times are milliseconds.
pub trait Daemons: Drop {
    /// What it holds, where it tells.
    ghost shown: { Self → Option Shown };

    /// How often it gave each answer.
    ghost answers: { Self → Answers };

    /// Puts a daemon on the board, which runs from now on.
    fn start(
        &mut self,
        alloc: Global,
        id: Text,
        checked: Checked,
        interval: u64,
        terminate: bool,
        now: u64,
    ) -> Result<(), BoardFault>
        ensures told { WhereTold (shown self.old) (shown self.new) (λ old new.
            Starts id (fresh old checked interval terminate now) result old new) }
        ensures counted { answers self.new ≡ after_start result (answers self.old) };

    /// Stops the daemon with the id; one that doesn't run stays as it is. Takes no memory.
    fn stop(&mut self, id: &str) -> Result<(), BoardFault>
        ensures told { WhereTold (shown self.old) (shown self.new) (Changes id.now stopped result) }
        ensures counted { answers self.new ≡ after_stop result (answers self.old) };

    /// Makes the daemon with the id run again, from now on; one that runs stays as it is. Takes no
    /// memory.
    fn resume(&mut self, id: &str, now: u64) -> Result<(), BoardFault>
        ensures told { WhereTold (shown self.old) (shown self.new)
            (Changes id.now (resumed now) result) }
        ensures counted { answers self.new ≡ after_resume result (answers self.old) };

    /// Removes the daemon with the id; the others keep their order. Takes no memory.
    fn kill(&mut self, id: &str) -> Result<(), BoardFault>
        ensures told { WhereTold (shown self.old) (shown self.new) (Kills id.now result) }
        ensures counted { answers self.new ≡ after_kill result (answers self.old) };

    /// One tuple for each daemon, in the order in which they were put on the board: its `id`,
    /// `iterations`, its `state`, and the `fault` of its last run where it had one.
    fn list(&mut self, alloc: Global) -> Result<Tuples, Memory>
        ensures told { WhereTold (shown self.old) (shown self.new) (Lists result) }
        ensures counted { answers self.new ≡ answers self.old };

    /// The running daemon at rest whose time has come and is least, and among those with one time the
    /// one that was put on the board first. Takes no memory.
    fn claim_due(&mut self, now: u64) -> Option<Claim>
        ensures told { WhereTold (shown self.old) (shown self.new) (λ old new.
            Claims (is_first_due now old.daemons) result old new) }
        ensures counted { answers self.new ≡ answers self.old };

    /// The first running daemon at rest that was put on the board after the one with a number. Takes
    /// no memory.
    fn claim_next(&mut self, after: u64) -> Option<Claim>
        ensures told { WhereTold (shown self.old) (shown self.new) (Claims (may_run_after after) result) }
        ensures counted { answers self.new ≡ answers self.old };

    /// Counts a run that read so many tuples, keeps the text of its fault, and gives the expression
    /// back. The claim of a daemon that isn't out is dropped, and changes nothing. Takes no memory.
    fn finish(&mut self, claim: Claim, tuples: u64, fault: Option<Text>, now: u64)
        ensures told { WhereTold (shown self.old) (shown self.new)
            (Finishes claim tuples fault now) }
        ensures counted { answers self.new ≡ answers self.old };
}
