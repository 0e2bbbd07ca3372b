// A board that threads share, which doesn't tell what it holds.
ghost use Rattle.std.specs.Prelude.{◌≡◌, None};
ghost use Rattle.daemon_board.specs.Answers.{no_answers};

use crate::{Answers, Board, BoardFault, Claim, Daemons};
use expr_check::Checked;
use std::alloc::Global;
use std::sync::{Mutex, Wait};
use tuple_values::{Memory, Text, Tuples};

/// One thread's hold on a board behind a lock, which each call takes and gives back. It doesn't tell
/// what the board holds, since others change it between two calls, and counts its own answers.
#[derive(Drop)]
pub struct SharedBoard<'a, R: Wait> {
    rt: &'a R,
    board: &'a Mutex<Board>,
    answers: Answers,
}

impl<'a, R: Wait> SharedBoard<'a, R> {
    /// A hold on this board, before its first call.
    pub fn over(rt: &'a R, board: &'a Mutex<Board>) -> SharedBoard<'a, R>
        ensures { result.answers ≡ no_answers }
    {
        SharedBoard {
            rt,
            board,
            answers: Answers::none(),
        }
    }
}

impl<R: Wait> Daemons for SharedBoard<'_, R> {
    ghost shown = { λ _. None };

    ghost answers = { λ b. b.answers };

    fn start(
        &mut self,
        alloc: Global,
        id: Text,
        checked: Checked,
        interval: u64,
        terminate: bool,
        now: u64,
    ) -> Result<(), BoardFault> {
        let answer = self
            .board
            .lock(self.rt)
            .start(alloc, id, checked, interval, terminate, now);
        self.answers.start(&answer);
        answer
    }

    fn stop(&mut self, id: &str) -> Result<(), BoardFault> {
        let answer = self.board.lock(self.rt).stop(id);
        self.answers.stop(&answer);
        answer
    }

    fn resume(&mut self, id: &str, now: u64) -> Result<(), BoardFault> {
        let answer = self.board.lock(self.rt).resume(id, now);
        self.answers.resume(&answer);
        answer
    }

    fn kill(&mut self, id: &str) -> Result<(), BoardFault> {
        let answer = self.board.lock(self.rt).kill(id);
        self.answers.kill(&answer);
        answer
    }

    fn list(&mut self, alloc: Global) -> Result<Tuples, Memory> {
        self.board.lock(self.rt).list(alloc)
    }

    fn claim_due(&mut self, now: u64) -> Option<Claim> {
        self.board.lock(self.rt).claim_due(now)
    }

    fn claim_next(&mut self, after: u64) -> Option<Claim> {
        self.board.lock(self.rt).claim_next(after)
    }

    fn finish(&mut self, claim: Claim, tuples: u64, fault: Option<Text>, now: u64) {
        self.board.lock(self.rt).finish(claim, tuples, fault, now);
    }
}
