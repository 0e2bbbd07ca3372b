// How often a board gave each answer.
ghost use Rattle.std.specs.Prelude.{◌≡◌};
ghost use Rattle.daemon_board.specs.Answers.{after_kill, after_resume, after_start, after_stop, counted, no_answers};

use crate::BoardFault;

/// How often a board gave each answer; each count stays at the greatest number of 64 bits. Want of
/// memory counts as no answer.
#[derive(Clone, Copy, PartialEq, Eq)]
pub struct Answers {
    pub started: u64,
    pub taken: u64,
    pub full: u64,
    pub stopped: u64,
    pub not_stopped: u64,
    pub resumed: u64,
    pub not_resumed: u64,
    pub killed: u64,
    pub not_killed: u64,
}

fn counted(count: u64) -> u64
    ensures { result ≡ counted count }
{
    count.saturating_add(1)
}

impl Answers {
    /// The counts before the first call.
    pub fn none() -> Answers
        ensures { result ≡ no_answers }
    {
        Answers {
            started: 0,
            taken: 0,
            full: 0,
            stopped: 0,
            not_stopped: 0,
            resumed: 0,
            not_resumed: 0,
            killed: 0,
            not_killed: 0,
        }
    }

    pub(crate) fn start(&mut self, answer: &Result<(), BoardFault>)
        ensures { self.new ≡ after_start answer.now self.old }
    {
        match answer {
            Ok(()) => self.started = counted(self.started),
            Err(BoardFault::DaemonTaken { .. }) => self.taken = counted(self.taken),
            Err(BoardFault::BoardFull) => self.full = counted(self.full),
            Err(BoardFault::UnknownDaemon) => {}
            Err(BoardFault::OutOfMemory) => {}
        }
    }

    pub(crate) fn stop(&mut self, answer: &Result<(), BoardFault>)
        ensures { self.new ≡ after_stop answer.now self.old }
    {
        match answer {
            Ok(()) => self.stopped = counted(self.stopped),
            Err(_) => self.not_stopped = counted(self.not_stopped),
        }
    }

    pub(crate) fn resume(&mut self, answer: &Result<(), BoardFault>)
        ensures { self.new ≡ after_resume answer.now self.old }
    {
        match answer {
            Ok(()) => self.resumed = counted(self.resumed),
            Err(_) => self.not_resumed = counted(self.not_resumed),
        }
    }

    pub(crate) fn kill(&mut self, answer: &Result<(), BoardFault>)
        ensures { self.new ≡ after_kill answer.now self.old }
    {
        match answer {
            Ok(()) => self.killed = counted(self.killed),
            Err(_) => self.not_killed = counted(self.not_killed),
        }
    }
}
