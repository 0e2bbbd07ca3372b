// Daemons.
ghost use Rattle.std.specs.Prelude.{◌≡◌, ◌&&◌, nat_lt, option_map};
ghost use Rattle.daemon_board.specs.Daemons.{claimed, finished, is_away, is_due, is_running, later, may_run, resumed, state_after, stopped};

use crate::Claim;
use expr_check::Checked;
use tuple_values::Text;

/// Whether a daemon runs at its times.
#[derive(Clone, Copy, PartialEq, Eq)]
pub enum State {
    /// It does.
    Running,
    /// It was stopped.
    Stopped,
    /// It was to terminate, and its last run read no tuple.
    Ended,
}

impl State {
    fn is_running(self) -> bool
        ensures { result ≡ is_running self }
    {
        match self {
            State::Running => true,
            State::Stopped | State::Ended => false,
        }
    }
}

/// A daemon: its number, how long it rests after a run in milliseconds, whether it ends after a run
/// that reads nothing, when it is due, how often it ran, the text of its last run's fault, and its
/// expression, which is out while it is run.
#[derive(Drop)]
pub struct Daemon {
    pub number: u64,
    pub interval: u64,
    pub terminate: bool,
    pub next: u64,
    pub state: State,
    pub runs: u64,
    pub fault: Option<Text>,
    pub checked: Option<Checked>,
}

impl Daemon {
    pub(crate) fn stop(&mut self)
        ensures { self.new ≡ stopped self.old }
    {
        if self.state.is_running() {
            self.state = State::Stopped;
        }
    }

    pub(crate) fn resume(&mut self, now: u64)
        ensures { self.new ≡ resumed now self.old }
    {
        if !self.state.is_running() {
            self.state = State::Running;
            self.next = now;
        }
    }

    pub(crate) fn may_run(&self) -> bool
        ensures { result ≡ may_run self.now }
    {
        self.state.is_running() && self.checked.is_some()
    }

    pub(crate) fn is_due(&self, now: u64) -> bool
        ensures { result ≡ is_due now self.now }
    {
        self.may_run() && self.next <= now
    }

    // The expression is taken out.
    pub(crate) fn claim(&mut self) -> Option<Claim>
        ensures left { self.new ≡ claimed self.old }
        ensures claim { option_map (λ c. c.checked) result ≡ self.old.checked }
        ensures number { option_map (λ c. c.number) result ≡ option_map (λ e. self.old.number) self.old.checked }
    {
        match self.checked.take() {
            Some(checked) => Some(Claim {
                number: self.number,
                checked,
            }),
            None => None,
        }
    }

    fn state_after(&self, tuples: u64, fault: &Option<Text>) -> State
        ensures { result ≡ state_after self.now tuples fault.now }
    {
        if self.terminate && fault.is_none() && tuples == 0 {
            State::Ended
        } else {
            self.state
        }
    }

    pub(crate) fn finish(&mut self, checked: Checked, tuples: u64, fault: Option<Text>, now: u64)
        ensures { self.new ≡ finished checked tuples fault now self.old }
    {
        self.state = self.state_after(tuples, &fault);
        self.next = now.saturating_add(self.interval);
        self.runs = self.runs.saturating_add(1);
        self.fault = fault;
        self.checked = Some(checked);
    }
}
