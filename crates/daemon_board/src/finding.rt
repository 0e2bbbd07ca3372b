// Daemons that are looked for.
ghost use Rattle.std.specs.Prelude.{◌≡◌, ◌^◌, ◌-◌, string_bytes};
ghost use Rattle.daemon_board.specs.Daemons.{has_id, least_due};
ghost use Rattle.daemon_board.specs.Finding.{IsPlace, passes, shown_entries, wanted_in};

use crate::Daemon;
use indexmap::IndexMap;

/// The daemons by their ids, in the order in which they were put on the board.
pub(crate) type Kept = IndexMap<String, Daemon>;

/// Which daemon is looked for.
#[derive(Clone, Copy, PartialEq, Eq)]
pub(crate) enum Wanted {
    /// One that may run, put on the board after the one with a number.
    After(u64),
    /// One that is due, at a time.
    Due { now: u64, time: u64 },
    /// The one with a number, whose expression is out.
    Away(u64),
}

impl Wanted {
    fn passes(self, daemon: &Daemon) -> bool
        ensures { result ≡ passes self daemon.now }
    {
        match self {
            Wanted::After(number) => daemon.may_run() && number < daemon.number,
            Wanted::Due { now, time } => daemon.is_due(now) && daemon.next == time,
            Wanted::Away(number) => daemon.checked.is_none() && daemon.number == number,
        }
    }
}

/// The place of the daemon with an id.
pub(crate) fn place_with(daemons: &Kept, id: &str) -> Option<usize>
    ensures { IsPlace (has_id id.now) (shown_entries string_bytes daemons.now.entries) result }
{
    daemons.get_index_of(id)
}

/// The place of the first daemon that is looked for.
pub(crate) fn place_of(daemons: &Kept, wanted: Wanted) -> Option<usize>
    ensures { IsPlace (wanted_in wanted) (shown_entries string_bytes daemons.now.entries) result }
{
    for place in 0..daemons.len() {
        if let Some((_, daemon)) = daemons.get_index(place) {
            if wanted.passes(daemon) {
                return Some(place);
            }
        }
    }
    None
}

/// The least time among those of the daemons that are due, and the greatest number where none is.
pub(crate) fn least_due(daemons: &Kept, now: u64) -> u64
    ensures { result ≡ least_due now (2 ^ 64 - 1) (shown_entries string_bytes daemons.now.entries) }
{
    let mut least = u64::MAX;
    for place in 0..daemons.len() {
        if let Some((_, daemon)) = daemons.get_index(place) {
            if daemon.is_due(now) {
                least = least.min(daemon.next);
            }
        }
    }
    least
}
