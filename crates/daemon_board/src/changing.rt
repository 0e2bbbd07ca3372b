// Changes of the daemons that are kept.
ghost use Rattle.std.specs.Prelude.{◌≡◌, ◌∷◌, ◌++◌, [], false, is_some, string_bytes, OnOk, OnErr, IfErr};
ghost use Rattle.daemon_board.specs.declared.fault.BoardFault.TheVariants.{OutOfMemory};
ghost use Rattle.daemon_board.specs.Calls.{IsClaimOf};
ghost use Rattle.daemon_board.specs.Daemons.{change_first, claimed, finished, first_such, has_id, is_away, resumed, stopped, without_first};
ghost use Rattle.daemon_board.specs.Finding.{IsAtRest, shown_entries, wanted_in};

use crate::finding::{Kept, Wanted, place_of, place_with};
use crate::{BoardFault, Claim, Daemon};
use std::alloc::Global;
use tuple_values::Text;

/// Whether there is a daemon with an id.
pub(crate) fn is_there(daemons: &Kept, id: &str) -> bool
    ensures { result ≡ is_some (first_such (has_id id.now)
        (shown_entries string_bytes daemons.now.entries)) }
{
    place_with(daemons, id).is_some()
}

/// Puts a daemon behind the others, under an id that none has.
pub(crate) fn put(
    alloc: Global,
    daemons: &mut Kept,
    id: &str,
    daemon: Daemon,
) -> Result<(), BoardFault>
    requires { is_some (first_such (has_id id.now)
        (shown_entries string_bytes daemons.old.entries)) ≡ false }
    ensures done { OnOk result (shown_entries string_bytes daemons.new.entries
        ≡ shown_entries string_bytes daemons.old.entries ++ record { id = id.now; daemon = daemon } ∷ []) }
    ensures left { OnErr result (shown_entries string_bytes daemons.new.entries
        ≡ shown_entries string_bytes daemons.old.entries) }
    ensures want { IfErr result (λ fault. fault ≡ OutOfMemory) }
{
    let key = String::from_str(alloc, id)?;
    daemons.insert(key, daemon)?;
    Ok(())
}

/// Stops the daemon with an id, and answers whether there is one.
pub(crate) fn stop(daemons: &mut Kept, id: &str) -> bool
    ensures there { result ≡ is_some (first_such (has_id id.now)
        (shown_entries string_bytes daemons.old.entries)) }
    ensures stopped { shown_entries string_bytes daemons.new.entries
        ≡ change_first (has_id id.now) stopped (shown_entries string_bytes daemons.old.entries) }
{
    match place_with(daemons, id) {
        None => false,
        Some(place) => {
            if let Some(daemon) = daemons.get_index_mut(place) {
                daemon.stop();
            }
            true
        }
    }
}

/// Makes the daemon with an id run again, and answers whether there is one.
pub(crate) fn resume(daemons: &mut Kept, id: &str, now: u64) -> bool
    ensures there { result ≡ is_some (first_such (has_id id.now)
        (shown_entries string_bytes daemons.old.entries)) }
    ensures resumed { shown_entries string_bytes daemons.new.entries
        ≡ change_first (has_id id.now) (resumed now) (shown_entries string_bytes daemons.old.entries) }
{
    match place_with(daemons, id) {
        None => false,
        Some(place) => {
            if let Some(daemon) = daemons.get_index_mut(place) {
                daemon.resume(now);
            }
            true
        }
    }
}

/// Removes the daemon with an id, and answers whether there was one.
pub(crate) fn remove(daemons: &mut Kept, id: &str) -> bool
    ensures there { result ≡ is_some (first_such (has_id id.now)
        (shown_entries string_bytes daemons.old.entries)) }
    ensures removed { shown_entries string_bytes daemons.new.entries
        ≡ without_first (has_id id.now) (shown_entries string_bytes daemons.old.entries) }
{
    match place_with(daemons, id) {
        None => false,
        Some(place) => {
            daemons.shift_remove_index(place);
            true
        }
    }
}

/// Takes the expression of the daemon that is looked for out, which is at rest.
pub(crate) fn claim(daemons: &mut Kept, wanted: Wanted) -> Option<Claim>
    requires { IsAtRest wanted }
    ensures claim { IsClaimOf (first_such (wanted_in wanted)
        (shown_entries string_bytes daemons.old.entries)) result }
    ensures left { shown_entries string_bytes daemons.new.entries
        ≡ change_first (wanted_in wanted) claimed (shown_entries string_bytes daemons.old.entries) }
{
    match place_of(daemons, wanted) {
        None => None,
        Some(place) => match daemons.get_index_mut(place) {
            None => None,
            Some(daemon) => daemon.claim(),
        },
    }
}

/// Gives the expression of the daemon that is out back, after a run of it.
pub(crate) fn finish(daemons: &mut Kept, claim: Claim, tuples: u64, fault: Option<Text>, now: u64)
    ensures { shown_entries string_bytes daemons.new.entries
        ≡ change_first (is_away claim.number) (finished claim.checked tuples fault now)
        (shown_entries string_bytes daemons.old.entries) }
{
    match place_of(daemons, Wanted::Away(claim.number)) {
        None => {}
        Some(place) => {
            if let Some(daemon) = daemons.get_index_mut(place) {
                daemon.finish(claim.checked, tuples, fault, now);
            }
        }
    }
}
