// Whether an event is allowed.
ghost use Rattle.std.specs.Prelude.{Decides, IfOk};
ghost use Rattle.once_core.specs.Worlds.{IsAllowedIn};

use crate::bind::may_bind;
use crate::dispatch::is_dispatch;
use crate::seen::Seen;
use crate::step::{are_plain, is_step};
use crate::store::may_store;
use crate::{Event, World};
use std::alloc::Global;
use tuple_values::{Memory, NameShards};

/// Whether the event is allowed to its actor.
pub(crate) fn is_allowed(
    alloc: Global,
    names: &[NameShards],
    world: &World,
    event: &Event,
) -> Result<bool, Memory>
    ensures { IfOk result (λ allowed. Decides allowed (IsAllowedIn names.now world.now event.now)) }
{
    match event {
        Event::Write { actor, cell, step } => {
            Ok(is_step(names, &world.histories, *actor, *cell, step) && are_plain(step.as_slice()))
        }
        Event::Look { cell, .. } => Ok(*cell as usize <= world.histories.shards.len()),
        Event::Send {
            actor,
            cell,
            src,
            step,
        } => {
            let actor = *actor;
            let seen = Seen {
                names,
                world,
                actor,
            };
            Ok(
                is_step(names, &world.histories, actor, *cell, step)
                    && is_dispatch(&seen, *cell, src.as_str(), step.as_slice()),
            )
        }
        Event::Bind { key, binding, .. } => {
            may_bind(alloc, names, world.histories.book.as_slice(), key, binding)
        }
        Event::Store { actor, key, upto } => {
            let actor = *actor;
            let seen = Seen {
                names,
                world,
                actor,
            };
            may_store(alloc, &seen, key, upto.as_slice())
        }
        Event::Forget { .. } => Ok(true),
    }
}
