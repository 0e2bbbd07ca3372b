// The replay of events up to the first one that isn't allowed.
ghost use Rattle.std.specs.Prelude.{IfOk};
ghost use Rattle.once_core.specs.Law.{IsLaw};
ghost use Rattle.once_core.specs.Replays.{IsReplay};

use crate::allowed::is_allowed;
use crate::{Events, World, next, nothing_yet};
use std::alloc::Global;
use tuple_values::{Memory, Names};

/// The world after the events before the first one that isn't allowed, and that one's place,
/// counted from 0.
#[derive(Drop)]
pub struct Replay {
    pub world: World,
    pub refused_at: Option<u64>,
}

/// Replays events, from nothing on, up to the first one that isn't allowed.
pub fn replay_events(alloc: Global, names: &Names, events: &Events) -> Result<Replay, Memory>
    ensures replay { IfOk result (λ r. IsReplay names.now events.now r.world r.refused_at) }
    ensures law { IfOk result (λ r. IsLaw names.now r.world.histories) }
{
    let names = names.as_slice();
    let events = events.as_slice();
    let mut world = nothing_yet(alloc, names)?;
    for i in 0..events.len() {
        let event = &events[i];
        let allowed = is_allowed(alloc, names, &world, event)?;
        if !allowed {
            return Ok(Replay {
                world,
                refused_at: Some(i as u64),
            });
        }
        world = next(alloc, world, event)?;
    }
    Ok(Replay {
        world,
        refused_at: None,
    })
}
