// The law, for every list of events.
ghost use Rattle.std.specs.Prelude.{List};
ghost use Rattle.tuple_values.specs.declared.names.NameShards.{NameShards};
ghost use Rattle.once_core.specs.Delivered.{IsDelivered};
ghost use Rattle.once_core.specs.Law.{IsLaw};
ghost use Rattle.once_core.specs.Worlds.{AreAllowed, nothing_yet, run};
ghost use Rattle.once_core.specs.declared.event.Event.{Event};
ghost use Rattle.once_core.specs.declared.world.Histories.{Histories};

/// Whatever allowed events come, in whatever order, the law holds of the histories after them.
pub fn law_holds()
    ensures { (names : List NameShards) (events : List Event)
        → AreAllowed names events (nothing_yet names)
        → IsLaw names (run events (nothing_yet names)).histories }
{}

/// Over all histories that keep the law: while nothing else writes a topic's destination, each
/// version is delivered at most once in all its shards, rising per id, and each current document
/// that the topic takes, between its initial and its stored checkpoint, is current there in that
/// version.
pub fn delivery_holds()
    ensures { (names : List NameShards) (hs : Histories) → IsLaw names hs → IsDelivered names hs }
{}
