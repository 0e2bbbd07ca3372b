// Updates, carried out at a site.
ghost use Rattle.std.specs.Prelude.{◌≡◌, ◌<◌, ◌||◌, IfOk, Ok};
ghost use Rattle.topic_book.specs.Fitness.{shards_of};
ghost use Rattle.exchange_rules.specs.Steps.{AreStorableWrites};
ghost use Rattle.json_text.specs.Updates.{update_in};
ghost use Rattle.exchange_rules.specs.Calls.{Carried};
ghost use Rattle.stream_handler.specs.Requests.{IsBadBody, IsRefusal, full_shard, update_course};
ghost use Rattle.root_runs.specs.Stays.{Stays};

use crate::Outcome;
use exchange_rules::SiteFault;
use json_text::{JsonFault, Update, read_update};
use root_runs::full_text;
use std::alloc::Global;
use stream_site::{Turns, index_over};
use tuple_values::{Memory, Text};

/// A shard that is full, and how many writes of the update stand.
#[derive(Drop)]
pub(crate) struct FullShard {
    collection: Text,
    shard: u16,
    stand: u64,
}

// The full shard that a refusal names, and none where memory was wanting; an update binds no topic. No
// site has logs yet: a log's fault ends it as want of memory does. It takes no memory, so neither can be
// told as the other.
fn full_shard(fault: SiteFault) -> Option<FullShard>
    ensures { result ≡ full_shard fault }
{
    match fault {
        SiteFault::ShardFull {
            collection,
            shard,
            stand,
        } => Some(FullShard {
            collection,
            shard,
            stand,
        }),
        SiteFault::TopicBound { .. }
        | SiteFault::BookFull { .. }
        | SiteFault::LogFault { .. }
        | SiteFault::CellClosed { .. }
        | SiteFault::OutOfMemory { .. } => None,
    }
}

// The answer to an update that was refused. Want of memory stays.
fn refusal(alloc: Global, fault: SiteFault) -> Result<Outcome, Memory>
    ensures { IfOk result (IsRefusal fault) }
{
    match full_shard(fault) {
        Some(full) => {
            let msg = full_text(alloc, &full.collection, full.shard, full.stand)?;
            Ok(Outcome::Refused { code: 507, msg })
        }
        None => Err(Memory::OutOfMemory),
    }
}

// Whether a commit is asked for, in the body or beside it.
fn is_asked(body: bool, beside: bool) -> bool
    ensures { result ≡ (body || beside) }
{
    body || beside
}

// An update that was read, carried out.
fn index<T: Turns>(
    alloc: Global,
    site: &mut T,
    collection: &Text,
    update: Update,
    commit: bool,
) -> Result<Outcome, Memory>
    requires known { 0 < shards_of (T.layout site.old).names collection.now }
    requires storable { AreStorableWrites update.writes }
    ensures course { Carried (T.writer site.old) (T.writer site.new)
        (update_course (T.layout site.old) collection.now commit (Ok update)) result }
    ensures stays { Stays T.layout T.home T.free site.old site.new }
{
    let commit = is_asked(update.commit, commit);
    match index_over(alloc, site, collection, update.writes, commit) {
        Ok(_) => Ok(Outcome::Indexed),
        Err(fault) => refusal(alloc, fault),
    }
}

// The answer to a body that is no update. Want of memory stays.
fn bad_body(alloc: Global, fault: &JsonFault) -> Result<Outcome, Memory>
    ensures { IfOk result (IsBadBody fault.now) }
{
    if let JsonFault::OutOfMemory = fault {
        return Err(Memory::OutOfMemory);
    }
    let msg = fault.text(alloc)?;
    Ok(Outcome::Refused { code: 400, msg })
}

/// The update that a body asks for, carried out at the site's collection, or refused.
pub(crate) fn run_update<T: Turns>(
    alloc: Global,
    site: &mut T,
    collection: &Text,
    commit: bool,
    body: &[u8],
) -> Result<Outcome, Memory>
    requires known { 0 < shards_of (T.layout site.old).names collection.now }
    ensures course { Carried (T.writer site.old) (T.writer site.new)
        (update_course (T.layout site.old) collection.now commit (update_in body.now)) result }
    ensures stays { Stays T.layout T.home T.free site.old site.new }
{
    match read_update(alloc, body) {
        Ok(update) => index(alloc, site, collection, update, commit),
        Err(fault) => bad_body(alloc, &fault),
    }
}
