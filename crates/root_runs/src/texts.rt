// What is told of the faults of updates, commits and topics.
ghost use Rattle.std.specs.Prelude.{◌≡◌, IfOk};
ghost use Rattle.expr_check.specs.Roots.{topic_parts};
ghost use Rattle.root_runs.specs.Texts.{Told, bound_text, full_text, run_told, site_told, topic_told};
ghost use Rattle.update_sink.specs.Topics.{key_of};

use exchange_rules::{RunFault, SiteFault};
use expr_check::TopicRoot;
use std::alloc::Global;
use topic_book::{Binding, kept_text};
use tuple_values::{Memory, Text};

/// What is told of a shard that is full, when so many writes of the request stand.
pub fn full_text(alloc: Global, collection: &Text, shard: u16, stand: u64) -> Result<Text, Memory>
    ensures { IfOk result (λ text. text ≡ full_text collection.now shard stand) }
{
    let collection = collection.as_str();
    let text = format!(in alloc; "ShardFull {collection} {shard} after {stand} writes")?;
    Ok(Text::from_string(text))
}

/// What is told of a refusal of the site, when so many writes of the request stand. Want of memory
/// stays. No site has logs yet: a log's fault ends it as want of memory does.
pub(crate) fn site_told(alloc: Global, stand: u64, fault: &SiteFault) -> Result<Text, Memory>
    ensures { IfOk result (λ text. Told fault.now (text ≡ site_told stand fault.now)) }
{
    match fault {
        SiteFault::ShardFull {
            collection,
            shard,
            ..
        } => full_text(alloc, collection, *shard, stand),
        SiteFault::TopicBound { .. } => Text::of(alloc, "TopicBound"),
        SiteFault::BookFull { .. } => Text::of(alloc, "BookFull 1000"),
        SiteFault::LogFault { .. } | SiteFault::CellClosed { .. } | SiteFault::OutOfMemory { .. } =>
            Err(Memory::OutOfMemory),
    }
}

// What is told of a tuple that can't be written.
fn bad_tuple(alloc: Global, at: u64, field: &Text) -> Result<Text, Memory>
    ensures { IfOk result (λ text. text ≡ run_told 0 (RunFault.BadTuple at field.now)) }
{
    let field = field.as_str();
    let text = format!(in alloc; "BadTuple {at} {field}")?;
    Ok(Text::from_string(text))
}

// What is told of a tuple that is too large.
fn too_large(alloc: Global, at: u64) -> Result<Text, Memory>
    ensures { IfOk result (λ text. text ≡ run_told 0 (RunFault.TupleTooLarge at)) }
{
    let text = format!(in alloc; "TupleTooLarge {at}")?;
    Ok(Text::from_string(text))
}

/// What is told of the fault of an update, when so many writes of the request stand. Want of memory
/// stays.
pub(crate) fn run_told(alloc: Global, stand: u64, fault: &RunFault) -> Result<Text, Memory>
    ensures { IfOk result (λ text. text ≡ run_told stand fault.now) }
{
    match fault {
        RunFault::BadTuple { at, field } => bad_tuple(alloc, *at, field),
        RunFault::TupleTooLarge { at } => too_large(alloc, *at),
        RunFault::Site(fault) => site_told(alloc, stand, fault),
    }
}

// What is told of a topic that is bound to other values.
fn bound_text(alloc: Global, topic: &TopicRoot<'_>, kept: &Binding) -> Result<Text, Memory>
    ensures { IfOk result (λ text. text ≡ bound_text (key_of (topic_parts topic.now)) kept.now) }
{
    let kept = kept_text(alloc, kept)?;
    let (checkpoints, id) = (topic.checkpoints.as_str(), topic.id.as_str());
    let kept = kept.as_str();
    let text = format!(in alloc; "TopicBound {checkpoints} {id} kept {kept}")?;
    Ok(Text::from_string(text))
}

/// What is told of a refusal of the site in the run of a topic, when so many writes of the request
/// stand. Want of memory stays, and a log's fault as above.
pub(crate) fn topic_told(
    alloc: Global,
    topic: &TopicRoot<'_>,
    stand: u64,
    fault: &SiteFault,
) -> Result<Text, Memory>
    ensures { IfOk result (λ text. Told fault.now (text
        ≡ topic_told (key_of (topic_parts topic.now)) stand fault.now)) }
{
    match fault {
        SiteFault::ShardFull {
            collection,
            shard,
            ..
        } => full_text(alloc, collection, *shard, stand),
        SiteFault::TopicBound { kept } => bound_text(alloc, topic, kept),
        SiteFault::BookFull { .. } => Text::of(alloc, "BookFull 1000"),
        SiteFault::LogFault { .. } | SiteFault::CellClosed { .. } | SiteFault::OutOfMemory { .. } =>
            Err(Memory::OutOfMemory),
    }
}
