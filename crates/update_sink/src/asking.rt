// What a topic asks for.
ghost use Rattle.std.specs.Prelude.{◌≡◌, IfOk, option_map};
ghost use Rattle.topic_book.specs.declared.topic.Binding.{Binding};
ghost use Rattle.expr_check.specs.Roots.{topic_parts};
ghost use Rattle.exchange_rules.specs.Topics.{binding_for};
ghost use Rattle.update_sink.specs.Topics.{asked_of, key_of};

use expr_check::TopicRoot;
use std::alloc::Global;
use topic_book::{Binding, TopicKey};
use tuple_values::{Memory, Text, TryCopy, Versions};

/// The key of a topic.
pub(crate) fn key_of(alloc: Global, topic: &TopicRoot<'_>) -> Result<TopicKey, Memory>
    ensures { IfOk result (λ key. key ≡ key_of (topic_parts topic.now)) }
{
    let checkpoints = topic.checkpoints.copy(alloc)?;
    let id = topic.id.copy(alloc)?;
    Ok(TopicKey { checkpoints, id })
}

// The same destination, if any.
fn copy_dest(alloc: Global, dest: Option<&Text>) -> Result<Option<Text>, Memory>
    ensures { IfOk result (λ made. made ≡ option_map (λ d. d.now) dest.entry) }
{
    match dest {
        Some(dest) => Ok(Some(dest.copy(alloc)?)),
        None => Ok(None),
    }
}

/// The binding of a topic that is delivered to this destination, if any, from these versions on.
pub(crate) fn binding_of(
    alloc: Global,
    topic: &TopicRoot<'_>,
    dest: Option<&Text>,
    init: Versions,
) -> Result<Binding, Memory>
    ensures { IfOk result (λ binding. binding ≡ binding_for
        (asked_of (topic_parts topic.now) (option_map (λ d. d.now) dest.entry)) init) }
{
    let src = topic.collection.copy(alloc)?;
    let q = topic.q_text.copy(alloc)?;
    let fields = topic.fl.copy(alloc)?;
    let dest = copy_dest(alloc, dest)?;
    Ok(Binding {
        src,
        q,
        fields,
        dest,
        init,
    })
}
