// Tests of what a shard takes.
ghost use Rattle.std.specs.Prelude.{◌≡◌, ◌<◌, Decides};
ghost use Rattle.tuple_values.specs.Views.{datum_of};
ghost use Rattle.shard_versions.specs.Documents.{is_group, has_group, is_empty, is_storable};
ghost use Rattle.shard_versions.specs.Fitness.{is_storable_kind, is_routed, is_fit, AreStorable, IsFit};

use crate::document::id_of;
use crate::{Kind, Step};
use tuple_values::{Tuple, Value, shard_of};

/// Whether a shard keeps the document: it has an id, no group and no version of its own.
#[tactic(auto, unfolding(crate::specs::Documents::is_storable))]
pub fn is_storable(document: &Tuple) -> bool
    ensures { result ≡ is_storable document.now }
{
    !is_empty(id_of(document)) && !has_group(document) && document.get("_version_").is_none()
}

fn is_empty(text: &str) -> bool
    ensures { result ≡ is_empty text.now }
{
    text.is_empty()
}

fn is_group(value: &Value) -> bool
    ensures { result ≡ is_group (datum_of value.now) }
{
    match value {
        Value::Group(_) => true,
        Value::Long(_) => false,
        Value::Text(_) => false,
    }
}

#[tactic(auto, using(crate::proofs::FitLemmas::group_steps))]
fn has_group(document: &Tuple) -> bool
    ensures { result ≡ has_group document.now }
{
    for k in 0..document.count() {
        if is_group(document.value(k)) {
            return true;
        }
    }
    false
}

fn is_storable_kind(kind: &Kind) -> bool
    ensures { result ≡ is_storable_kind kind.now }
{
    match kind {
        Kind::Put(document) => is_storable(document),
        Kind::Sent { document, .. } => is_storable(document),
        Kind::Del(_) => true,
        Kind::Mark => true,
    }
}

fn is_routed(kind: &Kind, shards: u16, shard: u16) -> bool
    requires { 0 < shards }
    ensures { result ≡ is_routed shards shard kind.now }
{
    match kind {
        Kind::Put(document) => shard_of(id_of(document), shards) == shard,
        Kind::Sent { document, .. } => shard_of(id_of(document), shards) == shard,
        Kind::Del(id) => shard_of(id.as_str(), shards) == shard,
        Kind::Mark => true,
    }
}

fn is_fit(kind: &Kind, shards: u16, shard: u16) -> bool
    requires { 0 < shards }
    ensures { result ≡ is_fit shards shard kind.now }
{
    is_storable_kind(kind) && is_routed(kind, shards, shard)
}

/// Whether each document of the step can be kept.
#[tactic(auto, using(crate::proofs::FitLemmas::each_steps), unfolding(crate::specs::Fitness::AreStorable))]
pub fn are_storable(step: &Step) -> bool
    ensures { Decides result (AreStorable step.now) }
{
    for entry in step.as_slice() {
        if !is_storable_kind(&entry.kind) {
            return false;
        }
    }
    true
}

/// Whether this shard of so many may have the entries of the step.
#[tactic(auto, using(crate::proofs::FitLemmas::each_steps), unfolding(crate::specs::Fitness::IsFit))]
pub fn are_fit(step: &Step, shards: u16, shard: u16) -> bool
    requires { 0 < shards }
    ensures { Decides result (IsFit shards shard step.now) }
{
    for entry in step.as_slice() {
        if !is_fit(&entry.kind, shards, shard) {
            return false;
        }
    }
    true
}
