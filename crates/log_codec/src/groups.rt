// Tests of what has no spelling: documents that hold a group.
ghost use Rattle.std.specs.Prelude.{◌≡◌, ◌<◌, Decides};
ghost use Rattle.std.specs.List.{AllByRecursion};
ghost use Rattle.tuple_values.specs.Views.{datum_of};
ghost use Rattle.shard_versions.specs.Documents.{has_group, is_group};
ghost use Rattle.log_codec.specs.Entries.{holds_group, HasNoGroup};
ghost use Rattle.log_codec.specs.Steps.{entries_in, HoldsNoGroup};

use crate::StepRef;
use shard_versions::{Entry, Kind, Step};
use tuple_values::{Tuple, Value};

fn is_group(value: &Value) -> bool
    ensures { result ≡ is_group (datum_of value.now) }
{
    match value {
        Value::Group(_) => true,
        Value::Long(_) => false,
        Value::Text(_) => false,
    }
}

#[tactic(auto, using(shard_versions::proofs::FitLemmas::group_steps))]
fn has_group(document: &Tuple) -> bool
    ensures { result ≡ has_group document.now }
{
    for k in 0..document.count() {
        if is_group(document.value(k)) {
            return true;
        }
    }
    false
}

/// Whether the entry's document holds a group.
pub fn holds_group(e: &Entry) -> bool
    ensures { result ≡ holds_group e.now.kind }
{
    match &e.kind {
        Kind::Put(document) => has_group(document),
        Kind::Sent { document, .. } => has_group(document),
        Kind::Del(_) => false,
        Kind::Mark => false,
    }
}

// Whether no document of the entries holds a group.
#[tactic(auto, using(crate::proofs::GroupLemmas::group_steps))]
fn none_holds_group(step: &Step) -> bool
    ensures { Decides result (AllByRecursion HasNoGroup step.now) }
{
    for entry in step.as_slice() {
        if holds_group(entry) {
            return false;
        }
    }
    true
}

/// Whether no document of the step holds a group.
#[tactic(auto, using(crate::proofs::LentLemmas::lent_steps))]
pub fn holds_no_group(step: StepRef<'_>) -> bool
    ensures { Decides result (HoldsNoGroup (entries_in step.entry)) }
{
    match step {
        StepRef::Shard(entries) => none_holds_group(entries),
        StepRef::Book(_) => true,
    }
}
