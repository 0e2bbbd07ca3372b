// Tests of keys and bindings.
ghost use Rattle.std.specs.Prelude.{◌≡◌, Decides};
ghost use Rattle.topic_book.specs.Alike.{is_alike};
ghost use Rattle.topic_book.specs.Books.{same_key, IsAlike};

use crate::{Binding, TopicKey};
use tuple_values::{FieldList, Text};

/// Whether the keys are the same.
pub fn same_key(a: &TopicKey, b: &TopicKey) -> bool
    ensures { result ≡ same_key a.now b.now }
{
    a.checkpoints.as_str() == b.checkpoints.as_str() && a.id.as_str() == b.id.as_str()
}

fn same_text(a: &Text, b: &Text) -> bool
    ensures { Decides result (a.now ≡ b.now) }
{
    a.as_str() == b.as_str()
}

#[tactic(auto, using(crate::proofs::AlikeLemmas::name_steps))]
fn same_names(a: &FieldList, b: &FieldList) -> bool
    ensures { Decides result (a.now ≡ b.now) }
{
    if a.len() != b.len() {
        return false;
    }
    let (left, right) = (a.as_slice(), b.as_slice());
    for i in 0..left.len() {
        if !same_text(&left[i], &right[i]) {
            return false;
        }
    }
    true
}

fn same_destination(a: &Option<Text>, b: &Option<Text>) -> bool
    ensures { Decides result (a.now ≡ b.now) }
{
    match (a, b) {
        (Some(left), Some(right)) => left.as_str() == right.as_str(),
        (None, None) => true,
        (Some(_), None) => false,
        (None, Some(_)) => false,
    }
}

// Whether the bindings agree, by one test after another.
fn agree(a: &Binding, b: &Binding) -> bool
    ensures { Decides result (IsAlike a.now b.now) }
{
    a.src.as_str() == b.src.as_str()
        && a.q.as_str() == b.q.as_str()
        && same_names(&a.fields, &b.fields)
        && same_destination(&a.dest, &b.dest)
}

/// Whether the bindings agree in all but the initial checkpoint.
pub fn is_alike(a: &Binding, b: &Binding) -> bool
    ensures tells { Decides result (IsAlike a.now b.now) }
    ensures test { result ≡ is_alike a.now b.now }
{
    agree(a, b)
}
