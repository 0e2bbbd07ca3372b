// What is told of a topic that stays bound as it is.
ghost use Rattle.std.specs.Prelude.{◌≡◌, IfOk};
ghost use Rattle.topic_book.specs.Kept.{dest_text, kept_text, names_text};

use crate::Binding;
use std::alloc::Global;
use tuple_values::{FieldList, Memory, Text};

// Names between commas.
#[tactic(auto, using(crate::proofs::KeptLemmas::text_steps))]
fn names_text(alloc: Global, names: &FieldList) -> Result<Text, Memory>
    ensures { IfOk result (λ text. text ≡ names_text names.now) }
{
    let mut out = String::new(alloc);
    let mut first = true;
    for name in names.as_slice() {
        if !first {
            out.push_str(",")?;
        }
        out.push_str(name.as_str())?;
        first = false;
    }
    Ok(Text::from_string(out))
}

// The destination, and `-` where there is none.
fn dest_text(binding: &Binding) -> &str
    ensures { result.now ≡ dest_text binding.now.dest }
{
    match &binding.dest {
        Some(dest) => dest.as_str(),
        None => "-",
    }
}

/// What a topic is bound to, as `src=S q=Q fl=F dest=D`: its fields with a comma between them, and
/// `-` for no destination.
pub fn kept_text(alloc: Global, binding: &Binding) -> Result<Text, Memory>
    ensures { IfOk result (λ text. text ≡ kept_text binding.now) }
{
    let fields = names_text(alloc, &binding.fields)?;
    let (src, q, fl) = (binding.src.as_str(), binding.q.as_str(), fields.as_str());
    let dest = dest_text(binding);
    let text = format!(in alloc; "src={src} q={q} fl={fl} dest={dest}")?;
    Ok(Text::from_string(text))
}
