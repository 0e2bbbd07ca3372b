// Sorts and names as texts.
ghost use Rattle.std.specs.Prelude.{◌≡◌, ◌++◌, IfOk, OnOk, string_bytes};
ghost use Rattle.sort_spec.specs.Texts.{direction_word};
ghost use Rattle.expr_check.specs.Faults.{term_text, sort_text, names_text, has_text, terms_in};

use crate::Order;
use sort_spec::{SortSpec, SortTerm};
use std::alloc::{AllocError, Global};
use tuple_values::{FieldList, Memory, Text};

fn direction_word(descending: bool) -> &'static str
    ensures { result.now ≡ direction_word descending }
{
    if descending { "desc" } else { "asc" }
}

// Adds a term at the end of a text.
fn push_term(out: &mut String, term: &SortTerm) -> Result<(), AllocError>
    ensures { OnOk result (string_bytes out.new ≡ string_bytes out.old ++ term_text term.now) }
{
    out.push_str(term.field.as_str())?;
    out.push_str(" ")?;
    out.push_str(direction_word(term.descending))
}

/// A sort, as `a asc,b desc`.
#[tactic(auto, using(crate::proofs::TextLemmas::text_steps))]
pub(crate) fn sort_text(alloc: Global, sort: &SortSpec) -> Result<Text, Memory>
    ensures { IfOk result (λ text. text ≡ sort_text sort.now) }
{
    let mut out = String::new(alloc);
    let mut first = true;
    for term in sort.as_slice() {
        if !first {
            out.push_str(",")?;
        }
        push_term(&mut out, term)?;
        first = false;
    }
    Ok(Text::from_string(out))
}

/// Names between commas.
#[tactic(auto, using(crate::proofs::TextLemmas::text_steps))]
pub(crate) fn names_text(alloc: Global, names: &FieldList) -> Result<Text, Memory>
    ensures { IfOk result (λ text. text ≡ names_text names.now) }
{
    let mut out = String::new(alloc);
    let mut first = true;
    for name in names.as_slice() {
        if !first {
            out.push_str(",")?;
        }
        out.push_str(name.as_str())?;
        first = false;
    }
    Ok(Text::from_string(out))
}

/// The sort of an order, or `none` where it has no term.
pub(crate) fn has_text(alloc: Global, order: &Order) -> Result<Text, Memory>
    ensures { IfOk result (λ text. text ≡ has_text (terms_in order.now)) }
{
    match order {
        Order::By(sort) if sort.len() > 0 => sort_text(alloc, sort),
        _ => Text::of(alloc, "none"),
    }
}
