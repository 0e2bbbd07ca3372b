// A value of a tuple, held where a comparison meets it.
ghost use Rattle.std.specs.Prelude.{◌≡◌, Some, option_map};
ghost use Rattle.std.specs.Option.{option_cmp};
ghost use Rattle.tuple_values.specs.Document.{value_at};
ghost use Rattle.tuple_values.specs.Document as document;
ghost use Rattle.tuple_values.specs.Order.{datum_cmp};
ghost use Rattle.tuple_values.specs.Views.{datum_of};
ghost use Rattle.sort_spec.specs.Held.{held};

use arrayvec::ArrayString;
use std::cmp::Ordering;
use tuple_values::{Tuple, Value, compare};

/// A value of a tuple: a number, or a text of up to 16 bytes, is here; another is at a place of the tuple.
#[derive(Clone, Copy)]
pub(crate) enum Held {
    Absent,
    Long(i64),
    Near(ArrayString<16>),
    At(u64),
}

impl Held {
    /// The value under the name.
    pub(crate) fn of(tuple: &Tuple, name: &str) -> Held
        ensures { held tuple.now result ≡ value_at name.now tuple.now }
    {
        let place = tuple.place(name);
        match tuple.at_place(place) {
            None => Held::Absent,
            Some(Value::Long(n)) => Held::Long(*n),
            Some(Value::Text(text)) => match ArrayString::from(text.as_str()) {
                Ok(near) => Held::Near(near),
                Err(_) => Held::At(place),
            },
            Some(Value::Group(_)) => Held::At(place),
        }
    }
}

/// How two values compare, each of its tuple. Takes no memory.
pub(crate) fn compare_held(a: &Held, of: &Tuple, b: &Held, other: &Tuple) -> Ordering
    ensures { result ≡ option_cmp datum_cmp (held of.now a.now) (held other.now b.now) }
{
    match (a, b) {
        (Held::Long(a), Held::Long(b)) => a.cmp(b),
        (Held::Near(a), Held::Near(b)) => a.as_str().cmp(b.as_str()),
        (a, Held::Absent) => compare_to(a, of, None),
        (a, Held::Long(n)) => compare_to(a, of, Some(&Value::Long(*n))),
        (a, Held::At(place)) => compare_to(a, of, other.at_place(*place)),
        (a, Held::Near(text)) => compare_to_text(a, of, text.as_str()),
    }
}

// How a value compares with one that is lent.
fn compare_to(a: &Held, of: &Tuple, b: Option<&Value>) -> Ordering
    ensures { result ≡ option_cmp datum_cmp (held of.now a.now)
        (option_map (λ v. datum_of v.now) b.entry) }
{
    match a {
        Held::Absent => compare(None, b),
        Held::Long(n) => compare(Some(&Value::Long(*n)), b),
        Held::Near(text) => match b {
            None => Ordering::Greater,
            Some(Value::Long(_)) => Ordering::Greater,
            Some(Value::Text(other)) => text.as_str().cmp(other.as_str()),
            Some(Value::Group(_)) => Ordering::Less,
        },
        Held::At(place) => compare(of.at_place(*place), b),
    }
}

// How a value compares with a text.
fn compare_to_text(a: &Held, of: &Tuple, text: &str) -> Ordering
    ensures { result ≡ option_cmp datum_cmp (held of.now a.now) (Some (document.text text.now)) }
{
    match a {
        Held::Absent => Ordering::Less,
        Held::Long(_) => Ordering::Less,
        Held::Near(other) => other.as_str().cmp(text),
        Held::At(place) => match of.at_place(*place) {
            None => Ordering::Less,
            Some(Value::Long(_)) => Ordering::Less,
            Some(Value::Text(other)) => other.as_str().cmp(text),
            Some(Value::Group(_)) => Ordering::Greater,
        },
    }
}
