// The order of values.
ghost use Rattle.std.specs.Prelude.{◌≡◌, ◌↔◌, IsTrue, option_map};
ghost use Rattle.std.specs.Option.{option_cmp};
ghost use Rattle.std.specs.Cmp.{IsTotalOrder};
ghost use Rattle.std.specs.declared.cmp.Ordering.TheVariants.{Equal};
ghost use Rattle.tuple_values.specs.Document.{Datum, rows_of, fields_of};
ghost use Rattle.tuple_values.specs.Order.{datum_cmp, rows_cmp, fields_cmp};
ghost use Rattle.tuple_values.specs.Views.{datum_of, doc_of};

use crate::value::Field;
use crate::{Tuple, Value};
use std::cmp::Ordering;

/// How two values compare: absent first, then numbers, then texts by their bytes, then groups
/// item by item (own rule). A proper prefix comes first.
pub fn compare(a: Option<&Value>, b: Option<&Value>) -> Ordering
    ensures { result ≡ option_cmp datum_cmp
        (option_map (λ v. datum_of v.now) a.entry) (option_map (λ v. datum_of v.now) b.entry) }
{
    match (a, b) {
        (None, None) => Ordering::Equal,
        (None, Some(_)) => Ordering::Less,
        (Some(_), None) => Ordering::Greater,
        (Some(a), Some(b)) => compare_values(a, b),
    }
}

#[cycle(comparing)]
fn compare_values(a: &Value, b: &Value) -> Ordering
    ensures { result ≡ datum_cmp (datum_of a.now) (datum_of b.now) }
{
    match (a, b) {
        (Value::Long(a), Value::Long(b)) => a.cmp(b),
        (Value::Long(_), _) => Ordering::Less,
        (Value::Text(_), Value::Long(_)) => Ordering::Greater,
        (Value::Text(a), Value::Text(b)) => a.as_str().cmp(b.as_str()),
        (Value::Text(_), Value::Group(_)) => Ordering::Less,
        (Value::Group(a), Value::Group(b)) => compare_groups(a.as_slice(), b.as_slice()),
        (Value::Group(_), _) => Ordering::Greater,
    }
}

#[cycle(comparing)]
fn compare_groups(a: &[Tuple], b: &[Tuple]) -> Ordering
    ensures { result ≡ rows_cmp (rows_of a.now) (rows_of b.now) }
{
    let mut k = 0;
    while k < a.len() && k < b.len() {
        let (left, right) = (&a[k], &b[k]);
        let order = compare_fields(left.fields(), right.fields());
        if order.is_ne() {
            return order;
        }
        k += 1;
    }
    a.len().cmp(&b.len())
}

#[cycle(comparing)]
fn compare_fields(a: &[Field], b: &[Field]) -> Ordering
    ensures { result ≡ fields_cmp (fields_of (doc_of a.now)) (fields_of (doc_of b.now)) }
{
    let mut k = 0;
    while k < a.len() && k < b.len() {
        let (left, right) = (&a[k], &b[k]);
        let order = left.name.as_str().cmp(right.name.as_str());
        if order.is_ne() {
            return order;
        }
        let order = compare_values(&left.value, &right.value);
        if order.is_ne() {
            return order;
        }
        k += 1;
    }
    a.len().cmp(&b.len())
}

/// The order of values is total, and values that compare equal are the same value.
pub fn order_is_total()
    ensures total { IsTotalOrder datum_cmp }
    ensures same { (left right : Datum) → datum_cmp left right ≡ Equal → left ≡ right }
{}

impl Tuple {
    /// Whether two tuples have the same fields.
    pub fn is_same(&self, other: &Tuple) -> bool
        ensures { IsTrue result ↔ (self.now ≡ other.now) }
    {
        compare_fields(self.fields(), other.fields()).is_eq()
    }
}
