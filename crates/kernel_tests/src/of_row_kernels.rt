// Tests of row_kernels: that conditions and items mean what the rules say, and that each call that
// takes memory succeeds.
use crate::feeding::given;
use crate::making::{names, value};
use crate::telling::has_fields;
use expr_types::{Comparison, Condition, Conditions, Item, Items};
use row_kernels::{HavingKernel, SelectKernel};
use std::alloc::Global;
use std::test::Fail;
use tuple_values::{Memory, Text, Tuples, Value};

// A tuple with the number a, the text b and the group g.
const ROW: [&str; 1] = ["a=5 b='10 g=*"];

fn is_kept(alloc: Global, condition: &Condition) -> Result<bool, Memory> {
    let given = given(alloc, HavingKernel::make(alloc, condition)?, &[&ROW])?;
    Ok(given.count() == 1)
}

fn comparison(
    alloc: Global,
    test: Comparison,
    field: &str,
    literal: &str,
) -> Result<Condition, Memory> {
    let field = Text::of(alloc, field)?;
    let literal = value(alloc, literal)?;
    Ok(Condition::Compare {
        test,
        field,
        literal,
    })
}

fn is_met(alloc: Global, test: Comparison, field: &str, literal: &str) -> Result<bool, Memory> {
    let condition = comparison(alloc, test, field, literal)?;
    is_kept(alloc, &condition)
}

const COMPARED: [(Comparison, &str, &str, bool); 16] = [
    (Comparison::Gt, "a", "'4", true),
    (Comparison::Gt, "a", "4", true),
    (Comparison::Gt, "a", "5", false),
    (Comparison::Gteq, "a", "5", true),
    (Comparison::Lt, "a", "'10", true),
    (Comparison::Lteq, "a", "4", false),
    (Comparison::Eq, "a", "'05", true),
    (Comparison::Eq, "a", "'x", false),
    (Comparison::Lt, "a", "'x", false),
    (Comparison::Lt, "b", "5", true),
    (Comparison::Eq, "b", "10", true),
    (Comparison::Eq, "b", "'010", false),
    (Comparison::Gt, "b", "'1", true),
    (Comparison::Eq, "g", "'", false),
    (Comparison::Lteq, "c", "4", false),
    (Comparison::Eq, "c", "'", false),
];

#[test]
fn a_comparison_is_by_the_kind_of_the_value(rt: HostRuntime) -> Result<(), Fail> {
    for (test, field, literal, want) in &COMPARED {
        let met = is_met(rt.alloc(), *test, field, literal)?;
        assert!(rt; met == *want, "of {field} with {literal}");
    }
    Ok(())
}

// A condition that holds, or doesn't.
fn constant(alloc: Global, is: bool) -> Result<Condition, Memory> {
    comparison(alloc, Comparison::Eq, "a", if is { "5" } else { "6" })
}

fn both(alloc: Global, left: bool, right: bool) -> Result<Conditions, Memory> {
    let mut conditions = Vec::new(alloc);
    conditions.push(constant(alloc, left)?)?;
    conditions.push(constant(alloc, right)?)?;
    Ok(conditions)
}

fn all_hold(alloc: Global, left: bool, right: bool) -> Result<bool, Memory> {
    let condition = Condition::All(both(alloc, left, right)?);
    is_kept(alloc, &condition)
}

fn any_holds(alloc: Global, left: bool, right: bool) -> Result<bool, Memory> {
    let condition = Condition::Any(both(alloc, left, right)?);
    is_kept(alloc, &condition)
}

fn one_holds(alloc: Global, left: bool, right: bool) -> Result<bool, Memory> {
    let left = Box::new(alloc, constant(alloc, left)?)?;
    let right = Box::new(alloc, constant(alloc, right)?)?;
    is_kept(alloc, &Condition::OneOf(left, right))
}

fn not_holds(alloc: Global, is: bool) -> Result<bool, Memory> {
    let condition = Condition::Not(Box::new(alloc, constant(alloc, is)?)?);
    is_kept(alloc, &condition)
}

// Whether all of two conditions, any or one of them, and not the first, hold so.
fn combine(alloc: Global, pair: (bool, bool), wanted: (bool, bool, bool)) -> Result<bool, Memory> {
    let (left, right) = pair;
    let (all, any, one) = wanted;
    Ok(
        all_hold(alloc, left, right)? == all
            && any_holds(alloc, left, right)? == any
            && one_holds(alloc, left, right)? == one
            && not_holds(alloc, left)? == !left,
    )
}

#[test]
fn conditions_combine(rt: HostRuntime) -> Result<(), Fail> {
    assert!(rt; combine(rt.alloc(), (false, false), (false, false, false))?);
    assert!(rt; combine(rt.alloc(), (false, true), (false, true, true))?);
    assert!(rt; combine(rt.alloc(), (true, false), (false, true, true))?);
    assert!(rt; combine(rt.alloc(), (true, true), (true, true, false))?);
    Ok(())
}

fn add_field(alloc: Global, items: &mut Items, name: &str, to: &str) -> Result<(), Memory> {
    let name = Text::of(alloc, name)?;
    let to = Text::of(alloc, to)?;
    items.push(Item::Field { name, to })
}

fn add_concat(alloc: Global, items: &mut Items, fields: &str, into: &str) -> Result<(), Memory> {
    let fields = names(alloc, fields)?;
    let into = Text::of(alloc, into)?;
    let delim = Text::of(alloc, "-")?;
    items.push(Item::Concat {
        fields,
        into,
        delim,
    })
}

// A value, and none for no text.
fn optional(alloc: Global, text: &str) -> Result<Option<Value>, Memory> {
    if text.is_empty() {
        return Ok(None);
    }
    Ok(Some(value(alloc, text)?))
}

fn add_replace(
    alloc: Global,
    items: &mut Items,
    field: &str,
    old: &str,
    new: &str,
) -> Result<(), Memory> {
    let field = Text::of(alloc, field)?;
    let old = optional(alloc, old)?;
    let new = optional(alloc, new)?;
    items.push(Item::Replace { field, old, new })
}

// Whether a select by these items makes this one tuple.
fn make(alloc: Global, items: &Items, fields: &str) -> Result<bool, Memory> {
    let given = given(alloc, SelectKernel::make(alloc, items)?, &[&ROW])?;
    Ok(is_one(&given, fields))
}

fn is_one(tuples: &Tuples, fields: &str) -> bool {
    tuples.count() == 1 && has_fields(tuples.get(0), fields)
}

fn add_changes(alloc: Global, items: &mut Items) -> Result<(), Memory> {
    add_concat(alloc, items, "c x d", "e")?;
    add_replace(alloc, items, "c", "5", "2")?;
    add_field(alloc, items, "a", "c")?;
    add_field(alloc, items, "b", "d")?;
    add_field(alloc, items, "x", "y")?;
    add_field(alloc, items, "a", "f")?;
    add_concat(alloc, items, "x", "z")
}

fn are_changed_in_order(alloc: Global, fields: &str) -> Result<bool, Memory> {
    let mut items = Items::new(alloc);
    add_changes(alloc, &mut items)?;
    make(alloc, &items, fields)
}

#[test]
fn fields_are_chosen_and_then_changed_in_order(rt: HostRuntime) -> Result<(), Fail> {
    assert!(rt; are_changed_in_order(rt.alloc(), "c=2 d='10 e='5-10 f=5")?);
    Ok(())
}

fn add_later(alloc: Global, items: &mut Items) -> Result<(), Memory> {
    add_field(alloc, items, "a", "c")?;
    add_field(alloc, items, "b", "c")?;
    add_field(alloc, items, "x", "c")?;
    add_field(alloc, items, "g", "g")?;
    add_replace(alloc, items, "n", "", "-1")?;
    add_replace(alloc, items, "g", "*", "")
}

fn are_later(alloc: Global, fields: &str) -> Result<bool, Memory> {
    let mut items = Items::new(alloc);
    add_later(alloc, &mut items)?;
    make(alloc, &items, fields)
}

#[test]
fn a_later_field_wins_and_null_is_absent(rt: HostRuntime) -> Result<(), Fail> {
    assert!(rt; are_later(rt.alloc(), "c='10 n=-1")?);
    Ok(())
}
