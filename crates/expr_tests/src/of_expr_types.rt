// Tests of expr_types: that each copy succeeds where there is memory, and that expressions may be
// given to other threads.
use expr_types::{Comparison, Condition, Expr, GroupOp, Item, Metric};
use sort_spec::read_sort;
use std::alloc::Global;
use std::test::Fail;
use tuple_values::{Memory, Text, TryCopy, Tuple, Value};

fn item(alloc: Global) -> Result<Item, Memory> {
    let name = Text::of(alloc, "a")?;
    let to = Text::of(alloc, "b")?;
    Ok(Item::Field { name, to })
}

fn is_item_copied(alloc: Global) -> Result<bool, Memory> {
    let copy = item(alloc)?.copy(alloc)?;
    Ok(matches!(&copy, Item::Field { to, .. } if to.as_str() == "b"))
}

fn is_metric_copied(alloc: Global) -> Result<bool, Memory> {
    let copy = Metric::Sum(Text::of(alloc, "a")?).copy(alloc)?;
    let name = copy.name(alloc)?;
    Ok(name.as_str() == "sum(a)")
}

fn is_group_copied(alloc: Global) -> Result<bool, Fail> {
    let sort = read_sort(alloc, "a asc")?;
    let copy = GroupOp { sort, n: 2 }.copy(alloc)?;
    Ok(copy.n == 2)
}

#[test]
fn what_a_function_is_given_is_copied(rt: HostRuntime) -> Result<(), Fail> {
    assert!(rt; is_item_copied(rt.alloc())?);
    assert!(rt; is_metric_copied(rt.alloc())?);
    assert!(rt; is_group_copied(rt.alloc())?);
    Ok(())
}

fn condition(alloc: Global) -> Result<Condition, Memory> {
    let field = Text::of(alloc, "a")?;
    Ok(Condition::Compare {
        test: Comparison::Gt,
        field,
        literal: Value::Long(7),
    })
}

fn is_condition_copied(alloc: Global) -> Result<bool, Memory> {
    let copy = condition(alloc)?.copy(alloc)?;
    Ok(matches!(&copy, Condition::Compare { field, .. } if field.as_str() == "a"))
}

#[test]
fn a_condition_is_copied(rt: HostRuntime) -> Result<(), Fail> {
    assert!(rt; is_condition_copied(rt.alloc())?);
    Ok(())
}

fn sorted(alloc: Global) -> Result<Box<Expr>, Fail> {
    let by = read_sort(alloc, "a asc")?;
    let fields = Tuple::empty(alloc);
    let input = Box::new(alloc, Expr::Tuple { fields })?;
    Ok(Box::new(alloc, Expr::Sort { input, by })?)
}

fn is_copied(alloc: Global, expr: &Expr) -> Result<bool, Memory> {
    let copy = expr.copy(alloc)?;
    Ok(matches!(&copy, Expr::Sort { by, .. } if by.len() == 1))
}

fn is_sort_copied(alloc: Global) -> Result<bool, Fail> {
    let expr = sorted(alloc)?;
    Ok(is_copied(alloc, &expr)?)
}

#[test]
fn an_expression_is_copied(rt: HostRuntime) -> Result<(), Fail> {
    assert!(rt; is_sort_copied(rt.alloc())?);
    Ok(())
}

fn is_sent<T: Send>(_: &T) {}

#[test]
fn expressions_go_to_other_threads(rt: HostRuntime) {
    let fields = Tuple::empty(rt.alloc());
    is_sent(&Expr::Tuple { fields });
}
