// Tests of expr_text, expr_plan and expr_check: that their calls succeed where there is memory, and
// that a checked expression may be given to another thread.
use expr_check::{CheckFault, Checked, Order, Roots};
use expr_plan::PlanFault;
use expr_text::read_checked;
use std::alloc::Global;
use std::test::Fail;
use tuple_values::{Memory, Names, Text};

fn is_sorted(checked: &Checked) -> bool {
    matches!(checked.order(), Order::By(_)) && checked.fields().contains("a")
}

fn is_read(alloc: Global, text: &[u8]) -> Result<bool, Fail> {
    let checked = read_checked(alloc, &Names::new(alloc), text, Roots::All)?;
    Ok(is_sorted(&checked))
}

#[test]
fn a_text_is_read_planned_and_checked(rt: HostRuntime) -> Result<(), Fail> {
    assert!(rt; is_read(rt.alloc(), b"sort(tuple(a=1),by=\"a asc\")")?);
    Ok(())
}

fn plan_fault(alloc: Global) -> Result<PlanFault, Memory> {
    let function = Text::of(alloc, "top")?;
    let name = Text::of(alloc, "n")?;
    Ok(PlanFault::MissingParam { function, name })
}

fn is_plan_told(alloc: Global, wanted: &str) -> Result<bool, Memory> {
    let told = plan_fault(alloc)?.text(alloc)?;
    Ok(told.as_str() == wanted)
}

#[test]
fn a_fault_of_a_plan_is_told(rt: HostRuntime) -> Result<(), Fail> {
    assert!(rt; is_plan_told(rt.alloc(), "MissingParam top n")?);
    Ok(())
}

fn is_check_told(alloc: Global, wanted: &str) -> Result<bool, Memory> {
    let name = Text::of(alloc, "c")?;
    let told = CheckFault::UnknownCollection { name }.text(alloc)?;
    Ok(told.as_str() == wanted)
}

#[test]
fn a_fault_of_a_check_is_told(rt: HostRuntime) -> Result<(), Fail> {
    assert!(rt; is_check_told(rt.alloc(), "UnknownCollection c")?);
    Ok(())
}

fn is_sent<T: Send>() {}

#[test]
fn a_checked_expression_goes_to_other_threads(_rt: HostRuntime) {
    is_sent::<Checked>();
}
