// Items and metrics among the parameters.
ghost use Rattle.std.specs.Prelude.{◌≡◌, ◌++◌, [], OnOk};
ghost use Rattle.std.specs.List.{cons_option};
ghost use Rattle.expr_plan.specs.Given.{item_in, metric_in, metric_of_param};

use crate::param::{Given, Param};
use crate::{Item, Metric};
use tuple_values::{Memory, Sequence};

/// Adds an item at the end, where there is one.
pub(crate) fn push_some<T: Drop>(items: &mut Sequence<T>, item: Option<T>) -> Result<(), Memory>
    ensures { OnOk result (items.new ≡ items.old ++ cons_option item []) }
{
    match item {
        Some(item) => items.push(item),
        None => Ok(()),
    }
}

/// The item that a parameter is, where it is one.
pub(crate) fn item_in(given: Given) -> Option<Item>
    ensures { result ≡ item_in given.param }
{
    let Given { name, param } = given;
    drop(name);
    match param {
        Param::Item(item) => Some(item),
        rest => {
            drop(rest);
            None
        }
    }
}

/// The metric that a parameter is, where it is one.
pub(crate) fn metric_in(given: Given) -> Option<Metric>
    ensures { result ≡ metric_in given }
{
    let Given { name, param } = given;
    if name.as_str() == "metric" {
        metric_of(param)
    } else {
        drop(param);
        None
    }
}

fn metric_of(param: Param) -> Option<Metric>
    ensures { result ≡ metric_of_param param }
{
    match param {
        Param::Metric(metric) => Some(metric),
        rest => {
            drop(rest);
            None
        }
    }
}
