// The metrics of the tuples of one key.
ghost use Rattle.std.specs.Prelude.{◌≡◌, IfOk, map};
ghost use Rattle.expr_types.specs.Groups.{key_of, rolled, metric_name, metric_of, with_number};

use crate::metric::metric_of;
use crate::named::Named;
use std::alloc::Global;
use tuple_values::{FieldList, Memory, TryCopy, Tuple, Value};

/// The fields of the key and the metrics, as one tuple.
pub(crate) fn rolled(
    alloc: Global,
    names: &FieldList,
    metrics: &[Named],
    run: &[Tuple],
) -> Result<Tuple, Memory>
    ensures { IfOk result (λ row.
        row ≡ rolled names.now (map (λ n. n.metric) metrics.now) run.now) }
{
    let mut row = key_of(alloc, names, run)?;
    for metric in metrics {
        row = with_metric(alloc, row, metric, run)?;
    }
    Ok(row)
}

// The named fields of the first tuple.
fn key_of(alloc: Global, names: &FieldList, run: &[Tuple]) -> Result<Tuple, Memory>
    ensures { IfOk result (λ row. row ≡ key_of names.now run.now) }
{
    match run {
        [] => Ok(Tuple::empty(alloc)),
        [first, ..] => first.cut(alloc, names),
    }
}

// The tuple with a metric under its name, where it is present.
fn with_metric(alloc: Global, row: Tuple, metric: &Named, run: &[Tuple]) -> Result<Tuple, Memory>
    ensures { IfOk result (λ more. more
        ≡ with_number (metric_name metric.now.metric) (metric_of metric.now.metric run.now) row) }
{
    let Some(n) = metric_of(&metric.metric, run) else {
        return Ok(row);
    };
    let mut row = row;
    row.put(metric.name.copy(alloc)?, Value::Long(n))?;
    Ok(row)
}
