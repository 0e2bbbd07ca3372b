// Metrics with their names.
ghost use Rattle.std.specs.Prelude.{◌≡◌, IfOk, map};
ghost use Rattle.expr_types.specs.Groups.{metric_name};

use expr_types::Metric;
use std::alloc::Global;
use tuple_values::{Memory, Text, TryCopy};

/// A metric with its name, so that it is made once and not for each group.
#[derive(Drop)]
pub(crate) struct Named {
    pub name: Text,
    pub metric: Metric,
    ghost named: { name ≡ metric_name metric },
}

/// Metrics with their names.
pub(crate) fn all_named(alloc: Global, metrics: &[Metric]) -> Result<Vec<Named>, Memory>
    ensures { IfOk result (λ all. map (λ n. n.metric) all.items ≡ metrics.now) }
{
    let mut all = Vec::new(alloc);
    for metric in metrics {
        all.push(with_name(alloc, metric)?)?;
    }
    Ok(all)
}

fn with_name(alloc: Global, metric: &Metric) -> Result<Named, Memory>
    ensures { IfOk result (λ named. named.metric ≡ metric.now) }
{
    let name = metric.name(alloc)?;
    let metric = metric.copy(alloc)?;
    Ok(Named { name, metric })
}
