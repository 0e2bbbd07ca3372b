// Sums and extremes of a field.
ghost use Rattle.std.specs.Prelude.{◌≡◌};
ghost use Rattle.tuple_values.specs.Document.{value_at};
ghost use Rattle.expr_types.specs.Groups.{metric_of, long_in, numbers_of, wrapped_sum, foremost};
ghost use Rattle.group_kernels.specs.Numbers.{of_two, added, nearer};

use expr_types::Metric;
use tuple_values::{Text, Tuple, Value};

/// What a metric is over tuples; none where it is absent.
pub(crate) fn metric_of(metric: &Metric, run: &[Tuple]) -> Option<i64>
    ensures { result ≡ metric_of metric.now run.now }
{
    match metric {
        Metric::Sum(field) => Some(sum_of(field, run)),
        Metric::Min(field) => foremost(field, run, false),
        Metric::Max(field) => foremost(field, run, true),
        Metric::Count => Some((run.len() as u64).cast_signed()),
    }
}

// The sum of a field's numbers, which wraps round.
fn sum_of(field: &Text, run: &[Tuple]) -> i64
    ensures { result ≡ wrapped_sum (numbers_of field.now run.now) }
{
    let mut sum = 0;
    for tuple in run {
        sum = added(sum, number_at(field, tuple));
    }
    sum
}

// The least or the greatest of a field's numbers.
fn foremost(field: &Text, run: &[Tuple], greatest: bool) -> Option<i64>
    ensures { result ≡ foremost (of_two greatest) (numbers_of field.now run.now) }
{
    let mut best = None;
    for tuple in run {
        best = nearer(best, number_at(field, tuple), greatest);
    }
    best
}

// The number of a field, where it has one.
fn number_at(field: &Text, tuple: &Tuple) -> Option<i64>
    ensures { result ≡ long_in (value_at field.now tuple.now) }
{
    match tuple.get(field.as_str()) {
        Some(Value::Long(n)) => Some(*n),
        _ => None,
    }
}

#[tactic(auto, using(std::proofs::lemmas::Int::wraps))]
fn added(sum: i64, n: Option<i64>) -> i64
    ensures { result ≡ added sum n }
{
    match n {
        Some(n) => sum.wrapping_add(n),
        None => sum,
    }
}

fn nearer(best: Option<i64>, n: Option<i64>, greatest: bool) -> Option<i64>
    ensures { result ≡ nearer (of_two greatest) best n }
{
    match (best, n) {
        (best, None) => best,
        (None, Some(n)) => Some(n),
        (Some(m), Some(n)) => Some(if greatest { m.max(n) } else { m.min(n) }),
    }
}
