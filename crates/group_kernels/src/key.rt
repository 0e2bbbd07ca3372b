// Tuples of one key.
ghost use Rattle.std.specs.Prelude.{◌≡◌};
ghost use Rattle.expr_types.specs.Groups.{same_key};
ghost use Rattle.group_kernels.specs.Runs.{is_next};

use tuple_values::{FieldList, Tuple, compare};

/// Whether two tuples have equal values in each of the fields; two absent ones are equal.
pub(crate) fn same_key(names: &FieldList, a: &Tuple, b: &Tuple) -> bool
    ensures { result ≡ same_key names.now a.now b.now }
{
    for name in names.as_slice() {
        let (left, right) = (a.get(name.as_str()), b.get(name.as_str()));
        if compare(left, right).is_ne() {
            return false;
        }
    }
    true
}

/// Whether a tuple belongs to a run, as any does to one of no tuple.
pub(crate) fn is_next(names: &FieldList, run: &[Tuple], tuple: &Tuple) -> bool
    ensures { result ≡ is_next (same_key names.now) run.now tuple.now }
{
    match run {
        [] => true,
        [first, ..] => same_key(names, first, tuple),
    }
}
