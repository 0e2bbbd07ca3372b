// What stands at the first two places of a list.
ghost use Rattle.std.specs.Prelude.{◌≡◌};
ghost use Rattle.expr_types.specs.ExprTree.{first_or, second_or};

/// The first, or the other where there is none.
pub(crate) fn first_of<'a, T>(items: &'a [T], other: &'a T) -> &'a T
    ensures { result.now ≡ first_or other.now items.now }
{
    match items {
        [first, ..] => first,
        [] => other,
    }
}

/// The second, or the other where there is none.
pub(crate) fn second_of<'a, T>(items: &'a [T], other: &'a T) -> &'a T
    ensures { result.now ≡ second_or other.now items.now }
{
    match items {
        [_, second, ..] => second,
        _ => other,
    }
}
