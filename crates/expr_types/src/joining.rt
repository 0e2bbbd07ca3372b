// What a join makes of two tuples.
ghost use Rattle.std.specs.Prelude.{◌≡◌, IfOk};
ghost use Rattle.expr_types.specs.Joins.{joined};

use std::alloc::Global;
use tuple_values::{Memory, Tuple};

/// The left tuple, which is moved in, with copies of the right one's fields, whose values stay
/// where names meet.
pub fn joined(alloc: Global, left: Tuple, right: &Tuple) -> Result<Tuple, Memory>
    ensures { IfOk result (λ tuple. tuple ≡ joined left right.now) }
{
    // The names of both rise, as `count` says, so the order of the right fields is no matter.
    let _ = (left.count(), right.count());
    left.laid_over(alloc, right)
}
