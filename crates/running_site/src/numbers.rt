// The numbers of passes.
ghost use Rattle.std.specs.Prelude.{◌≡◌, IfOk};
ghost use Rattle.running_site.specs.Passes.{numbers_to};

use std::alloc::Global;
use tuple_values::{Memory, Numbers};

/// The numbers from 1 to the count.
pub(crate) fn numbers_to(alloc: Global, count: u64) -> Result<Numbers, Memory>
    ensures { IfOk result (λ numbers. numbers ≡ numbers_to count) }
{
    let mut numbers = Numbers::new(alloc);
    for before in 0..count {
        numbers.push(before + 1)?;
    }
    Ok(numbers)
}
