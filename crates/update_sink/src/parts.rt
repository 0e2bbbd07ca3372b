// The front of a list, and what is left behind it.
ghost use Rattle.std.specs.Prelude.{◌≡◌, drop, take};

/// The first so many elements, or all.
pub(crate) fn front<X>(items: &[X], count: u64) -> &[X]
    ensures { result.now ≡ take count items.now }
{
    if count < items.len() as u64 {
        &items[..count as usize]
    } else {
        items
    }
}

/// The elements behind the first so many.
pub(crate) fn behind<X>(items: &[X], count: u64) -> &[X]
    ensures { result.now ≡ drop count items.now }
{
    if count < items.len() as u64 {
        &items[count as usize..]
    } else {
        &items[items.len()..]
    }
}
