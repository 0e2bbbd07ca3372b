// Whole numbers as texts.
ghost use Rattle.std.specs.Prelude.{◌≡◌};
ghost use Rattle.tuple_values.specs.Whole.{whole_of};

/// The number of an optional `-` and one or more digits; none exactly where the text isn't so,
/// or the number isn't an `i64` (own rule).
pub fn whole(s: &str) -> Option<i64>
    ensures { result ≡ whole_of s.now }
{
    if s.as_bytes().first().copied() == Some(b'+') {
        return None;
    }
    s.parse().ok()
}
