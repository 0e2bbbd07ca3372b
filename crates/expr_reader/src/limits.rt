// What the limits of expressions mean.
ghost use Rattle.expr_reader.specs.Counts.{LimitsAreCounted};

/// A front that some expression begins with is over the limits exactly where, by quotes and
/// parentheses alone, 25 calls are begun and not closed at some place of its whole characters, or
/// 201 are begun in them.
pub fn limits_are_counted()
    ensures { LimitsAreCounted }
{}
