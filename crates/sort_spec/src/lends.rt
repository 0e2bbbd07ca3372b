// What is sorted by a tuple that it lends.
ghost use Rattle.std.specs.Prelude.{◌≡◌};
ghost use Rattle.tuple_values.specs.Document.{Doc};

use tuple_values::Tuple;

/// What lends a tuple, by which it is sorted.
pub trait Lends {
    // The fields of the tuple.
    ghost doc: { Self → Doc };

    /// The tuple. Takes no memory.
    fn tuple(&self) -> &Tuple
        ensures { result.now ≡ doc self.now };
}

impl Lends for Tuple {
    ghost doc = { λ t. t };

    fn tuple(&self) -> &Tuple {
        self
    }
}
