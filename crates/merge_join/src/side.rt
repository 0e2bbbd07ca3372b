// One of the two inputs of a join.
ghost use Rattle.std.specs.Prelude.{◌≡◌, true, false, IfSome, IfNone};
ghost use Rattle.merge_join.specs.Sides.{next_left};

use kernel_laws::Ask;
use tuple_values::Tuple;

/// What is known of an input: its next tuple, where that came, and whether the input has ended.
#[derive(Drop)]
pub(crate) struct Side {
    pub held: Option<Tuple>,
    pub ended: bool,
}

impl Side {
    /// Nothing is known yet.
    pub fn fresh() -> Side
        ensures { result ≡ record { held = None; ended = false } }
    {
        Side {
            held: None,
            ended: false,
        }
    }

    /// The next tuple has come, or the end.
    pub fn take(&mut self, tuple: Option<Tuple>)
        ensures some { IfSome tuple (λ t. self.new ≡ record self.old { held = Some t }) }
        ensures none { IfNone tuple (self.new ≡ record self.old { ended = true }) }
    {
        match tuple {
            Some(tuple) => self.held = Some(tuple),
            None => self.ended = true,
        }
    }
}

/// What is answered where no left tuple is held.
pub(crate) fn next_left(ended: bool) -> Ask
    ensures { result ≡ next_left ended }
{
    if ended { Ask::End } else { Ask::Need(0) }
}
