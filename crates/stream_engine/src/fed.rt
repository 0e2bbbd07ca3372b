// The source of a list that is there.
ghost use Rattle.std.specs.Prelude.{◌≡◌};
ghost use Rattle.source_streams.specs.Reads.{IsNext};

use std::collections::VecDeque;
use std::marker::Model;
use tuple_values::{Tuple, Tuples};

/// The tuples of a list that are still to come. A contract sees the list of them.
#[derive(Drop)]
pub(crate) struct Fed {
    rest: VecDeque<Tuple>,
}

impl Model for Fed {
    ghost use Rattle.std.specs.Prelude.{List};
    ghost use Rattle.tuple_values.specs.Document.{Doc};
    ghost use Rattle.tuple_values.specs.Codes.{docs_code};

    ghost Value = { List Doc };

    ghost coded = { docs_code };

    ghost view = { λ s. s.rest.items };
}

impl Fed {
    /// The source of a list, which is moved in. Takes no memory.
    pub(crate) fn new(tuples: Tuples) -> Fed
        ensures { result ≡ tuples }
    {
        Fed {
            rest: VecDeque::from(tuples.into_vec()),
        }
    }

    /// The next tuple; none exactly at the end, and from then on.
    pub(crate) fn read(&mut self) -> Option<Tuple>
        ensures { IsNext self.old result self.new }
    {
        self.rest.pop_front()
    }
}
