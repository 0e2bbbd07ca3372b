// A text that may stand for a number.
ghost use Rattle.std.specs.Prelude.{◌≡◌, IfOk};
ghost use Rattle.tuple_values.specs.Whole.{whole_of};

use std::alloc::Global;
use std::marker::Model;
use tuple_values::{Memory, Text, TryCopy, whole};

/// A text of a query, with the number that it is, which is read once. A contract sees its bytes.
pub struct Term {
    text: Text,
    number: Option<i64>,
}

impl Drop for Term {
    fn drop(self) {
        let Term { text, number: _ } = self;
        drop(text);
    }
}

impl Model for Term {
    ghost use Rattle.std.specs.Prelude.{◌≡◌, List, ℕ};
    ghost use Rattle.tuple_values.specs.Whole.{whole_of};

    ghost Value = { List ℕ };

    ghost view = { λ t. t.text };

    ghost invariant = { λ t. t.number ≡ whole_of t.text };
}

impl Term {
    /// The term of a text, which is moved in.
    pub fn of(text: Text) -> Term
        ensures { result ≡ text }
    {
        let number = whole(text.as_str());
        Term { text, number }
    }

    /// The term as it is read.
    pub fn as_str(&self) -> &str
        ensures { result.now ≡ self.now }
    {
        self.text.as_str()
    }

    /// The number that the text is, if it is one.
    pub fn number(&self) -> Option<i64>
        ensures { result ≡ whole_of self.now }
    {
        self.number
    }
}

impl TryCopy for Term {
    fn copy(&self, alloc: Global) -> Result<Self, Memory> {
        let text = self.text.copy(alloc)?;
        let number = self.number;
        Ok(Term { text, number })
    }
}

/// The term of a text, where there is one.
pub(crate) fn term_of(text: Option<Text>) -> Option<Term>
    ensures { result ≡ text }
{
    match text {
        Some(text) => Some(Term::of(text)),
        None => None,
    }
}
