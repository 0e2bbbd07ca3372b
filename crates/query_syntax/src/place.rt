// Where the reading of a query is.
ghost use Rattle.std.specs.Prelude.{◌≡◌};

use crate::letters::{is_bound_letter, is_quoted_letter, is_word_letter};

/// Which bound of a range.
#[derive(Clone, Copy)]
pub enum Side {
    Low,
    High,
}

/// What of a list was read last.
#[derive(Clone, Copy)]
pub enum Stage {
    /// Nothing: the list begins.
    First,
    /// An item.
    Behind,
    /// A conjunction.
    Joined,
    /// What requires or prohibits the next item.
    Modified,
}

/// What letters are read for.
#[derive(Clone, Copy)]
pub enum Kind {
    /// An operator, the name of a field, or a test without a field.
    Name(Stage),
    /// A test that is a word.
    Word,
    /// A word behind a minus.
    Number,
    /// Quoted text.
    Quote,
    /// A bound without quotes.
    Bare(Side),
    /// A quoted bound.
    Quoted(Side),
}

impl Kind {
    ghost use Rattle.query_syntax.specs.Machine.{is_letter, takes};

    fn is_letter(self, c: char) -> bool
        ensures { result ≡ is_letter self c }
    {
        match self {
            Kind::Name(_) | Kind::Word | Kind::Number => is_word_letter(c),
            Kind::Quote | Kind::Quoted(_) => is_quoted_letter(c),
            Kind::Bare(_) => is_bound_letter(c),
        }
    }

    // Whether a letter may begin so.
    pub fn takes(self, c: char) -> bool
        ensures { result ≡ takes self c }
    {
        c == '\\' || self.is_letter(c)
    }
}

/// What was read last.
#[derive(Clone, Copy)]
pub enum Place {
    /// What stands before an item or behind one, and perhaps blanks behind that.
    Item(Stage),
    /// The first star of `*:*`, or a test without a field.
    Star,
    /// The colon of `*:*`.
    Colon,
    /// Letters, or the quote before them.
    Letters(Kind),
    /// The backslash before a letter.
    Escape(Kind),
    /// The colon behind a name, and perhaps blanks behind it.
    Tested,
    /// A minus before a number.
    Minus,
    /// The backslash behind it.
    MinusEscape,
    /// What stands before a bound: a bracket or `TO`, and blanks behind it.
    Before(Side),
    /// A bound; the upper one also with blanks behind it.
    Closed(Side),
    /// A blank behind the lower bound.
    Gap,
    /// The first letter of `TO`.
    T,
    /// Its second letter.
    To,
}
