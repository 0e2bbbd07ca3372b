// Which documents a query matches.
ghost use Rattle.std.specs.Prelude.{◌≡◌, ◌||◌, true, false, option_map};
ghost use Rattle.std.specs.declared.cmp.Ordering.{Ordering};
ghost use Rattle.tuple_values.specs.Document.{value_at};
ghost use Rattle.tuple_values.specs.Views.{datum_of};
ghost use Rattle.query_syntax.specs.Tree.{trees_of};
ghost use Rattle.query_syntax.specs.Views.{what_tree};
ghost use Rattle.query_syntax.specs.Matching.{is_within, text_above, text_below};
ghost use Rattle.query_syntax.specs.Matching.{number_above, number_below, text_passes};
ghost use Rattle.query_syntax.specs.Matching.{number_passes, value_passes, same_role};
ghost use Rattle.query_syntax.specs.Matching.{has_role, list_rule};
ghost use Rattle.query_syntax.specs.Matching.{what_matches, some_clause, is_negative, matches};

use crate::{Clauses, Query, Role, Term, Test, What};
use std::cmp::Ordering;
use tuple_values::{Tuple, Value};

// Whether what compares so is inside a bound.
fn is_within(included: bool, order: Ordering) -> bool
    ensures { result ≡ is_within included order }
{
    match order {
        Ordering::Less => true,
        Ordering::Equal => included,
        Ordering::Greater => false,
    }
}

fn text_above(low: Option<&Term>, included: bool, text: &str) -> bool
    ensures { result ≡ text_above (option_map (λ b. b.now) low.entry) included text.now }
{
    match low {
        None => true,
        Some(low) => is_within(included, low.as_str().cmp(text)),
    }
}

fn text_below(high: Option<&Term>, included: bool, text: &str) -> bool
    ensures { result ≡ text_below (option_map (λ b. b.now) high.entry) included text.now }
{
    match high {
        None => true,
        Some(high) => is_within(included, text.cmp(high.as_str())),
    }
}

fn number_above(low: Option<&Term>, included: bool, n: i64) -> bool
    ensures { result ≡ number_above (option_map (λ b. b.now) low.entry) included n }
{
    match low {
        None => true,
        Some(low) => match low.number() {
            None => false,
            Some(low) => is_within(included, low.cmp(&n)),
        },
    }
}

fn number_below(high: Option<&Term>, included: bool, n: i64) -> bool
    ensures { result ≡ number_below (option_map (λ b. b.now) high.entry) included n }
{
    match high {
        None => true,
        Some(high) => match high.number() {
            None => false,
            Some(high) => is_within(included, n.cmp(&high)),
        },
    }
}

impl Test {
    // Whether a text passes.
    fn passes_text(&self, text: &str) -> bool
        ensures { result ≡ text_passes self.now text.now }
    {
        match self {
            Test::Word(word) => text == word.as_str(),
            Test::Prefix(word) => text.as_bytes().starts_with(word.as_str().as_bytes()),
            Test::Present => true,
            Test::Range {
                low,
                low_in,
                high,
                high_in,
            } => {
                text_above(low.as_ref(), *low_in, text) && text_below(high.as_ref(), *high_in, text)
            }
        }
    }

    // Whether a number passes.
    fn passes_number(&self, n: i64) -> bool
        ensures { result ≡ number_passes self.now n }
    {
        match self {
            Test::Word(word) => match word.number() {
                None => false,
                Some(m) => m == n,
            },
            Test::Prefix(_) => false,
            Test::Present => true,
            Test::Range {
                low,
                low_in,
                high,
                high_in,
            } => {
                number_above(low.as_ref(), *low_in, n) && number_below(high.as_ref(), *high_in, n)
            }
        }
    }

    // Whether a value passes.
    fn passes(&self, value: &Value) -> bool
        ensures { result ≡ value_passes self.now (datum_of value.now) }
    {
        match value {
            Value::Long(n) => self.passes_number(*n),
            Value::Text(text) => self.passes_text(text.as_str()),
            Value::Group(_) => match self {
                Test::Present => true,
                _ => false,
            },
        }
    }
}

impl Role {
    fn is(self, other: Role) -> bool
        ensures { result ≡ same_role self other }
    {
        match (self, other) {
            (Role::Required, Role::Required) => true,
            (Role::Prohibited, Role::Prohibited) => true,
            (Role::Optional, Role::Optional) => true,
            _ => false,
        }
    }
}

impl Clauses {
    // Whether there are clauses, and all of them are prohibited.
    fn is_negative(&self) -> bool
        ensures { result ≡ is_negative (trees_of self.now) }
    {
        self.has(Role::Prohibited) && !self.has(Role::Required) && !self.has(Role::Optional)
    }

    // Whether some clause of the role matches or, where `hit` is false, fails.
    #[cycle(matching)]
    fn some(&self, role: Role, hit: bool, t: &Tuple) -> bool
        ensures { result ≡ some_clause (trees_of self.now) role hit t.now }
    {
        if !self.has(role) {
            return false;
        }
        for k in 0..self.count() {
            let clause = self.get(k);
            if clause.role.is(role) && clause.what.matches(t) == hit {
                return true;
            }
        }
        false
    }

    // Whether the list matches, where it may stand beside `*:*`.
    #[cycle(matching)]
    fn matches(&self, beside_all: bool, t: &Tuple) -> bool
        ensures { result ≡ list_rule
            (some_clause (trees_of self.now) Role.Required false t.now)
            (some_clause (trees_of self.now) Role.Prohibited true t.now)
            (has_role (trees_of self.now) Role.Required)
            (beside_all || some_clause (trees_of self.now) Role.Optional true t.now) }
    {
        !self.some(Role::Required, false, t)
            && !self.some(Role::Prohibited, true, t)
            && (self.has(Role::Required) || beside_all || self.some(Role::Optional, true, t))
    }
}

impl What {
    // Whether the tuple is what is asked for.
    #[cycle(matching)]
    fn matches(&self, t: &Tuple) -> bool
        ensures { result ≡ what_matches (what_tree self.now) t.now }
    {
        match self {
            What::Everything => true,
            What::Field { name, test } => match t.get(name.as_str()) {
                None => false,
                Some(value) => test.passes(value),
            },
            What::Nested(clauses) => clauses.matches(false, t),
        }
    }
}

impl Query {
    /// Whether the query matches a tuple. A list of clauses matches where all required ones do, no
    /// prohibited one does and, if none is required, some optional one does; prohibited clauses
    /// alone match all but what they match, and inside another list nothing (own rule). Takes no
    /// memory.
    pub fn matches(&self, t: &Tuple) -> bool
        ensures { result ≡ matches self.now.clauses t.now }
    {
        self.clauses.matches(self.clauses.is_negative(), t)
    }
}
