// Tests of the matching of query_syntax, by values worked by hand from the rules of queries.
use crate::making::{Plain, put};
use query_syntax::{Clause, Clauses, Query, QueryFault, Role, Term, Test, What};
use std::alloc::Global;
use tuple_values::{Memory, Text, Tuple};

// A test as a row of a table writes it; a bound is its text and whether it is inside.
#[derive(Clone, Copy)]
pub enum Ask {
    Word(&'static str),
    Prefix(&'static str),
    Present,
    Range(Option<&'static str>, bool, Option<&'static str>, bool),
}

use Ask::{Prefix, Present, Range, Word};

fn bound_of(alloc: Global, bound: Option<&str>) -> Result<Option<Term>, Memory> {
    match bound {
        None => Ok(None),
        Some(text) => Ok(Some(Term::of(Text::of(alloc, text)?))),
    }
}

fn range_of(
    alloc: Global,
    bounds: (Option<&str>, Option<&str>),
    low_in: bool,
    high_in: bool,
) -> Result<Test, Memory> {
    let low = bound_of(alloc, bounds.0)?;
    let high = bound_of(alloc, bounds.1)?;
    Ok(Test::Range {
        low,
        low_in,
        high,
        high_in,
    })
}

fn test_of(alloc: Global, ask: Ask) -> Result<Test, Memory> {
    match ask {
        Word(word) => Ok(Test::Word(Term::of(Text::of(alloc, word)?))),
        Prefix(word) => Ok(Test::Prefix(Text::of(alloc, word)?)),
        Present => Ok(Test::Present),
        Range(low, low_in, high, high_in) => range_of(alloc, (low, high), low_in, high_in),
    }
}

fn clause_of(alloc: Global, ask: Ask) -> Result<Clause, Memory> {
    let test = test_of(alloc, ask)?;
    let name = Text::of(alloc, "f")?;
    Ok(Clause {
        role: Role::Optional,
        what: What::Field { name, test },
    })
}

// The query of one clause, a test on `f`.
fn asking(alloc: Global, ask: Ask) -> Result<Query, Memory> {
    let mut clauses = Clauses::new(alloc);
    clauses.push(clause_of(alloc, ask)?)?;
    Ok(Query { clauses })
}

fn is_met(alloc: Global, ask: Ask, tuple: &Tuple) -> Result<bool, Memory> {
    let query = asking(alloc, ask)?;
    Ok(query.matches(tuple))
}

// Whether the value under `f` passes the test.
fn passes(alloc: Global, ask: Ask, plain: Plain) -> Result<bool, Memory> {
    let mut tuple = Tuple::empty(alloc);
    put(alloc, &mut tuple, "f", plain)?;
    is_met(alloc, ask, &tuple)
}

const VALUES: [(Ask, Plain, bool); 40] = [
    (Word("x"), Plain::Text("x"), true),
    (Word("x"), Plain::Text("xy"), false),
    (Word("x"), Plain::Text("X"), false),
    (Word(""), Plain::Text(""), true),
    (Word("5"), Plain::Text("05"), false),
    (Word("5"), Plain::Long(5), true),
    (Word("05"), Plain::Long(5), true),
    (Word("-5"), Plain::Long(-5), true),
    (Word("5"), Plain::Long(-5), false),
    (Word("x"), Plain::Long(5), false),
    (Word("5x"), Plain::Long(5), false),
    (Word("x"), Plain::Absent, false),
    (Word(""), Plain::Group, false),
    (Prefix("ab"), Plain::Text("abc"), true),
    (Prefix("ab"), Plain::Text("ab"), true),
    (Prefix("ab"), Plain::Text("a"), false),
    (Prefix("ab"), Plain::Text("cab"), false),
    (Prefix("1"), Plain::Long(12), false),
    (Prefix("ab"), Plain::Absent, false),
    (Prefix("ab"), Plain::Group, false),
    (Present, Plain::Text(""), true),
    (Present, Plain::Long(0), true),
    (Present, Plain::Group, true),
    (Present, Plain::Absent, false),
    (
        Range(Some("a"), true, Some("c"), true),
        Plain::Text("a"),
        true,
    ),
    (
        Range(Some("a"), false, Some("c"), true),
        Plain::Text("a"),
        false,
    ),
    (
        Range(Some("a"), true, Some("c"), true),
        Plain::Text("c"),
        true,
    ),
    (
        Range(Some("a"), true, Some("c"), false),
        Plain::Text("c"),
        false,
    ),
    (
        Range(Some("a"), true, Some("c"), false),
        Plain::Text("bz"),
        true,
    ),
    (
        Range(Some("10"), true, Some("9"), true),
        Plain::Text("5"),
        true,
    ),
    (
        Range(Some("10"), true, Some("9"), true),
        Plain::Long(5),
        false,
    ),
    (
        Range(Some("9"), true, Some("10"), true),
        Plain::Long(10),
        true,
    ),
    (
        Range(Some("9"), true, Some("10"), false),
        Plain::Long(10),
        false,
    ),
    (
        Range(Some("-1"), false, Some("10"), false),
        Plain::Long(0),
        true,
    ),
    (Range(None, true, Some("3"), true), Plain::Long(-7), true),
    (Range(Some("3"), true, None, false), Plain::Text("z"), true),
    (Range(Some("x"), true, None, true), Plain::Long(5), false),
    (Range(None, false, None, false), Plain::Long(5), true),
    (Range(None, true, None, true), Plain::Absent, false),
    (Range(None, true, None, true), Plain::Group, false),
];

#[test]
fn values_pass_the_tests_as_the_rules_say(rt: HostRuntime) {
    for (row, (ask, plain, want)) in VALUES.iter().enumerate() {
        assert!(rt; passes(rt.alloc(), *ask, *plain) == Ok(*want), "row {row}");
    }
}

fn has_text(alloc: Global, fault: QueryFault, want: &str) -> bool {
    match fault.text(alloc) {
        Ok(text) => text.as_str() == want,
        Err(_) => false,
    }
}

#[test]
fn a_fault_is_written_with_its_place(rt: HostRuntime) {
    assert!(rt;
        has_text(
            rt.alloc(),
            QueryFault::BadQuery { at: 12 },
            "BadQuery at 12"
        )
    );
    assert!(rt; has_text(rt.alloc(), QueryFault::OutOfMemory, "out of memory"));
}
