// Tests of the reading of query_syntax, by texts worked by hand from the rules of queries.
use crate::making::put_text;
use crate::of_query_syntax::Ask;
use crate::of_query_syntax::Ask::{Prefix, Present, Range, Word};
use query_syntax::{Clause, Query, QueryFault, Role, Term, Test, What, read_query};
use std::alloc::Global;
use std::process::Abort;
use std::test::Fail;
use tuple_values::{Memory, Text, TryCopy, Tuple};

// A text, its field and its test.
const READINGS: [(&str, &str, Ask); 32] = [
    ("a:b", "a", Word("b")),
    (" a: \tb\n", "a", Word("b")),
    ("a:b*", "a", Prefix("b")),
    ("a:*", "a", Present),
    ("a:\"b c\"", "a", Word("b c")),
    ("a:\"\"", "a", Word("")),
    ("a:\"*\"", "a", Word("*")),
    ("a:\"x\\\"y\\\\z\"", "a", Word("x\"y\\z")),
    ("n_i:5", "n_i", Word("5")),
    ("n_i:-5", "n_i", Word("-5")),
    ("n_i:-\\5", "n_i", Word("-5")),
    ("n_i: -5x", "n_i", Word("-5x")),
    ("a:[b TO c]", "a", Range(Some("b"), true, Some("c"), true)),
    ("a:{b TO c}", "a", Range(Some("b"), false, Some("c"), false)),
    (
        "a:[ b \t TO\n c } ",
        "a",
        Range(Some("b"), true, Some("c"), false),
    ),
    ("a:{* TO *]", "a", Range(None, false, None, true)),
    (
        "a:[\\* TO \"*\"]",
        "a",
        Range(Some("*"), true, Some("*"), true),
    ),
    (
        "a:[a* TO T\\O]",
        "a",
        Range(Some("a*"), true, Some("TO"), true),
    ),
    (
        "a:[\"TO\" TO TOO]",
        "a",
        Range(Some("TO"), true, Some("TOO"), true),
    ),
    (
        "a:[\"\\]\" TO \\]]",
        "a",
        Range(Some("]"), true, Some("]"), true),
    ),
    (
        "n_i:[-5 TO (:[]",
        "n_i",
        Range(Some("-5"), true, Some("(:["), true),
    ),
    ("ANDY:x", "ANDY", Word("x")),
    ("&&b:a&&b", "&&b", Word("a&&b")),
    ("a:OR\\*", "a", Word("OR*")),
    ("a:\\OR*", "a", Prefix("OR")),
    ("A\\ND:N\\OT", "AND", Word("NOT")),
    ("\\+a:\\-b", "+a", Word("-b")),
    ("a+b:c-d+", "a+b", Word("c-d+")),
    ("a\\ \\::b\\:c", "a :", Word("b:c")),
    ("\u{e9}:\u{3a9}*", "\u{e9}", Prefix("\u{3a9}")),
    ("a:\\\u{1f600}x", "a", Word("\u{1f600}x")),
    ("a:\"\\\u{e9}\"", "a", Word("\u{e9}")),
];

fn is_bound(found: &Option<Term>, want: Option<&str>) -> bool {
    match (found, want) {
        (None, None) => true,
        (Some(found), Some(want)) => found.as_str() == want,
        _ => false,
    }
}

fn is_test(found: &Test, want: Ask) -> bool {
    match (found, want) {
        (Test::Word(found), Word(want)) => found.as_str() == want,
        (Test::Prefix(found), Prefix(want)) => found.as_str() == want,
        (Test::Present, Present) => true,
        (
            Test::Range {
                low,
                low_in,
                high,
                high_in,
            },
            Range(wanted_low, want_low_in, wanted_high, want_high_in),
        ) => {
            is_bound(low, wanted_low)
                && *low_in == want_low_in
                && is_bound(high, wanted_high)
                && *high_in == want_high_in
        }
        _ => false,
    }
}

// The clause asks for the test on the field.
fn is_asked(clause: &Clause, name: &str, ask: Ask) -> bool {
    match (&clause.what, clause.role) {
        (What::Field { name: found, test }, Role::Optional) => {
            found.as_str() == name && is_test(test, ask)
        }
        _ => false,
    }
}

fn asks_alone(query: &Query, name: &str, ask: Ask) -> bool {
    query.clauses.count() == 1 && is_asked(query.clauses.get(0), name, ask)
}

fn copied(alloc: Global, text: &str) -> Result<Query, QueryFault> {
    let query = read_query(alloc, text)?;
    Ok(query.copy(alloc)?)
}

// Whether the text is read as this test, and so is its copy.
fn says(alloc: Global, text: &str, name: &str, ask: Ask) -> bool {
    match copied(alloc, text) {
        Ok(query) => asks_alone(&query, name, ask),
        Err(_) => false,
    }
}

fn assert_readings(rt: &impl Abort, alloc: Global, rows: &[(&'static str, &'static str, Ask)]) {
    for (text, name, ask) in rows {
        assert!(rt; says(alloc, text, name, *ask), "of {text:?}");
    }
}

#[test]
fn a_text_says_its_field_and_test(rt: HostRuntime) {
    assert_readings(&rt, rt.alloc(), &READINGS);
}

// A text with the place of its fault; none where it asks for everything.
const PLACES: [(&str, Option<u64>); 54] = [
    ("*:*", None),
    (" *:*\n", None),
    ("\t\r *:* \n\t\r", None),
    ("", Some(0)),
    ("  ", Some(2)),
    ("*", Some(1)),
    ("*:", Some(2)),
    ("*:x", Some(2)),
    ("* :*", Some(1)),
    ("*:* x", Some(5)),
    ("*:**:*", None),
    ("x", Some(1)),
    ("foo bar", Some(3)),
    ("a_s:x AND", Some(9)),
    ("a :b", Some(1)),
    ("a:", Some(2)),
    ("a:(b", Some(4)),
    ("(a:b", Some(4)),
    ("a:b c", Some(5)),
    ("a:b:c", Some(3)),
    ("a:b?", Some(3)),
    ("a/b:c", Some(1)),
    ("+-a:b", Some(1)),
    ("-a:b", None),
    ("a:+b", Some(2)),
    ("a:-", Some(3)),
    ("a:-x", Some(3)),
    ("a:-\\x", Some(4)),
    ("a:-5*", Some(5)),
    ("a:**", Some(4)),
    ("a:\"b\" c", Some(7)),
    ("a:\"b", Some(4)),
    ("f:AND", Some(5)),
    ("f:AND ", Some(5)),
    ("f:AND*", Some(5)),
    ("AND:", Some(3)),
    ("||:x", Some(2)),
    ("\\u0041:x", Some(1)),
    ("a:b\\", Some(4)),
    ("a:b\\u", Some(4)),
    ("a:\"\\u", Some(4)),
    ("a:[\\u", Some(4)),
    ("a:[]", Some(3)),
    ("a:[b]", Some(4)),
    ("a:[b c]", Some(5)),
    ("a:[b TOO c]", Some(7)),
    ("a:[TO TO b]", Some(5)),
    ("a:[b TO TO]", Some(10)),
    ("a:[\"a\"b TO c]", Some(6)),
    ("a:[b\"c TO d]", Some(4)),
    ("a:[b TO c] d", Some(12)),
    ("a:[b TO c", Some(9)),
    ("\u{A0}*:*", Some(2)),
    ("\u{e9}:b \u{3a9}", Some(7)),
];

// Whether the text is refused at the place, or matches the tuple.
fn has_place(alloc: Global, text: &str, want: Option<u64>, tuple: &Tuple) -> bool {
    match read_query(alloc, text) {
        Ok(query) => want.is_none() && query.matches(tuple),
        Err(QueryFault::BadQuery { at }) => want == Some(at),
        Err(QueryFault::OutOfMemory) => false,
    }
}

fn put_texts(alloc: Global, tuple: &mut Tuple, fields: &[(&str, &str)]) -> Result<(), Memory> {
    for (name, text) in fields {
        put_text(alloc, tuple, name, text)?;
    }
    Ok(())
}

fn texts(alloc: Global, fields: &[(&str, &str)]) -> Result<Tuple, Memory> {
    let mut tuple = Tuple::empty(alloc);
    put_texts(alloc, &mut tuple, fields)?;
    Ok(tuple)
}

fn assert_places(rt: &impl Abort, alloc: Global, tuple: &Tuple) {
    for (text, want) in &PLACES {
        assert!(rt; has_place(alloc, text, *want, tuple), "of {text:?}");
    }
}

#[test]
fn texts_are_read_or_have_their_place(rt: HostRuntime) -> Result<(), Fail> {
    let tuple = texts(rt.alloc(), &[("id", "1")])?;
    assert_places(&rt, rt.alloc(), &tuple);
    Ok(())
}

// The query, the fields of a document, and whether it matches.
type Match = (&'static str, &'static [(&'static str, &'static str)], bool);

// A list of clauses; a list that prohibits alone, at the top and below it.
const MATCHES: [Match; 9] = [
    (
        "a_s:x OR b_s:y AND c_s:z",
        &[("a_s", "x"), ("id", "1")],
        false,
    ),
    (
        "a_s:x OR b_s:y AND c_s:z",
        &[("b_s", "y"), ("c_s", "z"), ("id", "2")],
        true,
    ),
    ("a_s:x b_s:y -c_s:z", &[("b_s", "y")], true),
    ("a_s:x b_s:y -c_s:z", &[("id", "1")], false),
    ("a_s:x b_s:y -c_s:z", &[("a_s", "x"), ("c_s", "z")], false),
    ("-a_s:x", &[("id", "2")], true),
    ("-a_s:x", &[("a_s", "x"), ("id", "1")], false),
    ("+(-a_s:x)", &[("id", "2")], false),
    ("+(-a_s:x)", &[("a_s", "x"), ("id", "1")], false),
];

fn matches_tuple(alloc: Global, text: &str, tuple: &Tuple) -> Result<bool, QueryFault> {
    let query = read_query(alloc, text)?;
    Ok(query.matches(tuple))
}

fn matches_fields(alloc: Global, text: &str, fields: &[(&str, &str)]) -> Result<bool, QueryFault> {
    let tuple = texts(alloc, fields)?;
    matches_tuple(alloc, text, &tuple)
}

#[test]
fn what_is_read_matches_as_its_row_says(rt: HostRuntime) {
    for (text, fields, matches) in &MATCHES {
        assert!(rt;
            matches_fields(rt.alloc(), text, fields) == Ok(*matches),
            "of {text:?} and {fields:?}"
        );
    }
}
