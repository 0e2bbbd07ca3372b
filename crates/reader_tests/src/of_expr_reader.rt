// Tests of expr_reader, by texts worked by hand from the rules of expressions.
use crate::shown_calls::{comes_to, push_call};
use expr_reader::{Arg, ArgValue, Args, Call, Word};
use std::alloc::{AllocError, Global};
use tuple_values::{Memory, Text};

const CALLS: [(&str, &str); 29] = [
    ("tuple(a=1,b=\"x\")", "tuple[a=<1>,b=\"x\"]"),
    ("tuple()", "tuple[]"),
    ("tuple( )", "tuple[]"),
    (" \t\n\rtuple \n( \t) \r", "tuple[]"),
    (" f ( a b , k = c d , \"x\" ) ", "f[<a b>,k=<c d>,\"x\"]"),
    ("f(a  b\t)", "f[<a  b>]"),
    ("f(\" a \")", "f[\" a \"]"),
    ("f(\"\")", "f[\"\"]"),
    // a backslash stays with its letter, unless that is a quote
    (r#"f("a\\")"#, r#"f["a\\"]"#),
    (r#"f("a\"b")"#, r#"f["a"b"]"#),
    (r#"f("a\n")"#, r#"f["a\n"]"#),
    ("f(a as c)", "f[<a as c>]"),
    ("f('a b')", "f[<'a b'>]"),
    ("_f1(k.x-1=2)", "_f1[k.x-1=<2>]"),
    ("f(1=2,1)", "f[1=<2>,<1>]"),
    ("f(k=\"a,(=)\")", "f[k=\"a,(=)\"]"),
    ("f(é, \"é\")", "f[<é>,\"é\"]"),
    // calls in calls, as arguments and as values
    ("f(g())", "f[g[]]"),
    (" f ( g ( a ) , h( ) ) ", "f[g[<a>],h[]]"),
    ("f(g(h(i(1),2),k=3))", "f[g[h[i[<1>],<2>],k=<3>]]"),
    ("f(k=g(a),b)", "f[k=g[<a>],<b>]"),
    ("f(k = g\t( a ) )", "f[k=g[<a>]]"),
    ("f(g(\"(\"),h(\"\\\")\"))", "f[g[\"(\"],h[\"\")\"]]"),
    // calls under a new name
    ("f(g(a) as b)", "f[g[<a>] as b]"),
    ("f(g(a)\tas\n b_1 ,c)", "f[g[<a>] as b_1,<c>]"),
    ("f(g(a as b) as c)", "f[g[<a as b>] as c]"),
    ("f(as(as) as as)", "f[as[<as>] as as]"),
    (
        "f(g(h() as a) as b,k=g(h() as c))",
        "f[g[h[] as a] as b,k=g[h[] as c]]",
    ),
    ("count(count(*) as n)", "count[count[<*>] as n]"),
];

#[test]
fn expressions_are_read_as_the_rules_say(rt: HostRuntime) {
    for (text, want) in &CALLS {
        assert!(rt; comes_to(rt.alloc(), text.as_bytes(), want), "of {text}");
    }
}

const FAULTS: [(&str, &str); 57] = [
    ("", "Syntax at 0"),
    ("  ", "Syntax at 2"),
    ("f", "Syntax at 1"),
    ("f(a", "Syntax at 3"),
    ("f(\"a", "Syntax at 4"),
    ("f(\"a\\", "Syntax at 5"),
    ("tuple(a=1", "Syntax at 9"),
    ("tuple(a==1)", "Syntax at 8"),
    ("1f()", "Syntax at 0"),
    ("a b=1", "Syntax at 2"),
    ("f(a b=1)", "Syntax at 5"),
    ("f(k!=2)", "Syntax at 4"),
    ("f(a=b=c)", "Syntax at 5"),
    ("f(=a)", "Syntax at 2"),
    ("f(a=)", "Syntax at 4"),
    ("f(a=,b)", "Syntax at 4"),
    ("f(a,)", "Syntax at 4"),
    ("f(,a)", "Syntax at 2"),
    ("f(a\"b)", "Syntax at 3"),
    (r#"f("a\\"b")"#, "Syntax at 7"),
    ("f(\"x\" as y)", "Syntax at 6"),
    ("f(\"x\"=1)", "Syntax at 5"),
    ("f(a)x", "Syntax at 4"),
    ("f(a))", "Syntax at 4"),
    // a parenthesis behind a bare name begins a call, and behind nothing else
    ("f(1x(", "Syntax at 4"),
    ("f(a=1x(", "Syntax at 6"),
    ("f(a b(", "Syntax at 5"),
    ("f(\"sum\"(", "Syntax at 7"),
    ("f((", "Syntax at 2"),
    ("f(g(h(1x(", "Syntax at 8"),
    ("f(g(a)(b))", "Syntax at 6"),
    // in calls and behind them
    ("tuple(sum(", "Syntax at 10"),
    ("f(g(a", "Syntax at 5"),
    ("f(g(a)", "Syntax at 6"),
    ("f(g(,a))", "Syntax at 4"),
    ("f(g(a),)", "Syntax at 7"),
    ("f(g(a)=1)", "Syntax at 6"),
    ("f(g(a) b)", "Syntax at 7"),
    ("f(a=g(b=c=d))", "Syntax at 9"),
    ("f(g(a)))", "Syntax at 7"),
    // new names
    ("f(g(a)as b)", "Syntax at 6"),
    ("f(g(a) a b)", "Syntax at 8"),
    ("f(g(a) AS b)", "Syntax at 7"),
    ("f(g(a) as)", "Syntax at 9"),
    ("f(g(a) as 1)", "Syntax at 10"),
    ("f(g(a) as b", "Syntax at 11"),
    ("f(g(a) as b=1)", "Syntax at 11"),
    ("f(g(a) as b c)", "Syntax at 12"),
    ("f(k=g(a) as b)", "Syntax at 9"),
    ("f(g(a)) as b", "Syntax at 8"),
    // characters past ASCII where only ASCII can stand
    ("fé()", "Syntax at 1"),
    ("f(é=1)", "Syntax at 4"),
    ("f(a)é", "Syntax at 4"),
    ("\u{FEFF}f()", "Syntax at 0"),
    ("f(g(a) é)", "Syntax at 7"),
    ("f(g(a) as bé)", "Syntax at 11"),
    ("f(g(é))é", "Syntax at 8"),
];

#[test]
fn other_texts_have_their_place(rt: HostRuntime) {
    for (text, want) in &FAULTS {
        assert!(rt; comes_to(rt.alloc(), text.as_bytes(), want), "of {text}");
    }
}

// What stands behind `tuple(a=`, and the place.
const TAILS: [(&[u8], &str); 12] = [
    (b"\xE2\x82)", "Syntax at 10"),
    (b"\xFF", "Syntax at 8"),
    (b"\xE2", "Syntax at 9"),
    (b"\xE2\x82", "Syntax at 10"),
    (b"\xF0\x9F\x98", "Syntax at 11"),
    (b"\xF0\x9F\x98x)", "Syntax at 11"),
    (b"\xE2(", "Syntax at 9"),
    (b"\xED\xA0\x80)", "Syntax at 9"),
    (b"\xC0\x80)", "Syntax at 8"),
    (b"\xF4\x90\x80\x80)", "Syntax at 9"),
    (b"1)\xC3", "Syntax at 10"),
    (b"1\xC3\x28", "Syntax at 10"),
];

fn push_begun(bytes: &mut Vec<u8>, tail: &[u8]) -> Result<(), AllocError> {
    bytes.extend_from_slice(b"tuple(a=")?;
    bytes.extend_from_slice(tail)
}

fn begun_comes_to(alloc: Global, tail: &[u8], want: &str) -> bool {
    let mut bytes = Vec::new(alloc);
    push_begun(&mut bytes, tail).is_ok() && comes_to(alloc, &bytes, want)
}

#[test]
fn a_begun_character_counts_in_the_place(rt: HostRuntime) {
    for (tail, want) in &TAILS {
        assert!(rt; begun_comes_to(rt.alloc(), tail, want), "of {tail:?}");
    }
}

fn call_of(alloc: Global, name: &str) -> Result<Call, Memory> {
    Ok(Call {
        name: Text::of(alloc, name)?,
        args: Args::new(alloc),
    })
}

fn push_sub(alloc: Global, args: &mut Args, name: &str) -> Result<(), Memory> {
    let call = call_of(alloc, name)?;
    args.push(Arg::Sub(call))
}

fn push_named(alloc: Global, args: &mut Args, key: &str, name: &str) -> Result<(), Memory> {
    let call = call_of(alloc, name)?;
    args.push(Arg::Named {
        key: Text::of(alloc, key)?,
        value: ArgValue::Sub(call),
    })
}

fn push_renamed(alloc: Global, args: &mut Args, name: &str, to: &str) -> Result<(), Memory> {
    let call = call_of(alloc, name)?;
    args.push(Arg::Renamed {
        call,
        to: Text::of(alloc, to)?,
    })
}

fn push_args(alloc: Global, args: &mut Args) -> Result<(), Memory> {
    push_sub(alloc, args, "g")?;
    push_named(alloc, args, "k", "h")?;
    push_renamed(alloc, args, "r", "x")
}

fn made(alloc: Global) -> Result<Call, Memory> {
    let mut call = call_of(alloc, "f")?;
    push_args(alloc, &mut call.args)?;
    Ok(call)
}

fn push_made(alloc: Global, out: &mut String) -> Result<(), Memory> {
    let call = made(alloc)?;
    Ok(push_call(out, &call)?)
}

fn is_made(alloc: Global, want: &str) -> bool {
    let mut out = String::new(alloc);
    push_made(alloc, &mut out).is_ok() && out.as_str() == want
}

#[test]
fn calls_in_calls_can_be_made(rt: HostRuntime) {
    assert!(rt; is_made(rt.alloc(), "f[g[],k=h[],r[] as x]"));
}
