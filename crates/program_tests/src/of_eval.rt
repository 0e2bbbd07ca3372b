// Whole runs of expressions, with replies that were worked out by hand.
use crate::running::{Wanted, leaves};
use handler_tests::joining::joined;
use handler_tests::samples::{END, OPENING};
use std::alloc::Global;
use std::sync::Wait;
use std::test::Fail;
use std::thread::Threads;
use std::time::Clock as SystemClock;
use tuple_values::{Bytes, Memory};

const EXCEPTION: &str = "{\"EOF\":true,\"EXCEPTION\":\"";

const EXCEPTION_END: &str = "\",\"RESPONSE_TIME\":0}]}}";

/// Whether an input is answered with these tuples.
pub(crate) fn gives<R: Threads + Wait + SystemClock + Sync>(
    rt: &R,
    alloc: Global,
    words: &str,
    input: Bytes,
    tuples: &str,
) -> Result<bool, Memory> {
    let wanted = Wanted {
        status: 0,
        output: &[
            OPENING,
            tuples,
            if tuples.is_empty() { "" } else { "," },
            END,
        ],
        errors: "",
    };
    leaves(rt, alloc, words, input, wanted)
}

/// Whether this is told of an input's fault.
pub(crate) fn tells<R: Threads + Wait + SystemClock + Sync>(
    rt: &R,
    alloc: Global,
    words: &str,
    input: Bytes,
    fault: &str,
) -> Result<bool, Memory> {
    let wanted = Wanted {
        status: 3,
        output: &[OPENING, EXCEPTION, fault, EXCEPTION_END],
        errors: "",
    };
    leaves(rt, alloc, words, input, wanted)
}

fn is_given<R: Threads + Wait + SystemClock + Sync>(
    rt: &R,
    alloc: Global,
    words: &str,
    input: &str,
    tuples: &str,
) -> Result<bool, Memory> {
    gives(rt, alloc, words, joined(alloc, &[input])?, tuples)
}

fn is_told<R: Threads + Wait + SystemClock + Sync>(
    rt: &R,
    alloc: Global,
    words: &str,
    input: &str,
    fault: &str,
) -> Result<bool, Memory> {
    tells(rt, alloc, words, joined(alloc, &[input])?, fault)
}

const TUPLES: [(&str, &str); 5] = [
    ("tuple(a=1,b=\"x\")", "{\"a\":1,\"b\":\"x\"}"),
    (" tuple ( b = \"x\" , a=1 )\n", "{\"a\":1,\"b\":\"x\"}"),
    ("tuple()", "{}"),
    (
        "tuple(n=-7,m=\"8\",t=a b)",
        "{\"m\":\"8\",\"n\":-7,\"t\":\"a b\"}",
    ),
    ("tuple(q=\"\\\"\u{e4}\")", "{\"q\":\"\\\"\u{e4}\"}"),
];

#[test]
fn a_tuple_is_answered(rt: HostRuntime) -> Result<(), Fail> {
    for (input, tuple) in &TUPLES {
        assert!(rt;
            is_given(&rt, rt.alloc(), "eval", input, tuple)?,
            "at {input}"
        );
    }
    Ok(())
}

const FAULTS: [(&str, &str); 9] = [
    ("", "Syntax at 0"),
    ("tuple(a=1", "Syntax at 9"),
    ("tuple(a==1)", "Syntax at 8"),
    ("tuple(a=sum(b))", "BadParam tuple a"),
    ("tuple(a=sum(b", "Syntax at 13"),
    ("foo(a=1)", "UnknownFunction foo"),
    ("foo(1)", "UnknownFunction foo"),
    ("tuple(a=1,7,a=2)", "BadParam tuple operand"),
    ("tuple(a=1,a=2,7)", "BadParam tuple a"),
];

#[test]
fn a_fault_of_an_expression_is_told(rt: HostRuntime) -> Result<(), Fail> {
    for (input, fault) in &FAULTS {
        assert!(rt;
            is_told(&rt, rt.alloc(), "eval", input, fault)?,
            "at {input}"
        );
    }
    Ok(())
}

#[test]
fn a_search_of_an_empty_collection_gives_no_tuple(rt: HostRuntime) -> Result<(), Fail> {
    let input = "search(c,q=\"*:*\",fl=\"id\",sort=\"id asc\")";
    assert!(rt; is_given(&rt, rt.alloc(), "eval c=2", input, "")?);
    assert!(rt; is_given(&rt, rt.alloc(), "eval d=8 c=8", input, "")?);
    Ok(())
}

// Words, expressions that have a fault, and what is told of it.
const SEARCHES: [(&str, &str, &str); 3] = [
    (
        "eval c=2",
        "search(x,q=\"*:*\",fl=\"id\",sort=\"id asc\")",
        "UnknownCollection x",
    ),
    (
        "eval",
        "search(c,q=\"*:*\",fl=\"id\",sort=\"id asc\")",
        "UnknownCollection c",
    ),
    (
        "eval c=1",
        "search(c,q=\"*:*\",fl=\"id\")",
        "MissingParam search sort",
    ),
];

#[test]
fn a_fault_of_a_search_is_told(rt: HostRuntime) -> Result<(), Fail> {
    for (words, input, fault) in &SEARCHES {
        assert!(rt;
            is_told(&rt, rt.alloc(), words, input, fault)?,
            "at {input}"
        );
    }
    Ok(())
}

// Expressions, and the tuples that they give, with a comma between each and the next.
const DECORATED: [(&str, &str); 12] = [
    (
        "merge(tuple(a=1,b=1),tuple(a=1,b=2),on=\"a asc\")",
        "{\"a\":1,\"b\":1},{\"a\":1,\"b\":2}",
    ),
    (
        "rollup(merge(tuple(g=a,v_l=9223372036854775807),tuple(g=a,v_l=1),on=\"g asc\"),\
         over=\"g\",sum(v_l),min(v_l),max(w_l),count(*))",
        "{\"count(*)\":2,\"g\":\"a\",\"min(v_l)\":1,\"sum(v_l)\":-9223372036854775808}",
    ),
    ("having(tuple(a=5),gt(a,\"4\"))", "{\"a\":5}"),
    (
        "select(tuple(a=1,b=\"x\"),a as c,replace(c,1,withValue=2),\
         concat(fields=\"c,d\",as=\"e\",delim=\"-\"))",
        "{\"c\":2,\"e\":\"2\"}",
    ),
    (
        "unique(merge(tuple(a=1,b=2),tuple(a=1,b=1),on=\"a asc\"),over=\"a\")",
        "{\"a\":1,\"b\":2}",
    ),
    (
        "top(n=1,merge(tuple(a=1),tuple(a=2),on=\"a asc\"),sort=\"a desc\")",
        "{\"a\":2}",
    ),
    (
        "reduce(merge(tuple(a=1,b=1),tuple(a=1,b=2),on=\"a asc\"),by=\"a\",\
         group(sort=\"b desc\",n=\"1\"))",
        "{\"a\":1,\"b\":2,\"group\":[{\"a\":1,\"b\":2}]}",
    ),
    (
        "sort(merge(tuple(a=1,b=2),tuple(a=2,b=1),on=\"a asc\"),by=\"b asc\")",
        "{\"a\":2,\"b\":1},{\"a\":1,\"b\":2}",
    ),
    (
        "unique(select(merge(tuple(k=1,t=x),tuple(k=1,t=y),tuple(k=2),on=\"k desc\"),k as m),\
         over=\"m\")",
        "{\"m\":2},{\"m\":1}",
    ),
    (
        "innerJoin(merge(tuple(k=1,l=1,x=1),tuple(k=1,l=2,x=2),on=\"k asc\"),\
         merge(tuple(k=1,x=9,y=1),tuple(k=1,x=8,y=2),on=\"k asc\"),on=\"k\")",
        "{\"k\":1,\"l\":1,\"x\":9,\"y\":1},{\"k\":1,\"l\":1,\"x\":8,\"y\":2},\
         {\"k\":1,\"l\":2,\"x\":9,\"y\":1},{\"k\":1,\"l\":2,\"x\":8,\"y\":2}",
    ),
    (
        "outerHashJoin(tuple(a=1),hashed=tuple(b=2),on=\"a=b\")",
        "{\"a\":1}",
    ),
    ("complement(tuple(a=1),tuple(a=2),on=\"a\")", "{\"a\":1}"),
];

#[test]
fn decorators_are_answered(rt: HostRuntime) -> Result<(), Fail> {
    for (input, tuples) in &DECORATED {
        assert!(rt;
            is_given(&rt, rt.alloc(), "eval", input, tuples)?,
            "at {input}"
        );
    }
    Ok(())
}

// Words, expressions that have a fault, and what is told of it.
const UNSORTED: [(&str, &str, &str); 9] = [
    (
        "eval c=2",
        "parallel(c,top(n=1,search(c,q=\"*:*\",fl=\"g_s\",sort=\"g_s asc\",partitionKeys=\"g_s\"),\
         sort=\"g_s asc\"),workers=2,sort=\"g_s asc\")",
        "NotPartitioned top",
    ),
    ("eval c=1", "update(c,tuple(id=1))", "BadPlace update"),
    (
        "eval c=1",
        "innerJoin(search(c,q=\"*:*\",fl=\"k_i\",sort=\"k_i asc\"),\
         search(c,q=\"*:*\",fl=\"k_i\",sort=\"k_i desc\"),on=\"k_i\")",
        "NotSorted innerJoin needs k_i asc has k_i desc",
    ),
    (
        "eval",
        "merge(sort(tuple(a=1),by=\"a desc\"),tuple(a=2),on=\"a asc\")",
        "NotSorted merge needs a asc has a desc",
    ),
    (
        "eval c=1",
        "unique(search(c,q=\"*:*\",fl=\"id,g_s\",sort=\"g_s asc\"),over=\"id\")",
        "NotSorted unique needs id has g_s asc",
    ),
    (
        "eval c=1",
        "rollup(select(search(c,q=\"*:*\",fl=\"g_s\",sort=\"g_s asc\"),g_s,replace(g_s,a,withValue=b)),\
         over=\"g_s\",count(*))",
        "NotSorted rollup needs g_s has none",
    ),
    ("eval", "unique(tuple(a=1))", "MissingParam unique over"),
    (
        "eval c=1",
        "having(search(d,q=\"*:*\",fl=\"id\",sort=\"id asc\"),eq(id,1))",
        "UnknownCollection d",
    ),
    (
        "eval",
        "merge(tuple(a=1),on=\"a asc\")",
        "WrongInputs merge 1",
    ),
];

#[test]
fn a_fault_of_decorators_is_told(rt: HostRuntime) -> Result<(), Fail> {
    for (words, input, fault) in &UNSORTED {
        assert!(rt;
            is_told(&rt, rt.alloc(), words, input, fault)?,
            "at {input}"
        );
    }
    Ok(())
}

#[test]
fn a_condition_that_no_tuple_meets_gives_none(rt: HostRuntime) -> Result<(), Fail> {
    assert!(rt; is_given(&rt, rt.alloc(), "eval", "having(tuple(a=5),gt(b,4))", "")?);
    Ok(())
}
