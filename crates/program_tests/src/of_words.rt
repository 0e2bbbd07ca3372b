// Words that are no command: a line refuses them, or a text that tells why; or they ask for a text,
// which is shown.
use crate::running::{Failing, Ran, Wanted, a_run, fails, leaves};
use handler_tests::joining::{joined, source};
use io_edge::NoGate;
use std::alloc::Global;
use std::sync::Wait;
use std::test::Fail;
use std::thread::Threads;
use std::time::Clock as SystemClock;
use tuple_values::Memory;

const LINE: &str = "words refused\n";

const REFUSED: [&str; 12] = [
    "",
    "eval x",
    "eval c=0",
    "eval c=1 c=1",
    "script",
    "script c=9",
    "serve",
    "serve --workers 17 c=1",
    "load",
    "load 0",
    "load 200001",
    "load x",
];

fn is_refused<R: Threads + Wait + SystemClock + Sync>(
    rt: &R,
    alloc: Global,
    words: &str,
) -> Result<bool, Memory> {
    let wanted = Wanted {
        status: 2,
        output: &[],
        errors: LINE,
    };
    leaves(rt, alloc, words, joined(alloc, &["tuple()"])?, wanted)
}

#[test]
fn other_words_are_refused(rt: HostRuntime) -> Result<(), Fail> {
    for words in &REFUSED {
        assert!(rt; is_refused(&rt, rt.alloc(), words)?, "with {words}");
    }
    Ok(())
}

// What these words leave.
fn left<R: Threads + Wait + SystemClock + Sync>(
    rt: &R,
    alloc: Global,
    words: &str,
) -> Result<Ran, Memory> {
    let mut input = source(alloc, joined(alloc, &["tuple()"])?, None)?;
    a_run(rt, alloc, words, &mut input, None, &NoGate)
}

const TOLD: [&str; 4] = ["x", "--nonsense", "eval --x", "load 8 8"];

// Whether a text of their own refuses these words.
fn is_told<R: Threads + Wait + SystemClock + Sync>(
    rt: &R,
    alloc: Global,
    words: &str,
) -> Result<bool, Memory> {
    let ran = left(rt, alloc, words)?;
    let text = ran.errors.bytes();
    let is_own = !text.is_empty() && text != LINE.as_bytes();
    Ok(ran.status == 2 && ran.output.bytes().is_empty() && is_own)
}

#[test]
fn unknown_commands_and_options_are_told(rt: HostRuntime) -> Result<(), Fail> {
    for words in &TOLD {
        assert!(rt; is_told(&rt, rt.alloc(), words)?, "with {words}");
    }
    Ok(())
}

const SHOWN: [&str; 4] = ["--version", "--help", "help serve", "serve --help"];

// Whether these words are shown a text.
fn is_shown<R: Threads + Wait + SystemClock + Sync>(
    rt: &R,
    alloc: Global,
    words: &str,
) -> Result<bool, Memory> {
    let ran = left(rt, alloc, words)?;
    Ok(ran.status == 0 && !ran.output.bytes().is_empty() && ran.errors.bytes().is_empty())
}

#[test]
fn help_and_the_version_are_shown(rt: HostRuntime) -> Result<(), Fail> {
    for words in &SHOWN {
        assert!(rt; is_shown(&rt, rt.alloc(), words)?, "with {words}");
    }
    Ok(())
}

#[test]
fn a_text_that_is_not_written_is_a_fault(rt: HostRuntime) -> Result<(), Fail> {
    let output = Failing::Output(0);
    assert!(rt; fails(&rt, rt.alloc(), "--version", "", output, "fault: output\n")?);
    Ok(())
}

// The documents 0 and 2 have the amounts 0 and 226; 4 and 7 have 452 and 143.
const LOADS: [(&str, &str); 2] = [
    (
        "load 4",
        "src docs=4 writes=6\ndest docs=2 sum_a=226 sum_rev=2\n",
    ),
    (
        "load 8",
        "src docs=8 writes=12\ndest docs=4 sum_a=821 sum_rev=3\n",
    ),
];

// Whether a load of these words writes this summary, and reads nothing.
fn is_loaded<R: Threads + Wait + SystemClock + Sync>(
    rt: &R,
    alloc: Global,
    words: &str,
    summary: &str,
) -> Result<bool, Memory> {
    let wanted = Wanted {
        status: 0,
        output: &[summary],
        errors: "",
    };
    leaves(rt, alloc, words, joined(alloc, &["tuple()"])?, wanted)
}

#[test]
fn loads_are_summed(rt: HostRuntime) -> Result<(), Fail> {
    for (words, summary) in &LOADS {
        assert!(rt; is_loaded(&rt, rt.alloc(), words, summary)?, "with {words}");
    }
    Ok(())
}
