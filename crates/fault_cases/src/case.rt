// One line of the cases, and its answer.
use crate::faults::{Fault, Kind, NONE};
use crate::messages::{add_body, add_documents, add_get, add_letters};
use crate::scripts::{Asked, script_told};
use crate::servers::{failed_told, run_told};
use crate::session::{Session, Talk, begin};
use std::alloc::Global;
use std::sync::Wait;
use std::thread::Threads;
use std::time::Clock as SystemClock;
use tuple_values::Memory;

// The number that a word writes, and 0 for no number.
fn number(word: Option<&str>) -> usize {
    word.and_then(|word| word.parse::<usize>().ok())
        .unwrap_or(0)
}

// Adds the message of these words.
fn add_message(alloc: Global, talk: &mut Talk, word: &str, words: &str) -> Result<(), Memory> {
    match word {
        "GET" => add_get(talk, words),
        "POST" => add_body(alloc, talk, words),
        "FILL" => add_documents(alloc, talk, words),
        "LETTERS" => add_letters(alloc, talk, words),
        "field" => talk.set_field(alloc, words),
        _ => Ok(()),
    }
}

// Adds a message, and tells how many bytes it has.
fn added(alloc: Global, talk: &mut Talk, word: &str, words: &str) -> Result<String, Memory> {
    let before = talk.bytes.len();
    add_message(alloc, talk, word, words)?;
    let bytes = talk.bytes.len().saturating_sub(before);
    Ok(format!(in alloc; "{bytes} bytes")?)
}

// The same at the last client.
fn added_last(
    alloc: Global,
    session: &mut Session,
    word: &str,
    words: &str,
) -> Result<String, Memory> {
    match session.talks.last_mut() {
        Some(talk) => added(alloc, talk, word, words),
        None => Ok(String::from_str(alloc, "no client")?),
    }
}

// A new session of these words.
fn begun(alloc: Global, session: &mut Session, words: &str) -> Result<String, Memory> {
    *session = begin(alloc, words)?;
    Ok(String::from_str(alloc, "begun")?)
}

// One more client.
fn joined(alloc: Global, session: &mut Session) -> Result<String, Memory> {
    session.add_talk(alloc)?;
    Ok(String::from_str(alloc, "client")?)
}

fn is_server(session: &Session) -> bool {
    match session.words.get(0) {
        Some(word) => word.as_str() == "serve",
        None => false,
    }
}

// What is told of the runs of which a call of this kind fails.
fn failed<R: Threads + Wait + SystemClock + Sync>(
    rt: &R,
    alloc: Global,
    session: &Session,
    kind: Kind,
    words: &str,
) -> Result<String, Memory> {
    let mut words = words.split_whitespace();
    let place = number(words.next());
    let most = number(words.next());
    if is_server(session) {
        failed_told(rt, alloc, session, most, kind, place)
    } else {
        script_told(rt, alloc, session, most, Asked::Fail(kind))
    }
}

// What is told of the whole run.
fn ran<R: Threads + Wait + SystemClock + Sync>(
    rt: &R,
    alloc: Global,
    session: &Session,
    words: &str,
) -> Result<String, Memory> {
    let most = number(Some(words));
    if is_server(session) {
        run_told(rt, alloc, session, most, NONE)
    } else {
        script_told(rt, alloc, session, most, Asked::Run)
    }
}

// What is told of a server whose door fails so often to give a client.
fn worn<R: Threads + Wait + SystemClock + Sync>(
    rt: &R,
    alloc: Global,
    session: &Session,
    words: &str,
) -> Result<String, Memory> {
    let mut words = words.split_whitespace();
    let place = number(words.next());
    let times = number(words.next()) as u64;
    let fault = Fault {
        kind: Kind::Next,
        place,
        call: 0,
        times,
    };
    run_told(rt, alloc, session, number(words.next()), fault)
}

// The answer to a word and what stands behind it.
fn answer<R: Threads + Wait + SystemClock + Sync>(
    rt: &R,
    alloc: Global,
    session: &mut Session,
    word: &str,
    words: &str,
) -> Result<String, Memory> {
    match word {
        "words" => begun(alloc, session, words),
        "client" => joined(alloc, session),
        "wear" => worn(rt, alloc, session, words),
        "run" => ran(rt, alloc, session, words),
        "take" => failed(rt, alloc, session, Kind::Take, words),
        "put" => failed(rt, alloc, session, Kind::Put, words),
        "listen" => failed(rt, alloc, session, Kind::Listen, words),
        "next" => failed(rt, alloc, session, Kind::Next, words),
        "cut" => script_told(rt, alloc, session, number(Some(words)), Asked::Cut),
        _ => added_last(alloc, session, word, words),
    }
}

/// The answer to a line.
pub fn answer_line<R: Threads + Wait + SystemClock + Sync>(
    rt: &R,
    alloc: Global,
    session: &mut Session,
    line: &str,
) -> Result<String, Memory> {
    let (word, words) = line.split_once(' ').unwrap_or((line, ""));
    answer(rt, alloc, session, word, words)
}
