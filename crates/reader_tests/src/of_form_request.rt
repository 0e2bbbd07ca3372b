// Tests of form_request, by streams worked by hand from the standards and the rules of requests.
use crate::request_samples::{CHUNKS, PIPELINED, PIPELINED_ANSWERS, READ, REFUSED};
use form_request::{
    After, Handler, Param, Reading, Request, Requests, Step100, one_reading, read_pieces,
};
use std::alloc::{AllocError, Global};
use std::process::Abort;
use std::test::Fail;
use tuple_values::{Bytes, Memory, NameShards, Names, Text};

fn push_name(alloc: Global, names: &mut Names, name: &str) -> Result<(), Memory> {
    let name = Text::of(alloc, name)?;
    names.push(NameShards { name, shards: 2 })
}

fn known(alloc: Global) -> Result<Names, Memory> {
    let mut names = Names::new(alloc);
    push_name(alloc, &mut names, "src")?;
    push_name(alloc, &mut names, "dest")?;
    Ok(names)
}

fn push_param(log: &mut String, param: &Param) -> Result<(), AllocError> {
    log.push_str(" ")?;
    log.push_str(param.name.as_str())?;
    log.push_str("=")?;
    log.push_str(param.value.as_str())
}

fn push_params(log: &mut String, params: &[Param]) -> Result<(), AllocError> {
    for param in params {
        push_param(log, param)?;
    }
    Ok(())
}

fn push_number(log: &mut String, number: u64) -> Result<(), AllocError> {
    write!(log, "{number}").map_err(|_| AllocError)
}

fn push_body(log: &mut String, request: &Request) -> Result<(), AllocError> {
    log.push_str(" [")?;
    push_number(log, request.body.len() as u64)?;
    log.push_str(if request.closes { "] close" } else { "]" })?;
    log.push_str(if request.chunks { ";" } else { " whole;" })
}

fn push_request(log: &mut String, request: &Request) -> Result<(), AllocError> {
    log.push_str(match request.handler {
        Handler::Stream => "stream ",
        Handler::Update => "update ",
    })?;
    log.push_str(request.collection.as_str())?;
    push_params(log, request.params.as_slice())?;
    push_body(log, request)
}

// What a reader of a stream does next.
#[derive(Clone, Copy, PartialEq, Eq)]
enum Next {
    Ask,
    Feed,
    Stop,
}

fn push_refusal(log: &mut String, status: u16) -> Result<(), AllocError> {
    push_number(log, status.into())?;
    log.push_str(";")
}

// What a step answers, as a row of a table writes it: `100 `, the refusal's status, or the handler,
// the collection, the parameters, the length of the body, `close` where it closes, and `whole` where
// its reply may not go in chunks.
fn push_step(log: &mut String, step: &Step100) -> Result<Next, AllocError> {
    match step {
        Step100::Wants => Ok(Next::Feed),
        Step100::Continue => {
            log.push_str("100;")?;
            Ok(Next::Ask)
        }
        Step100::Refused { status } => {
            push_refusal(log, *status)?;
            Ok(Next::Stop)
        }
        Step100::Whole(request) => {
            push_request(log, request)?;
            Ok(Next::Ask)
        }
    }
}

fn push_next(log: &mut String, requests: &mut Requests, names: &Names) -> Result<Next, Memory> {
    let step = requests.next(names)?;
    Ok(push_step(log, &step)?)
}

fn push_steps(log: &mut String, requests: &mut Requests, names: &Names) -> Result<Next, Memory> {
    for _ in 0..100u8 {
        let next = push_next(log, requests, names)?;
        if next != Next::Ask {
            return Ok(next);
        }
    }
    Ok(Next::Stop)
}

fn push_fed(
    log: &mut String,
    requests: &mut Requests,
    names: &Names,
    piece: &[u8],
) -> Result<Next, Memory> {
    requests.feed(piece)?;
    push_steps(log, requests, names)
}

// What the stream answers that comes in pieces of this length, and the bytes that it holds then.
fn push_pieces(
    log: &mut String,
    requests: &mut Requests,
    names: &Names,
    bytes: &[u8],
    size: usize,
) -> Result<(), Memory> {
    for piece in bytes.chunks(size.max(1)) {
        if push_fed(log, requests, names, piece)? == Next::Stop {
            break;
        }
    }
    Ok(push_number(log, requests.held())?)
}

fn push_answers(alloc: Global, log: &mut String, bytes: &[u8], size: usize) -> Result<(), Memory> {
    let names = known(alloc)?;
    let mut requests = Requests::begin(alloc);
    push_pieces(log, &mut requests, &names, bytes, size)
}

fn answers(alloc: Global, bytes: &[u8], size: usize, want: &str) -> bool {
    let mut log = String::new(alloc);
    push_answers(alloc, &mut log, bytes, size).is_ok() && log.as_str() == want
}

#[test]
fn requests_of_common_clients_are_read(rt: HostRuntime) {
    for (text, want) in &READ {
        assert!(rt;
            answers(rt.alloc(), text.as_bytes(), 10_000, want),
            "of {text}"
        );
    }
}

#[test]
fn a_message_is_refused_by_the_first_rule_that_it_breaks(rt: HostRuntime) {
    for (text, want) in &REFUSED {
        assert!(rt;
            answers(rt.alloc(), text.as_bytes(), 10_000, want),
            "of {text}"
        );
    }
}

fn push_pipelined(bytes: &mut Bytes) -> Result<(), Memory> {
    for text in &PIPELINED {
        bytes.extend(text.as_bytes())?;
    }
    Ok(())
}

fn assert_cuttings(rt: &impl Abort, alloc: Global, bytes: &[u8]) {
    for size in 1..1_200usize {
        assert!(rt;
            answers(alloc, bytes, size, PIPELINED_ANSWERS),
            "in pieces of {size}"
        );
    }
}

#[test]
fn each_cutting_gives_the_same_answers(rt: HostRuntime) -> Result<(), Fail> {
    let mut bytes = Bytes::new(rt.alloc());
    push_pipelined(&mut bytes)?;
    assert_cuttings(&rt, rt.alloc(), bytes.as_slice());
    Ok(())
}

fn push_piece(alloc: Global, pieces: &mut Vec<Bytes>, text: &str) -> Result<(), Memory> {
    let mut piece = Bytes::new(alloc);
    piece.extend(text.as_bytes())?;
    Ok(pieces.push(piece)?)
}

fn push_all_pieces(alloc: Global, pieces: &mut Vec<Bytes>) -> Result<(), Memory> {
    for text in &PIPELINED {
        push_piece(alloc, pieces, text)?;
    }
    Ok(())
}

fn pipelined_reading(alloc: Global) -> Result<Reading, Memory> {
    let mut pieces = Vec::new(alloc);
    push_all_pieces(alloc, &mut pieces)?;
    read_pieces(alloc, &known(alloc)?, &pieces)
}

fn asking(reading: &Reading) -> usize {
    reading
        .messages
        .as_slice()
        .iter()
        .filter(|m| m.asks)
        .count()
}

fn is_whole(reading: &Reading) -> bool {
    reading.messages.len() == 5
        && asking(reading) == 1
        && matches!(reading.after, After::Refusal(404))
}

#[test]
fn a_stream_in_pieces_is_read_whole(rt: HostRuntime) -> Result<(), Fail> {
    let reading = pipelined_reading(rt.alloc())?;
    one_reading();
    assert!(rt; is_whole(&reading));
    Ok(())
}

fn push_times(text: &mut Vec<u8>, part: &[u8], times: usize) -> Result<(), AllocError> {
    for _ in 0..times {
        text.extend_from_slice(part)?;
    }
    Ok(())
}

fn push_fields(text: &mut Vec<u8>, fields: usize) -> Result<(), AllocError> {
    text.extend_from_slice(b"GET /solr/src/stream HTTP/1.1\r\n")?;
    push_times(text, b"a:\r\n", fields.saturating_sub(1))?;
    text.extend_from_slice(b"b:")
}

// A head of so many bytes: a first line, so many fields in all, and an empty line.
fn push_head(text: &mut Vec<u8>, size: usize, fields: usize) -> Result<(), AllocError> {
    push_fields(text, fields)?;
    let letters = size.saturating_sub(text.len().saturating_add(4));
    push_times(text, b"x", letters)?;
    text.extend_from_slice(b"\r\n\r\n")
}

// Whether a head, with a text before it, is so answered in pieces of this length.
fn head_answers(
    alloc: Global,
    before: &[u8],
    head: (usize, usize),
    piece: usize,
    want: &str,
) -> Result<bool, AllocError> {
    let mut text = Vec::from_slice(alloc, before)?;
    push_head(&mut text, head.0.saturating_add(before.len()), head.1)?;
    Ok(text.len() == head.0.saturating_add(before.len()) && answers(alloc, &text, piece, want))
}

fn in_pieces(alloc: Global, head: (usize, usize), want: &str) -> bool {
    matches!(head_answers(alloc, b"", head, 1, want), Ok(true))
        && matches!(head_answers(alloc, b"", head, 4_096, want), Ok(true))
        && matches!(head_answers(alloc, b"", head, 20_000, want), Ok(true))
}

// Whether a head of so many bytes and fields is so answered, and so behind an empty line.
fn is_head(alloc: Global, head: (usize, usize), want: &str, behind: &str) -> bool {
    in_pieces(alloc, head, want)
        && matches!(head_answers(alloc, b"\n", head, 5_000, behind), Ok(true))
}

fn fit(alloc: Global) -> bool {
    is_head(alloc, (16_384, 1), "stream src [0];0", "431;0")
        && is_head(alloc, (300, 64), "stream src [0];0", "stream src [0];0")
}

fn are_too_large(alloc: Global) -> bool {
    is_head(alloc, (16_385, 1), "431;0", "431;0") && is_head(alloc, (305, 65), "431;0", "431;0")
}

#[test]
fn a_head_has_16384_bytes_and_64_fields_at_most(rt: HostRuntime) {
    assert!(rt; fit(rt.alloc()) && are_too_large(rt.alloc()));
}

// How so many of this byte are answered.
fn repeated_answers(alloc: Global, byte: u8, times: usize, want: &str) -> Result<bool, AllocError> {
    let text = vec![in alloc; byte; times]?;
    Ok(answers(alloc, &text, 1_000, want))
}

fn no_head_comes(alloc: Global, byte: u8, few: &str) -> bool {
    matches!(repeated_answers(alloc, byte, 16_383, few), Ok(true))
        && matches!(repeated_answers(alloc, byte, 16_384, "431;0"), Ok(true))
}

#[test]
fn bytes_without_a_head_are_refused_once_there_are_16384(rt: HostRuntime) {
    assert!(rt; no_head_comes(rt.alloc(), b'x', "16383") && no_head_comes(rt.alloc(), b'\n', "0"));
}

// Whether each piece of the body but the last asks for more; what is answered then.
fn push_body_pieces(
    log: &mut String,
    requests: &mut Requests,
    names: &Names,
) -> Result<bool, Memory> {
    let piece = [b'x'; 4_096];
    for _ in 0..2_048u16 {
        if push_steps(log, requests, names)? != Next::Feed {
            return Ok(false);
        }
        requests.feed(&piece)?;
    }
    let _ = push_steps(log, requests, names)?;
    Ok(true)
}

// Whether nothing is held once the greatest body has come; what is answered then.
fn push_greatest(alloc: Global, log: &mut String) -> Result<bool, Memory> {
    let names = known(alloc)?;
    let mut requests = Requests::begin(alloc);
    requests.feed(b"POST /solr/src/update HTTP/1.1\r\nContent-Length: 8388608\r\n\r\n")?;
    Ok(push_body_pieces(log, &mut requests, &names)? && requests.held() == 0)
}

fn is_read(alloc: Global, want: &str) -> bool {
    let mut log = String::new(alloc);
    push_greatest(alloc, &mut log) == Ok(true) && log.as_str() == want
}

#[test]
fn a_body_of_the_greatest_length_comes_in_pieces(rt: HostRuntime) {
    assert!(rt; is_read(rt.alloc(), "update src [8388608];"));
}

fn step_of(alloc: Global, bytes: &[u8]) -> Result<Step100, Memory> {
    let names = known(alloc)?;
    let mut requests = Requests::begin(alloc);
    requests.feed(bytes)?;
    requests.next(&names)
}

fn has_first_params(request: &Request) -> bool {
    request.param("a") == Some("1")
        && request.param("b") == Some("2")
        && request.param("c") == Some("5")
        && request.param("d").is_none()
        && request.body.as_slice() == b"b=4&c=5".as_slice()
}

const TWICE: &[u8] =
    b"POST /solr/src/stream?a=1&b=2&a=3 HTTP/1.1\r\nContent-Length: 7\r\n\r\nb=4&c=5";

fn first_counts(alloc: Global) -> bool {
    match step_of(alloc, TWICE) {
        Ok(Step100::Whole(request)) => has_first_params(&request),
        _ => false,
    }
}

#[test]
fn the_first_parameter_of_a_name_counts(rt: HostRuntime) {
    assert!(rt; first_counts(rt.alloc()));
}

fn says(alloc: Global, text: &str, closes: bool, chunks: bool) -> bool {
    match step_of(alloc, text.as_bytes()) {
        Ok(Step100::Whole(request)) => request.closes == closes && request.chunks == chunks,
        _ => false,
    }
}

#[test]
fn a_reply_may_go_in_chunks_but_to_a_request_of_1_0(rt: HostRuntime) {
    for (text, closes, chunks) in &CHUNKS {
        assert!(rt; says(rt.alloc(), text, *closes, *chunks), "of {text}");
    }
}

fn stops(log: &mut String, requests: &mut Requests, names: &Names, piece: &[u8]) -> bool {
    push_fed(log, requests, names, piece) == Ok(Next::Stop)
}

fn push_stopped(alloc: Global, log: &mut String) -> Result<bool, Memory> {
    let names = known(alloc)?;
    let mut requests = Requests::begin(alloc);
    Ok(
        stops(log, &mut requests, &names, b"\n\nPUT / HTTP/1.1\n\n")
            && stops(log, &mut requests, &names, b"")
            && stops(
                log,
                &mut requests,
                &names,
                b"GET /solr/src/stream HTTP/1.1\n\n",
            ),
    )
}

fn is_refused(alloc: Global, want: &str) -> bool {
    let mut log = String::new(alloc);
    push_stopped(alloc, &mut log) == Ok(true) && log.as_str() == want
}

#[test]
fn a_refusal_is_answered_again(rt: HostRuntime) {
    assert!(rt; is_refused(rt.alloc(), "404;404;404;"));
}
