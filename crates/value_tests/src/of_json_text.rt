// Tests of json_text, by values worked by hand from RFC 8259 and the rules of updates and replies.
use crate::making::{long_tuple, put_long, put_text};
use json_text::{
    EndTuple, JsonFault, Pieces, Update, error_text, read_update, result_set_text, tuple_text,
    update_text,
};
use std::alloc::Global;
use tuple_values::{Bytes, Memory, Text, Tuple, Tuples, Value, Write};

fn is(bytes: Result<Bytes, Memory>, want: &str) -> bool {
    match bytes {
        Ok(bytes) => bytes.as_slice() == want.as_bytes(),
        Err(_) => false,
    }
}

// A tuple without fields and one with a field.
fn group(alloc: Global) -> Result<Tuples, Memory> {
    let mut group = Tuples::empty(alloc);
    group.push(Tuple::empty(alloc))?;
    group.push(long_tuple(alloc, "n_i", i64::MIN)?)?;
    Ok(group)
}

fn put_group(alloc: Global, tuple: &mut Tuple, name: &str, group: Tuples) -> Result<(), Memory> {
    let name = Text::of(alloc, name)?;
    tuple.put(name, Value::Group(group))
}

fn put_fields(alloc: Global, tuple: &mut Tuple) -> Result<(), Memory> {
    put_text(alloc, tuple, "b", "x\"\\\u{8}\u{c}\n\r\t\u{1f}/\u{7f}é")?;
    put_group(alloc, tuple, "c", group(alloc)?)?;
    put_group(alloc, tuple, "d", Tuples::empty(alloc))?;
    put_long(alloc, tuple, "a", 1)?;
    put_long(alloc, tuple, "Z", -7)
}

const TUPLE: &str = "{\"Z\":-7,\"a\":1,\"b\":\"x\\\"\\\\\\b\\f\\n\\r\\t\\u001f/\u{7f}é\",\
    \"c\":[{},{\"n_i\":-9223372036854775808}],\"d\":[]}";

fn is_in_order(alloc: Global) -> Result<bool, Memory> {
    let mut tuple = Tuple::empty(alloc);
    put_fields(alloc, &mut tuple)?;
    Ok(is(tuple_text(alloc, &tuple), TUPLE))
}

#[test]
fn a_tuple_has_its_fields_in_order_of_bytes(rt: HostRuntime) {
    assert!(rt; is(tuple_text(rt.alloc(), &Tuple::empty(rt.alloc())), "{}"));
    assert!(rt; is_in_order(rt.alloc()) == Ok(true));
}

const FAULT_ALONE: &str = "{\"result-set\":{\"docs\":[{\"EOF\":true,\
    \"EXCEPTION\":\"DaemonTaken \\\"d\\\"\",\"RESPONSE_TIME\":12}]}}";

fn fault_end(alloc: Global) -> Result<EndTuple, Memory> {
    Ok(EndTuple {
        exception: Some(Text::of(alloc, "DaemonTaken \"d\"")?),
        millis: 12,
    })
}

fn ends_with_a_fault(alloc: Global) -> Result<bool, Memory> {
    let end = fault_end(alloc)?;
    let text = result_set_text(alloc, &Tuples::empty(alloc), &end);
    Ok(is(text, FAULT_ALONE))
}

// `{"a":1,"b":"x"}`, alone.
fn documents(alloc: Global) -> Result<Tuples, Memory> {
    let mut document = long_tuple(alloc, "a", 1)?;
    put_text(alloc, &mut document, "b", "x")?;
    let mut documents = Tuples::empty(alloc);
    documents.push(document)?;
    Ok(documents)
}

const DOCUMENT_AND_END: &str = "{\"result-set\":{\"docs\":[{\"a\":1,\"b\":\"x\"},\
    {\"EOF\":true,\"RESPONSE_TIME\":0}]}}";

fn ends_behind_documents(alloc: Global) -> Result<bool, Memory> {
    let documents = documents(alloc)?;
    let end = EndTuple {
        exception: None,
        millis: 0,
    };
    let text = result_set_text(alloc, &documents, &end);
    Ok(is(text, DOCUMENT_AND_END))
}

#[test]
fn a_result_set_ends_with_the_end_tuple(rt: HostRuntime) {
    assert!(rt;
        ends_with_a_fault(rt.alloc()) == Ok(true) && ends_behind_documents(rt.alloc()) == Ok(true)
    );
}

const HEAD: &str = "{\"result-set\":{\"docs\":[";

const CLOSE: &str = ",{\"EOF\":true,\"EXCEPTION\":\"DaemonTaken \\\"d\\\"\",\
    \"RESPONSE_TIME\":12}]}}";

// Whether the pieces of `{"a":1}`, `{"n_i":-2}` and a fault are these literals.
fn are_cut(alloc: Global) -> Result<bool, Memory> {
    let first = long_tuple(alloc, "a", 1)?;
    let second = long_tuple(alloc, "n_i", -2)?;
    let mut pieces = Pieces::begin(fault_end(alloc)?);
    Ok(
        is(pieces.head(alloc), HEAD)
            && is(pieces.tuple(alloc, &first), "{\"a\":1}")
            && is(pieces.tuple(alloc, &second), ",{\"n_i\":-2}")
            && is(pieces.close(alloc), CLOSE),
    )
}

fn two_documents(alloc: Global) -> Result<Tuples, Memory> {
    let mut documents = Tuples::empty(alloc);
    documents.push(long_tuple(alloc, "a", 1)?)?;
    documents.push(long_tuple(alloc, "n_i", -2)?)?;
    Ok(documents)
}

// The pieces of a result set that ends with a fault, in a row.
fn in_a_row(alloc: Global, documents: &Tuples) -> Result<Bytes, Memory> {
    let mut pieces = Pieces::begin(fault_end(alloc)?);
    let mut out = Bytes::new(alloc);
    pieces.push_head(&mut out)?;
    for k in 0..documents.count() {
        pieces.push_tuple(alloc, documents.get(k), &mut out)?;
    }
    pieces.push_end(alloc, &mut out)?;
    pieces.push_close(&mut out)?;
    Ok(out)
}

const DOCUMENTS_AND_FAULT: &str = "{\"result-set\":{\"docs\":[{\"a\":1},{\"n_i\":-2},{\"EOF\":true,\
    \"EXCEPTION\":\"DaemonTaken \\\"d\\\"\",\"RESPONSE_TIME\":12}]}}";

fn are_the_whole(alloc: Global) -> Result<bool, Memory> {
    let documents = two_documents(alloc)?;
    let end = fault_end(alloc)?;
    let whole = result_set_text(alloc, &documents, &end);
    Ok(
        is(whole, DOCUMENTS_AND_FAULT)
            && is(in_a_row(alloc, &documents), DOCUMENTS_AND_FAULT)
            && is(in_a_row(alloc, &Tuples::empty(alloc)), FAULT_ALONE),
    )
}

#[test]
fn pieces_in_a_row_are_the_result_set(rt: HostRuntime) {
    assert!(rt; are_cut(rt.alloc()) == Ok(true) && are_the_whole(rt.alloc()) == Ok(true));
}

fn begin_anew(alloc: Global) -> Result<bool, Memory> {
    let tuple = long_tuple(alloc, "a", 1)?;
    let mut pieces = Pieces::begin(fault_end(alloc)?);
    Ok(
        is(pieces.tuple(alloc, &tuple), "{\"a\":1}")
            && is(pieces.tuple(alloc, &tuple), ",{\"a\":1}")
            && is(pieces.head(alloc), HEAD)
            && is(pieces.tuple(alloc, &tuple), "{\"a\":1}"),
    )
}

#[test]
fn pieces_begin_anew_at_the_head(rt: HostRuntime) {
    assert!(rt; begin_anew(rt.alloc()) == Ok(true));
}

const ANSWER: &str = "{\"responseHeader\":{\"status\":0,\"QTime\":18446744073709551615}}";

const REFUSAL: &str = "{\"responseHeader\":{\"status\":400,\"QTime\":3},\
    \"error\":{\"msg\":\"NotWhole 0 n_i\",\"code\":400}}";

fn is_refused(alloc: Global) -> Result<bool, Memory> {
    let msg = Text::of(alloc, "NotWhole 0 n_i")?;
    Ok(is(error_text(alloc, 400, &msg, 3), REFUSAL))
}

#[test]
fn an_update_is_answered_by_its_status(rt: HostRuntime) {
    assert!(rt;
        is(update_text(rt.alloc(), u64::MAX), ANSWER) && is_refused(rt.alloc()) == Ok(true)
    );
}

fn push_document(alloc: Global, words: &mut String, document: &Tuple) -> Result<(), Memory> {
    let text = tuple_text(alloc, document)?;
    let shown = std::str::from_utf8(text.as_slice()).unwrap_or("no text");
    Ok(words.push_str(shown)?)
}

fn push_write(alloc: Global, words: &mut String, write: &Write) -> Result<(), Memory> {
    match write {
        Write::Put(document) => {
            words.push_str("+")?;
            push_document(alloc, words, document)
        }
        Write::Del(id) => {
            words.push_str("-")?;
            words.push_str(id.as_str())?;
            Ok(words.push_str(";")?)
        }
    }
}

fn push_update(alloc: Global, words: &mut String, update: &Update) -> Result<(), Memory> {
    for write in update.writes.as_slice() {
        push_write(alloc, words, write)?;
    }
    if update.commit {
        words.push_str("!")?;
    }
    Ok(())
}

fn push_fault(alloc: Global, words: &mut String, fault: &JsonFault) -> Result<(), Memory> {
    let text = fault.text(alloc)?;
    words.push_str(text.as_str())?;
    Ok(())
}

fn push_outcome(alloc: Global, words: &mut String, body: &[u8]) -> Result<(), Memory> {
    match read_update(alloc, body) {
        Ok(update) => push_update(alloc, words, &update),
        Err(fault) => push_fault(alloc, words, &fault),
    }
}

// What an update asks for, in words: each document after a `+`, each id from `-` to `;`, and
// `!` for a commit; or the text of its fault.
fn outcome(alloc: Global, body: &[u8]) -> Result<String, Memory> {
    let mut words = String::new(alloc);
    push_outcome(alloc, &mut words, body)?;
    Ok(words)
}

fn comes_to(alloc: Global, body: &[u8], want: &str) -> bool {
    match outcome(alloc, body) {
        Ok(words) => words.as_str() == want,
        Err(_) => false,
    }
}

const BODIES: [(&str, &str); 63] = [
    // lists of documents
    ("", ""),
    (" ", "NotJson"),
    ("[]", ""),
    (" [ ] \n", ""),
    (
        "[{\"id\":\"1\",\"n_i\":\"5\"}]",
        "+{\"id\":\"1\",\"n_i\":5}",
    ),
    ("[{\"n_i\":1}]", "NoId 0"),
    ("[{\"id\":\"1\",\"n_i\":1.5}]", "NotWhole 0 n_i"),
    ("[1]", "NotADocument 0"),
    ("[[]]", "NotADocument 0"),
    ("[", "NotJson"),
    (
        "[{\"id\":1},{\"id\":\"b\"}]",
        "+{\"id\":\"1\"}+{\"id\":\"b\"}",
    ),
    ("[{\"id\":\"1\"},{},{\"n_i\":\"x\"}]", "NoId 1"),
    ("[{\"id\":\"1\"},null]", "NotADocument 1"),
    // values
    (
        "{\"id\":\"1\",\"a\":true,\"b\":false,\"c\":null}",
        "+{\"a\":\"true\",\"b\":\"false\",\"id\":\"1\"}",
    ),
    (
        "{\"id\":\"1\",\"t_s\":-7,\"n_l\":\"-7\"}",
        "+{\"id\":\"1\",\"n_l\":-7,\"t_s\":\"-7\"}",
    ),
    (
        "{\"id\":\"1\",\"n\":9223372036854775807}",
        "+{\"id\":\"1\",\"n\":9223372036854775807}",
    ),
    (
        "{\"id\":\"1\",\"n\":-9223372036854775808}",
        "+{\"id\":\"1\",\"n\":-9223372036854775808}",
    ),
    ("{\"id\":\"1\",\"n\":9223372036854775808}", "NotWhole 0 n"),
    ("{\"id\":\"1\",\"n\":18446744073709551616}", "NotWhole 0 n"),
    ("{\"id\":\"1\",\"n\":-0}", "NotWhole 0 n"),
    ("{\"id\":\"1\",\"n\":1e2}", "NotWhole 0 n"),
    ("{\"id\":\"1\",\"n\":1.0}", "NotWhole 0 n"),
    ("{\"id\":\"1\",\"n\":1e400}", "NotJson"),
    ("{\"id\":\"1\",\"n\":01}", "NotJson"),
    ("{\"id\":\"1\",\"n_i\":true}", "NotWhole 0 n_i"),
    ("{\"id\":\"1\",\"n_i\":\" 5\"}", "NotWhole 0 n_i"),
    ("{\"id\":\"1\",\"z\":[1],\"b\":{}}", "NotWhole 0 b"),
    (
        "{\"id\":\"1\",\"n\":1.5,\"n\":2}",
        "+{\"id\":\"1\",\"n\":2}",
    ),
    ("{\"id\":\"1\",\"n\":2,\"n\":1.5}", "NotWhole 0 n"),
    (
        "{\"id\":\"1\",\"t\":\"\\u00e9\\n\"}",
        "+{\"id\":\"1\",\"t\":\"é\\n\"}",
    ),
    ("{\"id\":\"1\",\"t\":\"\\ud800\"}", "NotJson"),
    ("{\"id\":\"1\",\"t\":\"\u{1}\"}", "NotJson"),
    ("{\"id\":\"1\",}", "NotJson"),
    ("\u{feff}{\"id\":\"1\"}", "NotJson"),
    // reserved names and ids
    (
        "{\"id\":\"1\",\"_version_\":1.5,\"_src_s\":[],\"_src_version_l\":\"x\"}",
        "+{\"id\":\"1\"}",
    ),
    ("{\"id\":null}", "NoId 0"),
    ("{\"id\":\"\"}", "NoId 0"),
    ("{\"id\":\"\",\"n\":[]}", "NotWhole 0 n"),
    ("{\"id\":1.5}", "NotWhole 0 id"),
    ("{\"id\":\"1\",\"add\":{}}", "NotWhole 0 add"),
    ("{}", "NoId 0"),
    ("{\"n_i\":1.5}", "NoId 0"),
    // commands
    (
        "{\"add\":{\"doc\":{\"id\":\"1\"},\"commitWithin\":5},\"delete\":\"x\",\"commit\":{}}",
        "+{\"id\":\"1\"}-x;!",
    ),
    (
        "{\"delete\":\"x\",\"add\":{\"doc\":{\"id\":\"x\"}}}",
        "+{\"id\":\"x\"}-x;",
    ),
    ("{\"commit\":null}", "!"),
    ("{\"commit\":false}", "!"),
    ("{\"delete\":[]}", ""),
    ("{\"delete\":[\"a\",7,\"\",-1]}", "-a;-7;-;--1;"),
    ("{\"delete\":{\"id\":\"a\"}}", "-a;"),
    ("{\"delete\":{\"id\":[\"a\"]}}", "NotADocument 0"),
    ("{\"delete\":{\"id\":\"a\",\"b\":1}}", "NotADocument 0"),
    ("{\"delete\":{\"query\":\"*:*\"}}", "NotADocument 0"),
    ("{\"delete\":[\"a\",1.5]}", "NotADocument 1"),
    ("{\"delete\":-0}", "NotADocument 0"),
    ("{\"delete\":9223372036854775808}", "NotADocument 0"),
    ("{\"delete\":true}", "NotADocument 0"),
    (
        "{\"add\":{\"doc\":{\"id\":\"1\",\"n_i\":1.5}},\"delete\":1.5}",
        "NotWhole 0 n_i",
    ),
    (
        "{\"add\":{\"doc\":{\"id\":\"1\",\"n_i\":1.5}},\"delete\":1.5,\"a\":1}",
        "NotADocument 0",
    ),
    ("{\"add\":[]}", "NotADocument 0"),
    ("{\"add\":{\"doc\":1}}", "NotADocument 0"),
    ("{\"add\":{\"commitWithin\":5}}", "NotADocument 0"),
    (
        "{\"add\":{\"doc\":{\"id\":\"1\"},\"boost\":1}}",
        "NotADocument 0",
    ),
    ("7", "NotADocument 0"),
];

#[test]
fn a_body_is_its_update_or_its_first_fault(rt: HostRuntime) {
    for (body, want) in &BODIES {
        assert!(rt; comes_to(rt.alloc(), body.as_bytes(), want), "of {body}");
    }
    assert!(rt; comes_to(rt.alloc(), b"{\"id\":\"\xff\"}", "NotJson"));
}

fn push_times(text: &mut String, part: &str, times: u32) -> Result<(), Memory> {
    for _ in 0..times {
        text.push_str(part)?;
    }
    Ok(())
}

// Whether arrays in one another to this level come to this.
fn nested_come_to(alloc: Global, levels: u32, want: &str) -> Result<bool, Memory> {
    let mut body = String::new(alloc);
    push_times(&mut body, "[", levels)?;
    push_times(&mut body, "]", levels)?;
    Ok(comes_to(alloc, body.as_bytes(), want))
}

#[test]
fn values_nest_to_127(rt: HostRuntime) {
    assert!(rt;
        nested_come_to(rt.alloc(), 127, "NotADocument 0") == Ok(true)
            && nested_come_to(rt.alloc(), 128, "NotJson") == Ok(true)
    );
}

fn push_letters(body: &mut String, letters: u32) -> Result<(), Memory> {
    body.push_str("[{\"id\":\"1\",\"x_s\":\"")?;
    push_times(body, "a", letters)?;
    Ok(body.push_str("\"}]")?)
}

// What comes of a document with so many letters in a field.
fn outcome_of_letters(alloc: Global, letters: u32) -> Result<String, Memory> {
    let mut body = String::new(alloc);
    push_letters(&mut body, letters)?;
    outcome(alloc, body.as_bytes())
}

fn is_stored(alloc: Global, letters: u32) -> bool {
    match outcome_of_letters(alloc, letters) {
        Ok(words) => words.as_str() != "DocTooLarge 0" && words.len() > 1_048_554,
        Err(_) => false,
    }
}

fn is_too_large(alloc: Global, letters: u32) -> bool {
    match outcome_of_letters(alloc, letters) {
        Ok(words) => words.as_str() == "DocTooLarge 0",
        Err(_) => false,
    }
}

// `id` with `1` counts 11 bytes, and `x_s` 11 and those of its text.
#[test]
fn a_document_has_at_most_1048576_bytes(rt: HostRuntime) {
    assert!(rt; is_stored(rt.alloc(), 1_048_554) && is_too_large(rt.alloc(), 1_048_555));
}

const DOCUMENT: &str = "{\"id\":\"document-1\",\"name_s\":\"a name of a document\",\
    \"count_i\":\"12\",\"total_l\":-34567,\"open_s\":true},";

fn push_documents(body: &mut String) -> Result<(), Memory> {
    body.push_str("[")?;
    push_times(body, DOCUMENT, 81_700)?;
    Ok(body.push_str("{\"id\":\"last\"}]")?)
}

// How many writes the body asks for; none where it is refused.
fn writes(alloc: Global, body: &str) -> usize {
    match read_update(alloc, body.as_bytes()) {
        Ok(update) => update.writes.len(),
        Err(_) => 0,
    }
}

fn all_are_read(alloc: Global) -> Result<bool, Memory> {
    let mut body = String::new(alloc);
    push_documents(&mut body)?;
    Ok(body.len() > 8_000_000 && writes(alloc, body.as_str()) == 81_701)
}

#[test]
fn eight_million_bytes_are_read(rt: HostRuntime) {
    assert!(rt; matches!(all_are_read(rt.alloc()), Ok(true)));
}
