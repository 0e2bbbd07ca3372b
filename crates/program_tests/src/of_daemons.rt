// A daemon in whole runs of a script, with responses that were worked out by hand.
ghost use Rattle.std.specs.Prelude.{◌<◌};

use crate::running::{Wanted, a_run, is_so};
use handler_tests::daemons::{KILL, LIST, RESUME, START, STARTED, STOP, STOPPED, UNKNOWN};
use handler_tests::joining::add_all;
use handler_tests::samples::UPDATED;
use io_edge::{MemorySource, NoGate};
use std::alloc::Global;
use std::sync::Wait;
use std::test::Fail;
use std::thread::Threads;
use std::time::Clock as SystemClock;
use tuple_values::{Bytes, Memory, Numbers};

const LISTED: &str =
    "HTTP/1.1 200 OK\r\nContent-Type: application/json\r\nTransfer-Encoding: chunked\r\n\r\n65\r\n{\"result-set\":{\"docs\":[{\"id\":\"d1\",\"iterations\":1,\"state\":\"RUNNING\"},{\"EOF\":true,\"RESPONSE_TIME\":0}]}}\r\n0\r\n\r\n";

const PUT_ONE_MORE: &str =
    "POST /solr/src/update?commit=true HTTP/1.1\r\nContent-Length: 24\r\n\r\n[{\"id\":\"500\",\"n_i\":150}]";

const COUNT: &str =
    "GET /solr/dest/stream?expr=rollup(search(dest,q%3D%22*:*%22,fl%3D%22_src_s%22,sort%3D%22_src_s+asc%22),over%3D%22_src_s%22,count(*)) HTTP/1.1\r\n\r\n";

const DELIVERED: &str =
    "HTTP/1.1 200 OK\r\nContent-Type: application/json\r\nTransfer-Encoding: chunked\r\n\r\n58\r\n{\"result-set\":{\"docs\":[{\"_src_s\":\"src\",\"count(*)\":200},{\"EOF\":true,\"RESPONSE_TIME\":0}]}}\r\n0\r\n\r\n";

const DELIVERED_MORE: &str =
    "HTTP/1.1 200 OK\r\nContent-Type: application/json\r\nTransfer-Encoding: chunked\r\n\r\n58\r\n{\"result-set\":{\"docs\":[{\"_src_s\":\"src\",\"count(*)\":201},{\"EOF\":true,\"RESPONSE_TIME\":0}]}}\r\n0\r\n\r\n";

const NEITHER: &str = "GET /solr/src/stream HTTP/1.1\r\n\r\n";

const MISSING: &str =
    "HTTP/1.1 200 OK\r\nContent-Type: application/json\r\nTransfer-Encoding: chunked\r\n\r\n5f\r\n{\"result-set\":{\"docs\":[{\"EOF\":true,\"EXCEPTION\":\"MissingParam stream expr\",\"RESPONSE_TIME\":0}]}}\r\n0\r\n\r\n";

const REQUESTS: [&str; 9] = [
    START,
    LIST,
    STOP,
    PUT_ONE_MORE,
    COUNT,
    RESUME,
    COUNT,
    KILL,
    NEITHER,
];

const REPLIES: [&str; 10] = [
    UPDATED,
    STARTED,
    LISTED,
    STOPPED,
    UPDATED,
    DELIVERED,
    STARTED,
    DELIVERED_MORE,
    UNKNOWN,
    MISSING,
];

fn add_document(alloc: Global, body: &mut Bytes, k: u64) -> Result<(), Memory> {
    let document = format!(in alloc; "{{\"id\":\"{k}\",\"n_i\":{k}}}")?;
    body.extend(if k == 0 { b"[" } else { b"," })?;
    body.extend(document.as_bytes())
}

// So many documents, whose ids and numbers are those from 0 on.
fn documents(alloc: Global, count: u64) -> Result<Bytes, Memory> {
    let mut body = Bytes::new(alloc);
    for k in 0..count {
        add_document(alloc, &mut body, k)?;
    }
    body.extend(b"]")?;
    Ok(body)
}

// An update of this body with a commit.
fn add_update(alloc: Global, bytes: &mut Bytes, body: &[u8]) -> Result<(), Memory> {
    let length = format!(in alloc; "{}\r\n\r\n", body.len())?;
    bytes.extend(b"POST /solr/src/update?commit=true HTTP/1.1\r\nContent-Length: ")?;
    bytes.extend(length.as_bytes())?;
    bytes.extend(body)
}

// An update of 500 documents, and then the requests.
fn session(alloc: Global) -> Result<Bytes, Memory> {
    let body = documents(alloc, 500)?;
    let mut bytes = Bytes::new(alloc);
    add_update(alloc, &mut bytes, body.as_slice())?;
    add_all(&mut bytes, &REQUESTS)?;
    Ok(bytes)
}

// Whether a script over a source, checkpoints and a destination answers the session so, where its
// bytes come in pieces of at most so many.
fn runs<R: Threads + Wait + SystemClock + Sync>(
    rt: &R,
    alloc: Global,
    most: usize,
) -> Result<bool, Memory>
    requires { 0 < most }
{
    let mut input = MemorySource::new(session(alloc)?, most, Numbers::new(alloc));
    let words = "script src=2 ck=1 dest=2";
    let ran = a_run(rt, alloc, words, &mut input, None, &NoGate)?;
    let wanted = Wanted {
        status: 0,
        output: &REPLIES,
        errors: "",
    };
    Ok(is_so(&ran, wanted))
}

#[test]
fn a_daemon_runs_once_after_each_request(rt: HostRuntime) -> Result<(), Fail> {
    assert!(rt; runs(&rt, rt.alloc(), 1)?, "in pieces of 1");
    assert!(rt; runs(&rt, rt.alloc(), 10_000)?, "in pieces of 10,000");
    Ok(())
}
