// The examples of the README, with the replies that stand there.
use crate::of_eval::{gives, tells};
use crate::running::{Wanted, answers};
use handler_tests::joining::joined;
use handler_tests::samples::UPDATED;
use std::alloc::Global;
use std::sync::Wait;
use std::test::Fail;
use std::thread::Threads;
use std::time::Clock as SystemClock;
use tuple_values::Memory;

const ROLLUP: &str = "rollup(merge(tuple(k=a,n=1),tuple(k=a,n=2),tuple(k=b,n=5),on=\"k asc\"),\
     over=\"k\",sum(n),count(*))";

const GROUPS: &str =
    "{\"count(*)\":2,\"k\":\"a\",\"sum(n)\":3},{\"count(*)\":1,\"k\":\"b\",\"sum(n)\":5}";

const START: &str =
    "GET /solr/c/stream?expr=daemon(id%3Dfeed,update(d,topic(ck,c,id%3Dt,q%3D%22*:*%22,\
     fl%3Dn_i))) HTTP/1.1\r\n\r\n";

const STARTED: &str =
    "HTTP/1.1 200 OK\r\nContent-Type: application/json\r\nTransfer-Encoding: chunked\r\n\r\n\
     54\r\n{\"result-set\":{\"docs\":[{\"DaemonOp\":\"started feed\"},{\"EOF\":true,\"RESPONSE_TIME\":0}]}}\r\n0\r\n\r\n";

const PUT: &str =
    "POST /solr/c/update?commit=true HTTP/1.1\r\nContent-Length: 20\r\n\r\n[{\"id\":\"1\",\"n_i\":5}]";

const SEARCH: &str =
    "GET /solr/d/stream?expr=search(d,q%3D%22*:*%22,fl%3D%22id,n_i%22,sort%3D%22id+asc%22) \
     HTTP/1.1\r\n\r\n";

const FOUND: &str =
    "HTTP/1.1 200 OK\r\nContent-Type: application/json\r\nTransfer-Encoding: chunked\r\n\r\n\
     4b\r\n{\"result-set\":{\"docs\":[{\"id\":\"1\",\"n_i\":5},{\"EOF\":true,\"RESPONSE_TIME\":0}]}}\r\n0\r\n\r\n";

#[test]
fn the_rollup_of_the_readme_gives_two_groups(rt: HostRuntime) -> Result<(), Fail> {
    let input = joined(rt.alloc(), &[ROLLUP])?;
    assert!(rt; gives(&rt, rt.alloc(), "eval", input, GROUPS)?);
    Ok(())
}

#[test]
fn the_fault_of_the_readme_is_told(rt: HostRuntime) -> Result<(), Fail> {
    let input = joined(rt.alloc(), &["tuple(a=1"])?;
    assert!(rt; tells(&rt, rt.alloc(), "eval", input, "Syntax at 9")?);
    Ok(())
}

fn feeds<R: Threads + Wait + SystemClock + Sync>(rt: &R, alloc: Global) -> Result<bool, Memory> {
    let wanted = Wanted {
        status: 0,
        output: &[STARTED, UPDATED, FOUND],
        errors: "",
    };
    answers(
        rt,
        alloc,
        "script c=2 d=2 ck=1",
        &[START, PUT, SEARCH],
        wanted,
    )
}

#[test]
fn the_daemon_of_the_readme_feeds_the_other_collection(rt: HostRuntime) -> Result<(), Fail> {
    assert!(rt; feeds(&rt, rt.alloc())?);
    Ok(())
}
