// Topics, updates and commits in whole runs of scripts, with responses that were worked out by hand.
use crate::running::{Wanted, answers};
use crate::samples::NONE;
use handler_tests::samples::UPDATED;
use std::alloc::Global;
use std::sync::Wait;
use std::test::Fail;
use std::thread::Threads;
use std::time::Clock as SystemClock;
use tuple_values::Memory;

const PUT_THREE: &str =
    "POST /solr/c/update?commit=true HTTP/1.1\r\nContent-Length: 58\r\n\r\n[{\"id\":\"1\",\"n_i\":1},{\"id\":\"2\",\"n_i\":2},{\"id\":\"3\",\"n_i\":3}]";

const WATCH: &str =
    "GET /solr/c/stream?expr=topic(ck,c,id%3D%22t1%22,q%3D%22*:*%22,fl%3D%22id%22) HTTP/1.1\r\n\r\n";

const FOLLOW: &str =
    "GET /solr/c/stream?expr=topic(ck,c,id%3D%22t2%22,q%3D%22*:*%22,fl%3D%22id%22,initialCheckpoint%3D0) HTTP/1.1\r\n\r\n";

const FOLLOWED: &str =
    "HTTP/1.1 200 OK\r\nContent-Type: application/json\r\nTransfer-Encoding: chunked\r\n\r\n83\r\n{\"result-set\":{\"docs\":[{\"_version_\":1,\"id\":\"1\"},{\"_version_\":1,\"id\":\"2\"},{\"_version_\":2,\"id\":\"3\"},{\"EOF\":true,\"RESPONSE_TIME\":0}]}}\r\n0\r\n\r\n";

const FEED: &str =
    "GET /solr/d/stream?expr=update(d,batchSize%3D2,topic(ck,c,id%3D%22t3%22,q%3D%22*:*%22,fl%3D%22id,n_i%22,initialCheckpoint%3D0)) HTTP/1.1\r\n\r\n";

const FED: &str =
    "HTTP/1.1 200 OK\r\nContent-Type: application/json\r\nTransfer-Encoding: chunked\r\n\r\na0\r\n{\"result-set\":{\"docs\":[{\"batchIndexed\":2,\"batchNumber\":1,\"totalIndexed\":2},{\"batchIndexed\":1,\"batchNumber\":2,\"totalIndexed\":3},{\"EOF\":true,\"RESPONSE_TIME\":0}]}}\r\n0\r\n\r\n";

const FED_NOTHING: &str =
    "HTTP/1.1 200 OK\r\nContent-Type: application/json\r\nTransfer-Encoding: chunked\r\n\r\n6c\r\n{\"result-set\":{\"docs\":[{\"batchIndexed\":0,\"batchNumber\":1,\"totalIndexed\":0},{\"EOF\":true,\"RESPONSE_TIME\":0}]}}\r\n0\r\n\r\n";

const FEED_OTHERS: &str =
    "GET /solr/d/stream?expr=update(d,topic(ck,c,id%3D%22t3%22,q%3D%22n_i:1%22,fl%3D%22id,n_i%22)) HTTP/1.1\r\n\r\n";

const BOUND: &str =
    "HTTP/1.1 200 OK\r\nContent-Type: application/json\r\nTransfer-Encoding: chunked\r\n\r\n79\r\n{\"result-set\":{\"docs\":[{\"EOF\":true,\"EXCEPTION\":\"TopicBound ck t3 kept src=c q=*:* fl=id,n_i dest=d\",\"RESPONSE_TIME\":0}]}}\r\n0\r\n\r\n";

const SEARCH_FED: &str =
    "GET /solr/d/stream?expr=search(d,q%3D%22*:*%22,fl%3D%22id,n_i,_src_s,_src_version_l,_version_%22,sort%3D%22id+asc%22) HTTP/1.1\r\n\r\n";

const FOUND: &str =
    "HTTP/1.1 200 OK\r\nContent-Type: application/json\r\nTransfer-Encoding: chunked\r\n\r\nfb\r\n{\"result-set\":{\"docs\":[{\"_src_s\":\"c\",\"_src_version_l\":1,\"_version_\":1,\"id\":\"1\",\"n_i\":1},{\"_src_s\":\"c\",\"_src_version_l\":1,\"_version_\":1,\"id\":\"2\",\"n_i\":2},{\"_src_s\":\"c\",\"_src_version_l\":2,\"_version_\":2,\"id\":\"3\",\"n_i\":3},{\"EOF\":true,\"RESPONSE_TIME\":0}]}}\r\n0\r\n\r\n";

const PUT_NO_ID: &str = "GET /solr/c/stream?expr=update(c,tuple(a%3D1)) HTTP/1.1\r\n\r\n";

const BAD_TUPLE: &str =
    "HTTP/1.1 200 OK\r\nContent-Type: application/json\r\nTransfer-Encoding: chunked\r\n\r\n54\r\n{\"result-set\":{\"docs\":[{\"EOF\":true,\"EXCEPTION\":\"BadTuple 0 id\",\"RESPONSE_TIME\":0}]}}\r\n0\r\n\r\n";

const COMMIT_ROUND: &str =
    "GET /solr/c/stream?expr=commit(c,update(d,tuple(id%3D9)),batchSize%3D1) HTTP/1.1\r\n\r\n";

const ONE_PUT: &str =
    "HTTP/1.1 200 OK\r\nContent-Type: application/json\r\nTransfer-Encoding: chunked\r\n\r\n6c\r\n{\"result-set\":{\"docs\":[{\"batchIndexed\":1,\"batchNumber\":1,\"totalIndexed\":1},{\"EOF\":true,\"RESPONSE_TIME\":0}]}}\r\n0\r\n\r\n";

// Whether a script over a source, checkpoints and a destination answers these requests so.
fn feeds<R: Threads + Wait + SystemClock + Sync>(
    rt: &R,
    alloc: Global,
    requests: &[&str],
    output: &[&str],
) -> Result<bool, Memory> {
    let wanted = Wanted {
        status: 0,
        output,
        errors: "",
    };
    answers(rt, alloc, "script c=2 ck=1 d=2", requests, wanted)
}

#[test]
fn a_topic_gives_what_came_since(rt: HostRuntime) -> Result<(), Fail> {
    let requests = [PUT_THREE, WATCH, WATCH, FOLLOW, FOLLOW];
    let replies = [UPDATED, NONE, NONE, FOLLOWED, NONE];
    assert!(rt; feeds(&rt, rt.alloc(), &requests, &replies)?);
    Ok(())
}

#[test]
fn a_topic_feeds_another_collection(rt: HostRuntime) -> Result<(), Fail> {
    let requests = [PUT_THREE, FEED, FEED, FEED_OTHERS, SEARCH_FED];
    let replies = [UPDATED, FED, FED_NOTHING, BOUND, FOUND];
    assert!(rt; feeds(&rt, rt.alloc(), &requests, &replies)?);
    Ok(())
}

#[test]
fn tuples_are_written_and_committed(rt: HostRuntime) -> Result<(), Fail> {
    let requests = [PUT_NO_ID, COMMIT_ROUND];
    assert!(rt; feeds(&rt, rt.alloc(), &requests, &[BAD_TUPLE, ONE_PUT])?);
    Ok(())
}
