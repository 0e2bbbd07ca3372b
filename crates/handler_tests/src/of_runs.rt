// Tests of pass_calls: an update, its commit, the runs of topics and of whole expressions, requests
// and a daemon that is due, each by the one pass of a site. What they give was worked out by hand.
ghost use Rattle.std.specs.Prelude.{IfOk, IfSome};
ghost use Rattle.expr_check.specs.Roots.{topic_parts, IsTopicOf};
ghost use Rattle.expr_check.specs.Views.{tree_of};
ghost use Rattle.running_site.specs.Sites.{IsPassAt};
ghost use Rattle.update_sink.specs.Topics.{IsThere};

use crate::joining::{is_joined, joined};
use daemon_board::{Board, Daemons};
use expr_check::{Checked, Root, Roots, TopicRoot};
use expr_text::read_checked;
use form_request::{Request, Requests, Step100};
use io_edge::{MemorySink, MemorySource, NoGate};
use pass_calls::{
    answer, read_topic, run_commit, run_due, run_root, run_topic, run_update, serve_one,
};
use running_site::{Pass, Site, SiteOf};
use server_edge::NoClock;
use site_threads::delivery_of;
use std::alloc::Global;
use std::sync::Wait;
use std::test::Fail;
use std::thread::Threads;
use stream_handler::{OneEnd, Reply};
use stream_site::shards_of;
use tuple_values::{Bytes, Memory, NameShards, Names, Numbers, Text, Tuple, Tuples, Value};

// A site with a source `c`, checkpoints `ck` and a destination `d`, of one shard each, and its one
// pass.
pub(crate) fn fed(alloc: Global) -> Result<(Site, Pass), Memory>
    ensures { IfOk result (λ made. IsPassAt made.0 made.1) }
{
    let mut names = Names::new(alloc);
    for name in ["c", "ck", "d"] {
        let name = Text::of(alloc, name)?;
        names.push(NameShards { name, shards: 1 })?;
    }
    SiteOf::start_alone(alloc, names, 1_000_000)
}

// Tuples with the ids 1, 2 and 3.
fn three(alloc: Global) -> Result<Tuples, Memory> {
    let mut tuples = Tuples::empty(alloc);
    for id in ["1", "2", "3"] {
        let mut tuple = Tuple::empty(alloc);
        tuple.put(Text::of(alloc, "id")?, Value::Text(Text::of(alloc, id)?))?;
        tuples.push(tuple)?;
    }
    Ok(tuples)
}

// Writes the three tuples to the source in batches of two; how many summaries there are, and how
// many of the writes stand.
fn update<R: Wait>(
    rt: &R,
    alloc: Global,
    site: &Site,
    pass: &mut Pass,
    dest: &Text,
) -> Result<(u64, u64), Memory>
    requires { IsPassAt site.now pass.old }
    ensures { IsPassAt site.now pass.new }
{
    if shards_of(site.names(), dest.as_str()) == 0 {
        return Ok((0, 0));
    }
    let tuples = three(alloc)?;
    let ran = run_update(rt, alloc, site, pass, dest, 2, tuples)?;
    Ok((ran.summaries.count(), ran.stand))
}

// Whether the three tuples are written to the source, and committed.
fn is_written<R: Wait>(rt: &R, alloc: Global, site: &Site, pass: &mut Pass) -> Result<bool, Memory>
    requires { IsPassAt site.now pass.old }
    ensures { IsPassAt site.now pass.new }
{
    let source = Text::of(alloc, "c")?;
    let written = update(rt, alloc, site, pass, &source)?;
    let done = run_commit(rt, alloc, site, pass, &source, None, &three(alloc)?, false);
    Ok(written == (2, 3) && done.is_ok())
}

fn checked(alloc: Global, site: &Site, bytes: &[u8]) -> Result<Checked, Fail> {
    match read_checked(alloc, site.names(), bytes, Roots::All) {
        Ok(checked) => Ok(checked),
        Err(_) => Err("an expression with a fault".into()),
    }
}

// The topic that a checked expression is, if its collections are there.
fn topic_of<'a>(names: &Names, checked: &'a Checked) -> Option<TopicRoot<'a>>
    ensures { IfSome result (λ topic. IsTopicOf (tree_of checked.now) topic
        × IsThere names.now (topic_parts topic)) }
{
    let Root::Topic(topic) = checked.root() else {
        return None;
    };
    let is_there = shards_of(names, topic.checkpoints.as_str()) > 0
        && shards_of(names, topic.collection.as_str()) > 0;
    if is_there { Some(topic) } else { None }
}

const READS: &[u8] = b"topic(ck,c,id=\"u\",q=\"*:*\",fl=\"id\",initialCheckpoint=0)";

// How many tuples a topic gives that was never read, and up to where it is stored then.
fn read<R: Wait>(
    rt: &R,
    alloc: Global,
    site: &Site,
    pass: &mut Pass,
) -> Result<(u64, Option<u64>), Fail>
    requires { IsPassAt site.now pass.old }
    ensures { IsPassAt site.now pass.new }
{
    let checked = checked(alloc, site, READS)?;
    let Some(topic) = topic_of(site.names(), &checked) else {
        return Err("no topic".into());
    };
    match read_topic(rt, alloc, site, pass, &topic, &checked) {
        Ok(read) => Ok((read.tuples.count(), read.stored.get(0).copied())),
        Err(_) => Err("a topic that is refused".into()),
    }
}

const DELIVERS: &[u8] = b"update(d,topic(ck,c,id=\"t\",q=\"*:*\",fl=\"id\",initialCheckpoint=0))";

// How many documents a topic's run delivers, and how many of its writes stand.
fn deliver<R: Wait>(rt: &R, alloc: Global, site: &Site, pass: &mut Pass) -> Result<(u64, u64), Fail>
    requires { IsPassAt site.now pass.old }
    ensures { IsPassAt site.now pass.new }
{
    let checked = checked(alloc, site, DELIVERS)?;
    let Some(delivery) = delivery_of(site.names(), &checked) else {
        return Err("no update of a topic".into());
    };
    match run_topic(rt, alloc, site, pass, &delivery, &NoGate) {
        Ok(run) => Ok((run.read, run.stand)),
        Err(_) => Err("a topic that is refused".into()),
    }
}

// Whether the three documents are read by one topic, and delivered by another, which finds nothing
// the second time.
fn is_followed<R: Wait>(rt: &R, alloc: Global, site: &Site, pass: &mut Pass) -> Result<bool, Fail>
    requires { IsPassAt site.now pass.old }
    ensures { IsPassAt site.now pass.new }
{
    let gave = read(rt, alloc, site, pass)?;
    let first = deliver(rt, alloc, site, pass)?;
    let second = deliver(rt, alloc, site, pass)?;
    Ok(gave == (3, Some(3)) && first == (3, 3) && second == (0, 0))
}

const FINDS: &[u8] = b"search(d,q=\"*:*\",fl=\"id\",sort=\"id asc\")";

// Whether an expression that is run at the time 7 finds the three, and the pass works at that time.
fn is_found<R: Threads + Wait + Sync>(
    rt: &R,
    alloc: Global,
    site: &Site,
    pass: &mut Pass,
) -> Result<bool, Fail>
    requires { IsPassAt site.now pass.old }
    ensures { IsPassAt site.now pass.new }
{
    let checked = checked(alloc, site, FINDS)?;
    let run = run_root(rt, alloc, site, pass, &checked, 7, &NoGate)?;
    Ok(run.docs.count() == 3 && run.exception.is_none() && pass.now() == 7)
}

const SEARCH: &str = "GET /solr/d/stream?expr=search(d,q%3D%22*:*%22,fl%3D%22id%22,\
     sort%3D%22id+asc%22) HTTP/1.1\r\n\r\n";

const FOUND: &str = "HTTP/1.1 200 OK\r\nContent-Type: application/json\r\n\
     Transfer-Encoding: chunked\r\n\r\n\
     59\r\n{\"result-set\":{\"docs\":[{\"id\":\"1\"},{\"id\":\"2\"},{\"id\":\"3\"},{\"EOF\":true,\"RESPONSE_TIME\":0}]}}\r\n0\r\n\r\n";

// The request of these bytes.
pub(crate) fn request(alloc: Global, names: &Names, bytes: &[u8]) -> Result<Request, Fail> {
    let mut requests = Requests::begin(alloc);
    requests.feed(bytes)?;
    match requests.next(names)? {
        Step100::Whole(request) => Ok(request),
        Step100::Refused { .. } | Step100::Continue | Step100::Wants => Err("no request".into()),
    }
}

// The bytes of a response: its head, its chunk and its last chunk, behind which nothing comes.
fn bytes_of(alloc: Global, reply: Reply) -> Result<Bytes, Fail> {
    let Reply::Docs(docs) = reply else {
        return Err("a whole reply".into());
    };
    let mut docs = docs;
    let mut bytes = Bytes::new(alloc);
    for _ in 0..4 {
        if let Some(item) = docs.next(alloc)? {
            bytes.extend(item.as_slice())?;
        }
    }
    Ok(bytes)
}

// Whether a search of the destination is answered so, once by itself and once over a connection.
fn is_answered<R: Threads + Wait + Sync>(
    rt: &R,
    alloc: Global,
    site: &Site,
    pass: &mut Pass,
    board: &mut Board,
) -> Result<bool, Fail>
    requires { IsPassAt site.now pass.old }
    ensures { IsPassAt site.now pass.new }
{
    let request = request(alloc, site.names(), SEARCH.as_bytes())?;
    let answered = answer(rt, alloc, site, pass, board, request, &NoClock, &NoGate)?;
    let marks = answered.exchange.marks.len();
    let bytes = bytes_of(alloc, answered.reply)?;
    Ok(is_joined(bytes.as_slice(), &[FOUND]) && marks == 1)
}

// Whether the search is answered so over a connection, which goes on.
fn is_served<R: Threads + Wait + Sync>(
    rt: &R,
    alloc: Global,
    site: &Site,
    pass: &mut Pass,
    board: &mut Board,
) -> Result<bool, Fail>
    requires { IsPassAt site.now pass.old }
    ensures { IsPassAt site.now pass.new }
{
    let mut requests = Requests::begin(alloc);
    let mut source = MemorySource::new(joined(alloc, &[SEARCH])?, 9, Numbers::new(alloc));
    let mut sink = MemorySink::new(alloc, Numbers::new(alloc));
    let end = serve_one(
        rt,
        alloc,
        site,
        pass,
        board,
        &mut requests,
        &mut source,
        &mut sink,
        &NoClock,
        &NoGate,
    );
    Ok(matches!(end, OneEnd::Served(_)) && is_joined(sink.bytes(), &[FOUND]))
}

const DAEMON: &[u8] = b"daemon(id=\"x\",runInterval=\"1000\",terminate=\"false\",\
     update(d,topic(ck,c,id=\"v\",q=\"id:2\",fl=\"id\",initialCheckpoint=0)))";

// Puts the daemon on the board.
fn start(alloc: Global, site: &Site, board: &mut Board) -> Result<bool, Fail> {
    let checked = checked(alloc, site, DAEMON)?;
    let id = Text::of(alloc, "x")?;
    Ok(board.start(alloc, id, checked, 1000, false, 0).is_ok())
}

// Whether the daemon is run once at the time 0, and isn't due again.
fn is_run<R: Threads + Wait + Sync>(
    rt: &R,
    alloc: Global,
    site: &Site,
    pass: &mut Pass,
    board: &mut Board,
) -> Result<bool, Fail>
    requires { IsPassAt site.now pass.old }
    ensures { IsPassAt site.now pass.new }
{
    let started = start(alloc, site, board)?;
    let first = run_due(rt, alloc, site, pass, board, &NoClock, &NoGate);
    let second = run_due(rt, alloc, site, pass, board, &NoClock, &NoGate);
    Ok(started && first && !second)
}

#[test]
fn a_pass_writes_and_delivers(rt: HostRuntime) -> Result<(), Fail> {
    let alloc = rt.alloc();
    let (site, mut pass) = fed(alloc)?;
    assert!(rt; is_written(&rt, alloc, &site, &mut pass)?);
    assert!(rt; is_followed(&rt, alloc, &site, &mut pass)?);
    assert!(rt; is_found(&rt, alloc, &site, &mut pass)?);
    Ok(())
}

#[test]
fn a_pass_runs_a_daemon_and_answers(rt: HostRuntime) -> Result<(), Fail> {
    let alloc = rt.alloc();
    let (site, mut pass) = fed(alloc)?;
    let mut board = Board::empty(alloc);
    assert!(rt; is_written(&rt, alloc, &site, &mut pass)?);
    assert!(rt; is_followed(&rt, alloc, &site, &mut pass)?);
    assert!(rt; is_run(&rt, alloc, &site, &mut pass, &mut board)?);
    assert!(rt; is_answered(&rt, alloc, &site, &mut pass, &mut board)?);
    assert!(rt; is_served(&rt, alloc, &site, &mut pass, &mut board)?);
    Ok(())
}
