// Tests of expr_check: that the root of a checked expression tells the parts that were written.
use expr_check::{
    Action, Checked, CommitRoot, DaemonRoot, Feed, Inner, Root, Roots, TopicRoot, UpdateRoot,
};
use expr_text::read_checked;
use std::alloc::Global;
use std::test::Fail;
use tuple_values::{Memory, NameShards, Names, Text};

fn add_name(alloc: Global, names: &mut Names, name: &str) -> Result<(), Memory> {
    let name = Text::of(alloc, name)?;
    names.push(NameShards { name, shards: 1 })
}

fn add_names(alloc: Global, names: &mut Names) -> Result<(), Memory> {
    add_name(alloc, names, "c")?;
    add_name(alloc, names, "d")?;
    add_name(alloc, names, "ck")
}

// What is read of a text over the collections `c`, `d` and `ck`.
fn checked(alloc: Global, text: &[u8]) -> Result<Checked, Fail> {
    let mut names = Names::new(alloc);
    add_names(alloc, &mut names)?;
    Ok(read_checked(alloc, &names, text, Roots::All)?)
}

fn is_topic(topic: &TopicRoot<'_>) -> bool {
    topic.checkpoints.as_str() == "ck"
        && topic.collection.as_str() == "c"
        && topic.id.as_str() == "t"
        && topic.q_text.as_str() == "*:*"
        && topic.fl.contains("id")
        && topic.init == Some(5)
}

fn is_update(update: &UpdateRoot<'_>) -> bool {
    update.dest.as_str() == "d" && update.batch_size == 7
}

fn is_fed_by_a_topic(update: &UpdateRoot<'_>) -> bool {
    match &update.feed {
        Feed::Topic(topic) => is_update(update) && is_topic(topic),
        Feed::Reads => false,
    }
}

fn is_fed_by_a_search(update: &UpdateRoot<'_>) -> bool {
    matches!(&update.feed, Feed::Reads) && is_update(update) && update.input.fields().contains("a")
}

fn is_commit(commit: &CommitRoot<'_>) -> bool {
    match &commit.inner {
        Inner::Update(update) => {
            commit.dest.as_str() == "d"
                && commit.batch_size == Some(9)
                && is_fed_by_a_search(update)
        }
        Inner::Reads => false,
    }
}

fn is_daemon(daemon: &DaemonRoot<'_>) -> bool {
    match &daemon.action {
        Action::Update(update) => {
            daemon.id.as_str() == "x"
                && daemon.interval == 3
                && daemon.terminate
                && is_fed_by_a_topic(update)
        }
        Action::Commit(_) => false,
    }
}

fn is_search_told(alloc: Global) -> Result<bool, Fail> {
    let checked = checked(alloc, b"search(c,q=\"*:*\",fl=\"a\",sort=\"a asc\")")?;
    Ok(matches!(checked.root(), Root::Reads))
}

fn is_topic_in(checked: &Checked) -> bool {
    match checked.root() {
        Root::Topic(topic) => is_topic(&topic),
        Root::Reads | Root::Update(_) | Root::Commit(_) | Root::Daemon(_) => false,
    }
}

fn is_topic_told(alloc: Global) -> Result<bool, Fail> {
    let checked = checked(
        alloc,
        b"topic(ck,c,id=\"t\",q=\"*:*\",fl=\"id\",initialCheckpoint=5)",
    )?;
    Ok(is_topic_in(&checked))
}

fn is_update_in(checked: &Checked) -> bool {
    match checked.root() {
        Root::Update(update) => is_fed_by_a_topic(&update),
        Root::Reads | Root::Topic(_) | Root::Commit(_) | Root::Daemon(_) => false,
    }
}

fn is_update_told(alloc: Global) -> Result<bool, Fail> {
    let checked = checked(
        alloc,
        b"update(d,batchSize=7,topic(ck,c,id=\"t\",q=\"*:*\",fl=\"id\",initialCheckpoint=5))",
    )?;
    Ok(is_update_in(&checked))
}

fn is_commit_in(checked: &Checked) -> bool {
    match checked.root() {
        Root::Commit(commit) => is_commit(&commit),
        Root::Reads | Root::Topic(_) | Root::Update(_) | Root::Daemon(_) => false,
    }
}

fn is_commit_told(alloc: Global) -> Result<bool, Fail> {
    let checked = checked(
        alloc,
        b"commit(d,batchSize=9,update(d,batchSize=7,search(c,q=\"*:*\",fl=\"a\",sort=\"a asc\")))",
    )?;
    Ok(is_commit_in(&checked))
}

fn is_daemon_in(checked: &Checked) -> bool {
    match checked.root() {
        Root::Daemon(daemon) => is_daemon(&daemon),
        Root::Reads | Root::Topic(_) | Root::Update(_) | Root::Commit(_) => false,
    }
}

fn is_daemon_told(alloc: Global) -> Result<bool, Fail> {
    let checked = checked(
        alloc,
        b"daemon(id=\"x\",runInterval=3,terminate=true,update(d,batchSize=7,\
          topic(ck,c,id=\"t\",q=\"*:*\",fl=\"id\",initialCheckpoint=5)))",
    )?;
    Ok(is_daemon_in(&checked))
}

#[test]
fn a_root_tells_what_only_reads_and_what_follows(rt: HostRuntime) -> Result<(), Fail> {
    assert!(rt; is_search_told(rt.alloc())?);
    assert!(rt; is_topic_told(rt.alloc())?);
    Ok(())
}

#[test]
fn a_root_tells_what_changes_a_collection(rt: HostRuntime) -> Result<(), Fail> {
    assert!(rt; is_update_told(rt.alloc())?);
    assert!(rt; is_commit_told(rt.alloc())?);
    assert!(rt; is_daemon_told(rt.alloc())?);
    Ok(())
}
