// One action, carried out by threads at a site.
ghost use Rattle.std.specs.Prelude.{◌≡◌, ◌<◌, All, length, map};
ghost use Rattle.running_site.specs.Passes.{numbers_to};
ghost use Rattle.site_threads.specs.Workers.{number_in, IsWorkerAt};

use crate::agreeing::all_agree;
use crate::alone::index_alone;
use crate::documents::{BATCH, collections};
use crate::showing::{counts, show};
use crate::workers::serve_all;
use running_site::{Histories, Record, Site};
use site_threads::{Task, Worker, close, open};
use std::alloc::Global;
use std::sync::Wait;
use std::thread::Threads;
use tuple_values::{Memory, Names};

// Adds whether the histories agree with the records.
fn push_agreement(
    text: &mut String,
    histories: &Histories,
    records: &[Option<Record>],
) -> Result<(), Memory> {
    let word = if all_agree(histories, records) {
        "agree"
    } else {
        "differ"
    };
    Ok(text.push_str(word)?)
}

// Ends the site: what each worker did and whether the histories agree with the passes' records, and
// the histories.
fn end(alloc: Global, site: Site, workers: Vec<Worker>) -> Result<(String, Histories), Memory>
    requires own { All (IsWorkerAt site) workers.items }
    requires numbers { map number_in workers.items ≡ numbers_to site.passes }
{
    let mut text = counts(alloc, workers.as_slice())?;
    let (histories, records) = close(alloc, site, workers)?;
    push_agreement(&mut text, &histories, records.as_slice())?;
    Ok((text, histories))
}

// Carries the tasks out at a site of these collections, each in a thread of its own: what each did
// and whether the histories agree with the passes' records, and the histories.
fn run<R: Threads + Wait + Sync>(
    rt: &R,
    alloc: Global,
    names: Names,
    tasks: &[Task],
) -> Result<(String, Histories), Memory>
    requires { 0 < length tasks.now }
{
    let (site, mut workers) = open(alloc, names, tasks)?;
    serve_all(rt, alloc, &site, workers.as_mut_slice());
    end(alloc, site, workers)
}

// The same without the histories.
fn told<R: Threads + Wait + Sync>(
    rt: &R,
    alloc: Global,
    names: Names,
    tasks: &[Task],
) -> Result<String, Memory>
    requires { 0 < length tasks.now }
{
    let (text, _histories) = run(rt, alloc, names, tasks)?;
    Ok(text)
}

// Tasks of so many workers with so many batches each, at the collection of its number or all at the
// first one.
fn shares(alloc: Global, apart: bool, workers: u64, share: u64) -> Result<Vec<Task>, Memory> {
    let mut tasks = Vec::new(alloc);
    for k in 0..workers {
        tasks.push(Task::Index {
            collection: if apart { k } else { 0 },
            first: k.saturating_mul(share),
            batches: share,
        })?;
    }
    Ok(tasks)
}

// Batches that workers share, each at the collection of its number or all at the first one.
fn share<R: Threads + Wait + Sync>(
    rt: &R,
    alloc: Global,
    names: Names,
    workers: u64,
    batches: u64,
) -> Result<String, Memory> {
    let share = batches.checked_div(workers).unwrap_or(0);
    let tasks = shares(alloc, names.len() > 1, workers, share)?;
    if tasks.is_empty() {
        return Ok(String::from_str(alloc, "no worker")?);
    }
    told(rt, alloc, names, tasks.as_slice())
}

// One worker puts documents into the first collection, and another delivers them to the second.
fn deliver<R: Threads + Wait + Sync>(
    rt: &R,
    alloc: Global,
    shards: u16,
    batches: u64,
) -> Result<String, Memory> {
    let wanted = batches.saturating_mul(BATCH);
    let tasks = [
        Task::Index {
            collection: 0,
            first: 0,
            batches,
        },
        Task::Deliver { wanted },
    ];
    told(rt, alloc, collections(alloc, 2, shards)?, &tasks)
}

// Adds the entries of the second shard.
fn show_second(alloc: Global, text: &mut String, histories: &Histories) -> Result<(), Memory> {
    match histories.shards.get(1) {
        Some(history) => show(alloc, text, history),
        None => Ok(()),
    }
}

// One worker delivers a document, and another had read an earlier version of it before and delivers
// that then: what they did, and the destination's entries.
fn overtake<R: Threads + Wait + Sync>(rt: &R, alloc: Global) -> Result<String, Memory> {
    let tasks = [Task::Overtake, Task::ComeLate];
    let (mut text, histories) = run(rt, alloc, collections(alloc, 2, 1)?, &tasks)?;
    show_second(alloc, &mut text, &histories)?;
    Ok(text)
}

// The batches at a site of one pass.
fn alone<R: Wait>(rt: &R, alloc: Global, shards: u16, batches: u64) -> Result<String, Memory> {
    match index_alone(rt, alloc, shards, batches)? {
        Some(count) => Ok(format!(in alloc; "{count}")?),
        None => Ok(String::from_str(alloc, "refused")?),
    }
}

// The number that a word writes, 0 for no number.
fn number(word: Option<&str>) -> u64 {
    word.and_then(|word| word.parse::<u64>().ok()).unwrap_or(0)
}

// A number of shards.
fn few(count: u64) -> u16 {
    u16::try_from(count).unwrap_or(0)
}

/// The answer to one action, which is a word and numbers.
pub fn answer<R: Threads + Wait + Sync>(
    rt: &R,
    alloc: Global,
    case: &str,
) -> Result<String, Memory> {
    let mut words = case.split_whitespace();
    let action = words.next();
    let first = number(words.next());
    let second = number(words.next());
    let third = number(words.next());
    match action {
        Some("overtake") => overtake(rt, alloc),
        Some("deliver") => deliver(rt, alloc, few(first), second),
        Some("index") => share(rt, alloc, collections(alloc, 1, few(second))?, first, third),
        Some("apart") => share(rt, alloc, collections(alloc, first, 1)?, first, second),
        Some("plain") => alone(rt, alloc, few(first), second),
        _ => Ok(String::from_str(alloc, "no such action")?),
    }
}
