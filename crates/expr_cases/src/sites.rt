// Sites of cases, each of one pass.
ghost use Rattle.std.specs.Prelude.{◌≤◌, IfOk};
ghost use Rattle.running_site.specs.Sites.{IsPassAt};

use running_site::{Pass, Site, SiteOf};
use std::alloc::Global;
use tuple_values::{Memory, NameShards, Names, Text};

/// The greatest limit of a shard.
const MOST: u64 = 268_435_456;

// A number, and 0 where it is none.
fn number(text: &str) -> u64 {
    match text.parse::<u64>() {
        Ok(n) => n,
        Err(_) => 0,
    }
}

// Adds the collection of a word such as `c=2`.
fn push_name(alloc: Global, names: &mut Names, word: &str) -> Result<(), Memory> {
    let (name, shards) = word.split_once('=').unwrap_or((word, ""));
    let shards = u16::try_from(number(shards)).unwrap_or(0);
    names.push(NameShards {
        name: Text::of(alloc, name)?,
        shards,
    })
}

// The collections of such words.
fn names_of(alloc: Global, words: &str) -> Result<Names, Memory> {
    let mut names = Names::new(alloc);
    for word in words.split_whitespace() {
        push_name(alloc, &mut names, word)?;
    }
    Ok(names)
}

/// A new site with these collections, whose shards have this limit, and its one pass.
pub fn start(alloc: Global, limit: u64, words: &str) -> Result<(Site, Pass), Memory>
    requires { limit ≤ 268435456 }
    ensures { IfOk result (λ made. IsPassAt made.0 made.1) }
{
    let names = names_of(alloc, words)?;
    SiteOf::start_alone(alloc, names, limit)
}

/// The same, where the limit stands first.
pub fn named(alloc: Global, words: &str) -> Result<(Site, Pass), Memory>
    ensures { IfOk result (λ made. IsPassAt made.0 made.1) }
{
    let (limit, words) = words.split_once(' ').unwrap_or((words, ""));
    start(alloc, number(limit).min(MOST), words)
}
