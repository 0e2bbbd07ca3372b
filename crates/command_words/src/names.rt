// The names of collections, one a word.
ghost use Rattle.std.specs.Prelude.{◌≡◌, IfOk, IfErr, IsErrOf, IsSome, is_some};
ghost use Rattle.command_words.specs.Answering.{Answers, IsPlainFault};
ghost use Rattle.command_words.specs.Names.{says_name, is_said, each_of, names_of, some_names_of};
ghost use Rattle.command_words.specs.Names.{AreFit};
ghost use Rattle.command_words.specs.Words.{name_of};

use crate::WordsFault;
use crate::word::parts_of;
use std::alloc::Global;
use tuple_values::{NameShards, Names, Text};

// The most shards of all collections together.
const MOST: u16 = 16;

fn says_name(name: &str, word: &Text) -> bool
    ensures { result ≡ says_name name.now (name_of word.now) }
{
    match parts_of(word.as_str()) {
        Some((other, _)) => other == name,
        None => false,
    }
}

fn is_said(name: &str, words: &[Text]) -> bool
    ensures { result ≡ is_said name.now words.now }
{
    for word in words {
        if says_name(name, word) {
            return true;
        }
    }
    false
}

// Whether the words name collections that may be named together. Takes no memory.
fn are_names(words: &[Text]) -> bool
    ensures { result ≡ is_some (names_of words.now) }
{
    let mut together = 0;
    for (place, word) in words.iter().enumerate() {
        let Some((name, shards)) = parts_of(word.as_str()) else {
            return false;
        };
        if is_said(name, &words[place + 1..]) {
            return false;
        }
        if together + shards > MOST {
            return false;
        }
        together += shards;
    }
    true
}

// The collection that each word names.
fn read_each(alloc: Global, words: &[Text]) -> Result<Names, WordsFault>
    ensures computed { Answers (each_of words.now) result }
    ensures plain { IfErr result IsPlainFault }
{
    let mut names = Names::new(alloc);
    for word in words {
        let Some((name, shards)) = parts_of(word.as_str()) else {
            return Err(WordsFault::Refused);
        };
        let name = Text::of(alloc, name)?;
        names.push(NameShards { name, shards })?;
    }
    Ok(names)
}

/// The collections that are named by words `NAME=SHARDS`, in their order. There may be none.
pub fn read_names(alloc: Global, words: &[Text]) -> Result<Names, WordsFault>
    ensures computed { Answers (names_of words.now) result }
    ensures fit { IfOk result AreFit }

    // Memory can be wanting only where they name some.
    ensures memory { IsErrOf result WordsFault.OutOfMemory → IsSome (names_of words.now) }

    // No text comes with a fault.
    ensures plain { IfErr result IsPlainFault }
{
    if !are_names(words) {
        return Err(WordsFault::Refused);
    }
    read_each(alloc, words)
}

/// The collections that words `NAME=SHARDS` name, where there is one at least.
pub fn read_some_names(alloc: Global, words: &[Text]) -> Result<Names, WordsFault>
    ensures computed { Answers (some_names_of words.now) result }
    ensures memory { IsErrOf result WordsFault.OutOfMemory → IsSome (some_names_of words.now) }
    ensures plain { IfErr result IsPlainFault }
{
    if words.is_empty() {
        return Err(WordsFault::Refused);
    }
    read_names(alloc, words)
}
