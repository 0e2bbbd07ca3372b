// The command that the words of a command line say.
ghost use Rattle.std.specs.Prelude.{◌≡◌, ◌≢◌, ◌↔◌, IfOk, IfErr, IsErrOf, IsSome, List, Some, true};
ghost use Rattle.std.specs.Prelude.{option_map, option_and_then};
ghost use Rattle.tuple_values.specs.Document.{ByteList};
ghost use Rattle.tuple_values.specs.declared.names.NameShards.{NameShards};
ghost use Rattle.command_words.specs.Answering.{Answers, IsPlainFault};
ghost use Rattle.command_words.specs.Commands.{command_of, command_by, server_of, load_of};
ghost use Rattle.command_words.specs.Commands.{names_in, IsRanged};
ghost use Rattle.command_words.specs.Grammar.{IsWord, AreNames, IsCommand, IsReadable};
ghost use Rattle.command_words.specs.Names.{names_of, AreFit};
ghost use Rattle.command_words.specs.Program.{is_taken, HasReason};
ghost use Rattle.command_words.specs.Settings.{settings_of};
ghost use Rattle.command_words.specs.Words.{name_of};
ghost use Rattle.command_words.specs.declared.command.Command.{Command};
ghost use Rattle.command_words.specs.declared.command.Command.TheVariants.{Load};

use crate::names::read_some_names;
use crate::program::told_of;
use crate::settings::settings_of;
use crate::word::number_of;
use crate::{WordsFault, read_names};
use std::alloc::Global;
use tuple_values::{Names, Text, Words};

// The most documents of a load.
const MOST: u32 = 200000;

/// How a server is to serve: at which port, by how many workers and runners.
#[derive(Clone, Copy, PartialEq, Eq)]
pub struct Settings {
    pub port: u16,
    pub workers: u16,
    pub runners: u16,
}

/// What the program is to do, over which collections.
#[derive(Drop)]
pub enum Command {
    /// Evaluate one expression.
    Eval { names: Names },
    /// Carry out the steps of a script.
    Script { names: Names },
    /// Serve connections until the process is ended.
    Serve { settings: Settings, names: Names },
    /// Load so many documents, and print what it took.
    Load { n: u32 },
}

/// The command that the words say, those after the program's name.
pub fn read_command(alloc: Global, words: &Words) -> Result<Command, WordsFault>
    // What is read is what the words say, and its collections may be named together.
    ensures ok { IfOk result (λ command. IsCommand words.now command) }
    ensures fit { IfOk result (λ command. AreFit (names_in command)) }

    // A server's settings, and the number of a load, are those that it may have.
    ensures ranged { IfOk result IsRanged }

    // `Refused` comes only where they say none, and so does a text.
    ensures refused { IsErrOf result WordsFault.Refused → ¬ (IsReadable words.now) }
    ensures told { IfErr result (λ fault. fault ≢ WordsFault.OutOfMemory
        → ¬ (IsReadable words.now)) }

    // A text is shown where they ask for one, and refuses them where clap does.
    ensures reason { IfErr result (HasReason words.now) }

    // Memory can be wanting only where they say one.
    ensures memory { IsErrOf result WordsFault.OutOfMemory → IsReadable words.now }

    // All of this as a function of the words.
    ensures computed { Answers (command_of words.now) result }
{
    told_or_read(alloc, words)
}

// What clap tells of the words, or the command that they say.
fn told_or_read(alloc: Global, words: &Words) -> Result<Command, WordsFault>
    ensures computed { Answers (command_of words.now) result }
    ensures memory { IsErrOf result WordsFault.OutOfMemory → IsSome (command_of words.now) }
    ensures reason { IfErr result (HasReason words.now) }
{
    match told_of(alloc, words) {
        Some(fault) => Err(fault),
        None => command_in(alloc, words),
    }
}

// The command that the words say.
fn command_in(alloc: Global, words: &Words) -> Result<Command, WordsFault>
    ensures computed { Answers (command_of words.now) result }
    ensures memory { IsErrOf result WordsFault.OutOfMemory → IsSome (command_of words.now) }
    ensures plain { IfErr result IsPlainFault }
{
    match words.as_slice().split_first() {
        Some((word, rest)) => command_by(alloc, word.as_str(), rest),
        None => Err(WordsFault::Refused),
    }
}

// The command of this word, by the words behind it.
fn command_by(alloc: Global, word: &str, rest: &[Text]) -> Result<Command, WordsFault>
    ensures computed { Answers (command_by word.now rest.now) result }
    ensures memory { IsErrOf result WordsFault.OutOfMemory
        → IsSome (command_by word.now rest.now) }
    ensures plain { IfErr result IsPlainFault }
{
    match word {
        "eval" => {
            let names = read_names(alloc, rest)?;
            Ok(Command::Eval { names })
        }
        "script" => {
            let names = read_some_names(alloc, rest)?;
            Ok(Command::Script { names })
        }
        "serve" => read_server(alloc, rest),
        "load" => read_load(rest),
        _ => Err(WordsFault::Refused),
    }
}

// The server of the options at the front, over the collections that the words behind these name.
fn read_server(alloc: Global, words: &[Text]) -> Result<Command, WordsFault>
    ensures computed { Answers (option_and_then server_of (settings_of words.now)) result }
    ensures memory { IsErrOf result WordsFault.OutOfMemory
        → IsSome (option_and_then server_of (settings_of words.now)) }
    ensures plain { IfErr result IsPlainFault }
{
    let Some((settings, rest)) = settings_of(words) else {
        return Err(WordsFault::Refused);
    };
    let names = read_some_names(alloc, rest)?;
    Ok(Command::Serve { settings, names })
}

// The load of the number that the only word writes.
fn read_load(words: &[Text]) -> Result<Command, WordsFault>
    ensures computed { Answers (option_map Load (load_of words.now)) result }
    ensures memory { IsErrOf result WordsFault.OutOfMemory
        → IsSome (option_map Load (load_of words.now)) }
    ensures plain { IfErr result IsPlainFault }
{
    let [digits] = words else {
        return Err(WordsFault::Refused);
    };
    match number_of(digits.as_str(), 1, MOST) {
        Some(n) => Ok(Command::Load { n }),
        None => Err(WordsFault::Refused),
    }
}

/// The computed readings are what the words look like: the two definitions of each agree. Clap takes
/// what says a command.
pub fn readings_agree()
    ensures word { (word : ByteList) (n : NameShards) → (name_of word ≡ Some n) ↔ IsWord word n }
    ensures names { (words : List ByteList) (names : List NameShards)
        → (names_of words ≡ Some names) ↔ AreNames words names }
    ensures commands { (words : List ByteList) (command : Command)
        → (command_of words ≡ Some command) ↔ IsCommand words command }

    // Clap takes all words that say a command.
    ensures taken { (words : List ByteList) (command : Command)
        → command_of words ≡ Some command → is_taken words ≡ true }
{}
