// What clap is told of the command line, and what it says of words.
ghost use Rattle.std.specs.Prelude.{◌≡◌, ◌≢◌, IfOk, IfErr, IfSome, None, true, false, codes, map};
ghost use Rattle.std.specs.Prelude.{◌∷◌, []};
ghost use Rattle.clap.specs.Words.{App, app_of, rule_of, new_app, with_rule, with_subcommand};
ghost use Rattle.clap.specs.Words.{kind_of, takes, fault_of, is_simple_and_free, FailsBy};
ghost use Rattle.clap.specs.declared.builder.command.Command.TheViews.{out-Command};
ghost use Rattle.tuple_values.specs.Document.{ByteList};
ghost use Rattle.command_words.specs.Commands.{command_of};
ghost use Rattle.command_words.specs.Program.{words_rule, number_rule, option_rule, words_app};
ghost use Rattle.command_words.specs.Program.{load_app, serve_app};
ghost use Rattle.command_words.specs.Program.{overriding, bare_program, program, is_taken};
ghost use Rattle.command_words.specs.Program.{refusals_of, Makes, IsToldBy, HasReason};

use crate::WordsFault;
use clap::error::ErrorKind;
use clap::{Arg, ArgAction, Command, Error};
use std::alloc::{AllocError, Global};
use tuple_values::{Text, Words};

const NAME: &str = "solr_streams";

const VERSION: &str = "0.1.0";

const COLLECTIONS: &str = "Collections, each with its number of shards, 1 to 8";

const EXAMPLES: &str = "Examples:
  echo 'tuple(n=1)' | solr_streams eval c=2
  solr_streams script c=2 d=2 < requests
  solr_streams serve --port 8983 c=2 d=2
  solr_streams load 1000";

// The words behind a command.
fn words_arg<'a>(alloc: Global, value: &'a str, help: &'a str) -> Arg<'a>
    ensures rule { rule_of result ≡ words_rule }
    ensures local { result.global ≡ false }
{
    Arg::new(alloc, "words")
        .action(ArgAction::Append)
        .value_name(value)
        .help(help)
}

// The number of a load.
fn number_arg<'a>(alloc: Global) -> Arg<'a>
    ensures rule { rule_of result ≡ number_rule }
    ensures local { result.global ≡ false }
{
    Arg::new(alloc, "number")
        .action(ArgAction::Set)
        .value_name("N")
        .help("How many documents, 1 to 200000")
}

// An option of a server.
fn option_arg<'a>(alloc: Global, name: &'a str, value: &'a str, help: &'a str) -> Arg<'a>
    ensures rule { rule_of result ≡ option_rule name.entry.now }
    ensures local { result.global ≡ false }
{
    Arg::new(alloc, name)
        .long(name)
        .action(ArgAction::Set)
        .value_name(value)
        .help(help)
}

// A command with what help shows of it.
fn described<'a>(alloc: Global, name: &'a str, about: &'a str, example: &'a str) -> Command<'a>
    ensures app { app_of result ≡ new_app name.entry.now }
    ensures local { (out-Command result).has_globals ≡ false }
{
    Command::new(alloc, name).about(about).after_help(example)
}

// The command with an argument more.
fn with_arg<'a>(
    made: Result<Command<'a>, AllocError>,
    arg: Arg<'a>,
) -> Result<Command<'a>, AllocError>
    ensures { (app : App) → Makes made.entry app → arg.entry.global ≡ false
        → Makes result (with_rule app (rule_of arg.entry)) }
{
    let command = made?;
    command.arg(arg)
}

// The command with a subcommand more.
fn with_command<'a>(
    made: Result<Command<'a>, AllocError>,
    more: Result<Command<'a>, AllocError>,
) -> Result<Command<'a>, AllocError>
    ensures { (app sub : App) → Makes made.entry app → Makes more.entry sub
        → Makes result (with_subcommand app sub.top) }
{
    let more = more?;
    let command = made?;
    command.subcommand(more)
}

// A command with words alone.
fn words_command<'a>(command: Command<'a>, words: Arg<'a>) -> Result<Command<'a>, AllocError>
    ensures { (name : ByteList) → app_of command.entry ≡ new_app name
        → (out-Command command.entry).has_globals ≡ false → rule_of words.entry ≡ words_rule
        → words.entry.global ≡ false → Makes result (words_app name) }
{
    with_arg(Ok(command), words)
}

fn eval_command<'a>(alloc: Global) -> Result<Command<'a>, AllocError>
    ensures { Makes result (words_app (codes "eval")) }
{
    let command = described(
        alloc,
        "eval",
        "Answer one expression, which is read from the input",
        "Example: echo 'tuple(n=1)' | solr_streams eval c=2",
    );
    words_command(command, words_arg(alloc, "NAME=SHARDS", COLLECTIONS))
}

fn script_command<'a>(alloc: Global) -> Result<Command<'a>, AllocError>
    ensures { Makes result (words_app (codes "script")) }
{
    let command = described(
        alloc,
        "script",
        "Read HTTP requests from the input, and write their responses",
        "Example: solr_streams script c=2 d=2 < requests",
    );
    words_command(command, words_arg(alloc, "NAME=SHARDS", COLLECTIONS))
}

fn load_command<'a>(alloc: Global) -> Result<Command<'a>, AllocError>
    ensures { Makes result load_app }
{
    let command = described(
        alloc,
        "load",
        "Load so many documents",
        "Example: solr_streams load 1000",
    );
    with_arg(Ok(command), number_arg(alloc))
}

// A server before it has arguments.
fn server<'a>(alloc: Global) -> Command<'a>
    ensures app { app_of result ≡ overriding (new_app (codes "serve")) }
    ensures local { (out-Command result).has_globals ≡ false }
{
    described(
        alloc,
        "serve",
        "Answer HTTP requests at the loopback address, until the process is ended",
        "Example: solr_streams serve --port 8983 c=2 d=2",
    )
    .args_override_self(true)
}

fn serve_command<'a>(alloc: Global) -> Result<Command<'a>, AllocError>
    ensures { Makes result serve_app }
{
    let words = words_arg(alloc, "NAME=SHARDS", COLLECTIONS);
    let port = option_arg(
        alloc,
        "port",
        "P",
        "Port to listen at, 0 to 65535; else 8983",
    );
    let workers = option_arg(alloc, "workers", "W", "Workers, 1 to 16; else 4");
    let runners = option_arg(alloc, "runners", "R", "Runners of daemons, 1 to 4; else 1");
    let command = with_arg(Ok(server(alloc)), words);
    let command = with_arg(command, port);
    let command = with_arg(command, workers);
    with_arg(command, runners)
}

// The program before it has commands.
fn bare<'a>(alloc: Global) -> Result<Command<'a>, AllocError>
    ensures { Makes result bare_program }
{
    described(
        alloc,
        NAME,
        "Streaming expressions over sharded collections of documents",
        EXAMPLES,
    )
    .version(VERSION)
    .no_binary_name(true)
    .bin_name(NAME)
}

// The program.
fn program<'a>(alloc: Global) -> Result<Command<'a>, AllocError>
    ensures { Makes result program }
{
    let command = with_command(bare(alloc), eval_command(alloc));
    let command = with_command(command, script_command(alloc));
    let command = with_command(command, serve_command(alloc));
    with_command(command, load_command(alloc))
}

fn texts_of(alloc: Global, words: &[Text]) -> Result<Vec<&str>, AllocError>
    ensures { IfOk result (λ texts. map (λ text. text.now) texts.items ≡ words.now) }
{
    let mut texts = Vec::new(alloc);
    for word in words {
        texts.push(word.as_str())?;
    }
    Ok(texts)
}

// Whether the command takes the words.
fn parsed<'a>(command: Command<'a>, words: &'a [&'a str]) -> Result<(), Error>
    ensures passes { IfErr result (λ e.
        takes (app_of command.entry) (map (λ word. word.now) words.entry.now) ≡ true
        → kind_of e ≡ ErrorKind.OutOfMemory) }
    ensures kinds { is_simple_and_free (app_of command.entry) ≡ true
        → FailsBy (fault_of (app_of command.entry) (map (λ word. word.now) words.entry.now))
        result }
{
    match command.try_get_matches_from(words) {
        Ok(_) => Ok(()),
        Err(error) => Err(error),
    }
}

// Whether clap takes the words.
fn parse(alloc: Global, words: &[Text]) -> Result<(), Error>
    ensures passes { IfErr result (λ e. is_taken words.now ≡ true
        → kind_of e ≡ ErrorKind.OutOfMemory) }
    ensures kinds { FailsBy (refusals_of words.now) result }
{
    let texts = texts_of(alloc, words)?;
    let command = program(alloc)?;
    parsed(command, texts.as_slice())
}

fn text_of(alloc: Global, error: &Error) -> Option<Text> {
    match format!(in alloc; "{error}") {
        Ok(text) => Some(Text::from_string(text)),
        Err(_) => None,
    }
}

// What is told of words at an error, unless memory is wanting.
fn told_by(alloc: Global, error: &Error) -> Option<WordsFault>
    ensures { IfSome result (IsToldBy (kind_of error.now)) }
{
    let text = text_of(alloc, error)?;
    match error.kind() {
        ErrorKind::OutOfMemory => None,
        ErrorKind::DisplayHelp | ErrorKind::DisplayVersion => Some(WordsFault::Shown { text }),
        _ => Some(WordsFault::RefusedBy { text }),
    }
}

/// What clap tells of words that it doesn't take, unless memory is wanting.
pub fn told_of(alloc: Global, words: &Words) -> Option<WordsFault>
    ensures { IfSome result (λ fault. (command_of words.now ≡ None)
        × (fault ≢ WordsFault.OutOfMemory) × HasReason words.now fault) }
{
    match parse(alloc, words.as_slice()) {
        Ok(()) => None,
        Err(error) => told_by(alloc, &error),
    }
}

/// Words that ask for a text, of the program and of a command.
pub fn texts_are_asked()
    ensures help { refusals_of (codes "--help" ∷ []) ≡ ErrorKind.DisplayHelp ∷ [] }
    ensures version { refusals_of (codes "--version" ∷ []) ≡ ErrorKind.DisplayVersion ∷ [] }
    ensures command { refusals_of (codes "serve" ∷ codes "--help" ∷ [])
        ≡ ErrorKind.DisplayHelp ∷ [] }
    ensures topic { refusals_of (codes "help" ∷ codes "serve" ∷ [])
        ≡ ErrorKind.DisplayHelp ∷ ErrorKind.InvalidSubcommand ∷ [] }
{}
