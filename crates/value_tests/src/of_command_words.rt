// Tests of command_words, over lines whose commands were worked out by hand.
use command_words::{Command, Settings, WordsFault, read_command};
use std::alloc::Global;
use tuple_values::{Memory, NameShards, Names, Text, Words};

fn push_name(told: &mut String, entry: &NameShards) -> Result<(), Memory> {
    let (name, shards) = (entry.name.as_str(), entry.shards);
    write!(told, " {name}:{shards}").map_err(|_| Memory::OutOfMemory)
}

fn push_names(told: &mut String, word: &str, names: &Names) -> Result<(), Memory> {
    told.push_str(word)?;
    for entry in names.as_slice() {
        push_name(told, entry)?;
    }
    Ok(())
}

fn push_settings(told: &mut String, settings: Settings) -> Result<(), Memory> {
    let Settings {
        port,
        workers,
        runners,
    } = settings;
    write!(told, "serve {port} {workers} {runners}").map_err(|_| Memory::OutOfMemory)
}

fn push_server(told: &mut String, settings: Settings, names: &Names) -> Result<(), Memory> {
    push_settings(told, settings)?;
    push_names(told, "", names)
}

// A command by its word and its names, each with a colon and its shards, those of a server behind
// its port, workers and runners, or by the number of a load; or the fault, with no text of it.
fn push_command(told: &mut String, command: &Result<Command, WordsFault>) -> Result<(), Memory> {
    match command {
        Ok(Command::Eval { names }) => push_names(told, "eval", names),
        Ok(Command::Script { names }) => push_names(told, "script", names),
        Ok(Command::Serve { settings, names }) => push_server(told, *settings, names),
        Ok(Command::Load { n }) => { write!(told, "load {n}").map_err(|_| Memory::OutOfMemory) }
        Err(WordsFault::Shown { text: _ }) => Ok(told.push_str("shown")?),
        Err(WordsFault::RefusedBy { text: _ }) => Ok(told.push_str("refused by clap")?),
        Err(WordsFault::Refused) => Ok(told.push_str("refused")?),
        Err(WordsFault::OutOfMemory) => Ok(told.push_str("out of memory")?),
    }
}

fn told(alloc: Global, words: &Words) -> Result<String, Memory> {
    let mut told = String::new(alloc);
    push_command(&mut told, &read_command(alloc, words))?;
    Ok(told)
}

fn is_told(alloc: Global, words: &Words, want: &str) -> bool {
    match told(alloc, words) {
        Ok(told) => told.as_str() == want,
        Err(_) => false,
    }
}

fn push_words(alloc: Global, words: &mut Words, line: &str) -> Result<(), Memory> {
    for word in line.split(' ') {
        words.push(Text::of(alloc, word)?)?;
    }
    Ok(())
}

// Whether the words of the line, with a space between each and the next, are so read.
fn says(alloc: Global, line: &str, want: &str) -> bool {
    let mut words = Words::new(alloc);
    push_words(alloc, &mut words, line).is_ok() && is_told(alloc, &words, want)
}

const COMMANDS: [(&str, &str); 9] = [
    ("eval", "eval"),
    ("eval c=1", "eval c:1"),
    ("eval logs=8 _a-b.c9=008", "eval logs:8 _a-b.c9:8"),
    ("eval c=1 C=2", "eval c:1 C:2"),
    ("eval c=00000000000000000000001", "eval c:1"),
    ("eval a=8 b=8", "eval a:8 b:8"),
    ("script c=2 d=3", "script c:2 d:3"),
    ("script eval=1", "script eval:1"),
    (
        "eval aaaaaaaaaaaaaaaaaaaaaaaaaaaaaaaaaaaaaaaaaaaaaaaaaaaaaaaaaaaaaaaa=1",
        "eval aaaaaaaaaaaaaaaaaaaaaaaaaaaaaaaaaaaaaaaaaaaaaaaaaaaaaaaaaaaaaaaa:1",
    ),
];

#[test]
fn words_say_a_command(rt: HostRuntime) {
    for (line, want) in &COMMANDS {
        assert!(rt; says(rt.alloc(), line, want), "of {line}");
    }
}

const SERVERS: [(&str, &str); 16] = [
    ("serve c=1", "serve 8983 4 1 c:1"),
    (
        "serve --port 9000 --workers 2 --runners 3 c=1 d=2",
        "serve 9000 2 3 c:1 d:2",
    ),
    (
        "serve --runners 3 --port 9000 --workers 2 c=1 d=2",
        "serve 9000 2 3 c:1 d:2",
    ),
    (
        "serve --workers 16 --runners 4 c=8 d=8",
        "serve 8983 16 4 c:8 d:8",
    ),
    ("serve --port 0 c=1", "serve 0 4 1 c:1"),
    ("serve --port 65535 c=1", "serve 65535 4 1 c:1"),
    ("serve --workers 1 c=1", "serve 8983 1 1 c:1"),
    ("serve --runners 1 c=1", "serve 8983 4 1 c:1"),
    (
        "serve --port 0000000000000000000080 c=1",
        "serve 80 4 1 c:1",
    ),
    (
        "serve --workers 016 --runners 004 c=01",
        "serve 8983 16 4 c:1",
    ),
    ("serve serve=1", "serve 8983 4 1 serve:1"),
    ("serve --port=9000 c=1", "serve 9000 4 1 c:1"),
    (
        "serve --runners=3 --port=9000 --workers=2 c=1 d=2",
        "serve 9000 2 3 c:1 d:2",
    ),
    (
        "serve --runners=3 --port 9000 --workers=2 c=1",
        "serve 9000 2 3 c:1",
    ),
    ("serve --port 80 --workers=016 c=1", "serve 80 16 1 c:1"),
    ("serve --port=0 c=1", "serve 0 4 1 c:1"),
];

#[test]
fn words_say_a_server(rt: HostRuntime) {
    for (line, want) in &SERVERS {
        assert!(rt; says(rt.alloc(), line, want), "of {line}");
    }
}

const LOADS: [(&str, &str); 6] = [
    ("load 1", "load 1"),
    ("load 1000", "load 1000"),
    ("load 65536", "load 65536"),
    ("load 200000", "load 200000"),
    ("load 0200000", "load 200000"),
    ("load 0000000000000000000000007", "load 7"),
];

#[test]
fn words_say_a_load(rt: HostRuntime) {
    for (line, want) in &LOADS {
        assert!(rt; says(rt.alloc(), line, want), "of {line}");
    }
}

// Words that clap takes, and that say no command.
const OTHERS: [&str; 32] = [
    "eval aaaaaaaaaaaaaaaaaaaaaaaaaaaaaaaaaaaaaaaaaaaaaaaaaaaaaaaaaaaaaaaaa=1",
    "eval a=8 b=8 c=1",
    "eval a=8 b=8 c=8",
    "eval c=1 c=1",
    "eval c=1 d=1 c=2",
    "eval c=0",
    "eval c=9",
    "eval c=",
    "eval c",
    "eval =1",
    "eval c=+1",
    "eval c=-1",
    "eval c=1=1",
    "eval c=1x",
    "eval c=65537",
    "eval c=18446744073709551617",
    "eval 9c=1",
    "eval .c=1",
    "eval c/d=1",
    "eval é=1",
    "eval ",
    "eval eval",
    "script",
    "eval -- c=1",
    "load",
    "load 0",
    "load 200001",
    "load 4294967297",
    "load 18446744073709551617",
    "load +1",
    "load 1x",
    "load c=1",
];

#[test]
fn all_else_is_refused(rt: HostRuntime) {
    for line in &OTHERS {
        assert!(rt; says(rt.alloc(), line, "refused"), "of {line}");
    }
}

// Words of a server that clap takes, and that say none.
const NO_SERVERS: [&str; 40] = [
    "serve",
    "serve --port 1",
    "serve --port c=1",
    "serve --port 1 --port 1 c=1",
    "serve --port 1 --workers 2 --port 2 c=1",
    "serve --workers 2 --workers 2 c=1",
    "serve --runners 2 --runners 2 c=1",
    "serve --port=1 --port=1 c=1",
    "serve --port=1 --port 1 c=1",
    "serve --port 1 --port=1 c=1",
    "serve c=1 --port 1",
    "serve c=1 --port=1",
    "serve c=1 --port 1 d=1",
    "serve c=1 --port=1 d=1",
    "serve --port 1 -- c=1",
    "serve 1 c=1",
    "serve --port 65536 c=1",
    "serve --port=65536 c=1",
    "serve --port 18446744073709551617 c=1",
    "serve --port  c=1",
    "serve --port= c=1",
    "serve --port=1=1 c=1",
    "serve --port +1 c=1",
    "serve --port=-1 c=1",
    "serve --port 1x c=1",
    "serve --port 0x1 c=1",
    "serve --port one c=1",
    "serve --workers 0 c=1",
    "serve --workers 17 c=1",
    "serve --workers=17 c=1",
    "serve --workers  c=1",
    "serve --runners 0 c=1",
    "serve --runners 5 c=1",
    "serve --runners=0 c=1",
    "serve --runners  c=1",
    "serve --port 1 c=9",
    "serve --port 1 c=8 d=8 e=1",
    "serve c=1 c=1",
    "serve --port=1",
    "serve port=1 --port=1",
];

#[test]
fn all_else_of_a_server_is_refused(rt: HostRuntime) {
    for line in &NO_SERVERS {
        assert!(rt; says(rt.alloc(), line, "refused"), "of {line}");
    }
}

// Words that clap refuses.
const UNTAKEN: [&str; 18] = [
    "Eval",
    "c=1 eval",
    "",
    "eval -c=1",
    "eval --port 1",
    "load -1",
    "load 1 2",
    "script --workers=1",
    "serve --port",
    "serve --port 1 --workers",
    "serve --port --workers 2 c=1",
    "serve --host 1 c=1",
    "serve --por 1 c=1",
    "serve -port 1 c=1",
    "serve --Port 1 c=1",
    "serve --port -1 c=1",
    "--port 1 serve c=1",
    "help nothing",
];

#[test]
fn what_clap_refuses_is_told(rt: HostRuntime) {
    for line in &UNTAKEN {
        assert!(rt; says(rt.alloc(), line, "refused by clap"), "of {line}");
    }
}

// Words that ask for a text.
const ASKED: [&str; 13] = [
    "--help",
    "-h",
    "--version",
    "-V",
    "help",
    "help eval",
    "help serve",
    "eval --help",
    "script -h",
    "serve --help",
    "serve c=1 --help",
    "serve --port 1 --help",
    "load --help",
];

#[test]
fn a_text_that_is_asked_for_is_shown(rt: HostRuntime) {
    for line in &ASKED {
        assert!(rt; says(rt.alloc(), line, "shown"), "of {line}");
    }
}

// Whether the text that the words ask for has this part.
fn shows(alloc: Global, words: &Words, part: &str) -> bool {
    match read_command(alloc, words) {
        Err(WordsFault::Shown { text }) => text.as_str().find(part).is_some(),
        _ => false,
    }
}

// The same of the words of a line.
fn line_shows(alloc: Global, line: &str, part: &str) -> bool {
    let mut words = Words::new(alloc);
    push_words(alloc, &mut words, line).is_ok() && shows(alloc, &words, part)
}

const EXAMPLES: [(&str, &str); 10] = [
    ("eval --help", "| solr_streams eval c=2"),
    ("script --help", "solr_streams script c=2 d=2 <"),
    ("serve --help", "solr_streams serve --port 8983 c=2 d=2"),
    (
        "help serve",
        "Usage: solr_streams serve [OPTIONS] [NAME=SHARDS]...",
    ),
    ("help load", "Usage: solr_streams load [N]"),
    ("load --help", "solr_streams load 1000"),
    ("--help", "solr_streams eval c=2"),
    ("--help", "solr_streams load 1000"),
    ("--version", "solr_streams 0.1.0"),
    ("help", "Usage: solr_streams [COMMAND]"),
];

#[test]
fn help_shows_an_example_of_each_command(rt: HostRuntime) {
    for (line, part) in &EXAMPLES {
        assert!(rt; line_shows(rt.alloc(), line, part), "of {line}");
    }
}

#[test]
fn no_word_is_refused(rt: HostRuntime) {
    assert!(rt; is_told(rt.alloc(), &Words::new(rt.alloc()), "refused"));
}
