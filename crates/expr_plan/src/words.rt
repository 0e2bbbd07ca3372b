// The words among the arguments of a call.
ghost use Rattle.std.specs.Prelude.{◌≡◌, ◌≤◌, length, option_copied, option_map};
ghost use Rattle.std.specs.List.{prefix_len};
ghost use Rattle.std.specs.Str.{IsCharBoundary};
ghost use Rattle.expr_reader.specs.Views.{arg_tree};
ghost use Rattle.sort_spec.specs.Grammar.{is_blank, is_field_byte};
ghost use Rattle.expr_plan.specs.Words.{is_field, plain_of, plain_at, value_of, word_under};

use expr_reader::{Arg, ArgValue, Args, Word};

// White space: space, tab, line feed, carriage return.
fn is_blank(byte: u8) -> bool
    ensures { result ≡ is_blank byte }
{
    byte == b' ' || byte == b'\t' || byte == b'\n' || byte == b'\r'
}

fn is_field_byte(byte: u8) -> bool
    ensures { result ≡ is_field_byte byte }
{
    !(is_blank(byte) || byte == b',')
}

/// The length of the blanks that a text begins with.
pub(crate) fn blank_end(text: &str) -> usize
    ensures end { result ≡ prefix_len is_blank text.now }
    ensures within { result ≤ length text.now }
    ensures boundary { IsCharBoundary text.now result }
{
    let bytes = text.as_bytes();
    let mut at = 0;
    while at < bytes.len() && is_blank(bytes[at]) {
        at += 1;
    }
    at
}

/// The length of the field that a text begins with.
pub(crate) fn field_end(text: &str) -> usize
    ensures end { result ≡ prefix_len is_field_byte text.now }
    ensures within { result ≤ length text.now }
    ensures boundary { IsCharBoundary text.now result }
{
    let bytes = text.as_bytes();
    let mut at = 0;
    while at < bytes.len() && is_field_byte(bytes[at]) {
        at += 1;
    }
    at
}

/// Whether a text is a field: one or more characters other than white space and `,`.
pub(crate) fn is_field(text: &str) -> bool
    ensures { result ≡ is_field text.now }
{
    !text.is_empty() && field_end(text) == text.len()
}

/// The word that an argument is, if it is a plain one.
pub(crate) fn plain_of(arg: &Arg) -> Option<&Word>
    ensures { option_copied result ≡ plain_of (arg_tree arg.now) }
{
    match arg {
        Arg::Plain(word) => Some(word),
        _ => None,
    }
}

/// The plain word at a place among the plain words, counted from 0.
pub(crate) fn plain_at(args: &Args, place: u64) -> Option<&Word>
    ensures { option_copied result ≡ plain_at place args.now }
{
    let mut left = place;
    for k in 0..args.count() {
        match plain_of(args.get(k)) {
            Some(word) if left == 0 => return Some(word),
            Some(_) => left -= 1,
            None => {}
        }
    }
    None
}

// The word of an argument, if it stands under the key.
fn value_of<'a>(key: &str, arg: &'a Arg) -> Option<&'a Word>
    ensures { option_copied result ≡ value_of key.now (arg_tree arg.now) }
{
    match arg {
        Arg::Named {
            key: other,
            value: ArgValue::Plain(word),
        } if other.as_str() == key => Some(word),
        _ => None,
    }
}

/// The first word under the key.
pub(crate) fn word_under<'a>(args: &'a Args, key: &str) -> Option<&'a Word>
    ensures { option_copied result ≡ word_under key.now args.now }
{
    for k in 0..args.count() {
        match value_of(key, args.get(k)) {
            Some(word) => return Some(word),
            None => {}
        }
    }
    None
}
