// One word of a list of names, and a word of digits.
ghost use Rattle.std.specs.Prelude.{◌≡◌, Some, None, MatchOption};
ghost use Rattle.std.specs.Char.{is_ascii_digit};
ghost use Rattle.std.specs.List.{list_all};
ghost use Rattle.command_words.specs.Words.{is_first, is_later, begins_well, is_name, in_range};
ghost use Rattle.command_words.specs.Words.{is_number, number_of, shards_of, collection, name_of};

// The most bytes of a name.
const LONGEST: usize = 64;

fn is_first(byte: u8) -> bool
    ensures { result ≡ is_first byte }
{
    byte.is_ascii_alphabetic() || byte == b'_'
}

fn is_later(byte: u8) -> bool
    ensures { result ≡ is_later byte }
{
    byte.is_ascii_alphanumeric() || byte == b'_' || byte == b'-' || byte == b'.'
}

fn begins_well(bytes: &[u8]) -> bool
    ensures { result ≡ begins_well bytes.now }
{
    match bytes {
        [] => false,
        [first, ..] => is_first(*first),
    }
}

fn are_later(bytes: &[u8]) -> bool
    ensures { result ≡ list_all is_later bytes.now }
{
    bytes.iter().all(|byte| is_later(*byte))
}

// Whether a collection may be named so.
fn is_name(name: &str) -> bool
    ensures { result ≡ is_name name.now }
{
    let bytes = name.as_bytes();
    begins_well(bytes) && are_later(bytes) && bytes.len() <= LONGEST
}

fn are_digits(digits: &str) -> bool
    ensures { result ≡ list_all is_ascii_digit digits.now }
{
    digits.as_bytes().iter().all(|byte| byte.is_ascii_digit())
}

// Whether these are decimal digits, one at least.
fn is_number(digits: &str) -> bool
    ensures { result ≡ is_number digits.now }
{
    !digits.is_empty() && are_digits(digits)
}

// The number that digits write, where it is one from the least to the most.
pub fn number_of(digits: &str, least: u32, most: u32) -> Option<u32>
    ensures { result ≡ number_of least most digits.now }
{
    if !is_number(digits) {
        return None;
    }
    match digits.parse::<u32>() {
        Ok(number) => in_range(number, least, most),
        Err(_) => None,
    }
}

// The same of 16 bits.
pub fn short_number_of(digits: &str, least: u16, most: u16) -> Option<u16>
    ensures { result ≡ number_of least most digits.now }
{
    let number = number_of(digits, u32::from(least), u32::from(most))?;
    Some(number as u16)
}

// The number, where it is from the least to the most.
fn in_range(number: u32, least: u32, most: u32) -> Option<u32>
    ensures { result ≡ in_range least most number }
{
    if least <= number && number <= most {
        Some(number)
    } else {
        None
    }
}

// The number of shards that digits write, where a collection may have so many.
fn shards_of(digits: &str) -> Option<u16>
    ensures { result ≡ shards_of digits.now }
{
    short_number_of(digits, 1, 8)
}

/// The name in a word and its number of shards, which stand round its first equals sign.
pub fn parts_of(word: &str) -> Option<(&str, u16)>
    ensures { MatchOption result (name_of word.now ≡ None)
        (λ parts. name_of word.now ≡ Some (collection parts.0.now parts.1)) }
{
    let Some((name, digits)) = word.split_once('=') else {
        return None;
    };
    match shards_of(digits) {
        Some(shards) if is_name(name) => Some((name, shards)),
        _ => None,
    }
}
