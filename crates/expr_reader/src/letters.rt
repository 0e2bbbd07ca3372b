// Classes of characters and bytes.
ghost use Rattle.std.specs.Prelude.{◌≡◌, ◌<◌, ◌≤◌, length, slice_index};
ghost use Rattle.std.specs.List.{list_all};
ghost use Rattle.expr_reader.specs.Letters.{is_blank, is_name_letter, begins_name, is_key_letter};
ghost use Rattle.expr_reader.specs.Letters.{is_special, is_name, is_lead, is_second, is_later};
ghost use Rattle.expr_reader.specs.Letters.{begun_bytes};

pub fn is_blank(c: char) -> bool
    ensures { result ≡ is_blank c }
{
    c == ' ' || c == '\t' || c == '\n' || c == '\r'
}

pub fn is_name_letter(c: char) -> bool
    ensures { result ≡ is_name_letter c }
{
    c.is_ascii_alphanumeric() || c == '_'
}

pub fn begins_name(c: char) -> bool
    ensures { result ≡ begins_name c }
{
    c.is_ascii_alphabetic() || c == '_'
}

pub fn is_special(c: char) -> bool
    ensures { result ≡ is_special c }
{
    c == ',' || c == '(' || c == ')' || c == '=' || c == '"'
}

fn is_key_letter(byte: u8) -> bool
    ensures { result ≡ is_key_letter byte }
{
    byte.is_ascii_alphanumeric() || byte == b'_' || byte == b'.' || byte == b'-'
}

pub fn is_key(bytes: &[u8]) -> bool
    ensures { result ≡ list_all is_key_letter bytes.now }
{
    bytes.iter().all(|byte| is_key_letter(*byte))
}

fn are_name_letters(bytes: &[u8]) -> bool
    ensures { result ≡ list_all is_name_letter bytes.now }
{
    bytes
        .iter()
        .all(|byte| byte.is_ascii_alphanumeric() || *byte == b'_')
}

pub fn is_name(bytes: &[u8]) -> bool
    ensures { result ≡ is_name bytes.now }
{
    match bytes {
        [] => false,
        [first, rest @ ..] => {
            (first.is_ascii_alphabetic() || *first == b'_') && are_name_letters(rest)
        }
    }
}

// The byte at a place, or 0 past the last.
fn byte_at(bytes: &[u8], place: usize) -> u8
    ensures { result ≡ slice_index bytes.now place }
{
    if place < bytes.len() { bytes[place] } else { 0 }
}

fn is_lead(byte: u8) -> bool
    ensures { result ≡ is_lead byte }
{
    0xC2 <= byte && byte <= 0xF4
}

fn is_later(byte: u8) -> bool
    ensures { result ≡ is_later byte }
{
    0x80 <= byte && byte <= 0xBF
}

// Whether a byte may stand second behind a first one: no longer form than needed, no surrogate,
// nothing past the last character.
fn is_second(first: u8, byte: u8) -> bool
    ensures { result ≡ is_second first byte }
{
    let min = match first {
        0xE0 => 0xA0,
        0xF0 => 0x90,
        _ => 0x80,
    };
    let max = match first {
        0xED => 0x9F,
        0xF4 => 0x8F,
        _ => 0xBF,
    };
    min <= byte && byte <= max
}

/// How many bytes begin a character, of bytes that begin with no whole one.
pub fn begun_bytes(bytes: &[u8]) -> u64
    ensures { result ≡ begun_bytes bytes.now }
{
    let first = byte_at(bytes, 0);
    if !is_lead(first) {
        return 0;
    }
    if !is_second(first, byte_at(bytes, 1)) {
        return 1;
    }
    if is_later(byte_at(bytes, 2)) { 3 } else { 2 }
}
