// Runs of bytes of one kind.
ghost use Rattle.std.specs.Prelude.{◌≡◌, ◌+◌, ◌≤◌, ◌<◌, drop, length, slice_index, IsTrue};
ghost use Rattle.std.specs.List.{prefix_len, common_prefix_len};
ghost use Rattle.sort_spec.specs.Grammar.{is_blank};
ghost use Rattle.std.specs.Str.{IsCharBoundary};
ghost use Rattle.sort_spec.specs.Reading.{begins_with_d, begins_with_equals};
ghost use Rattle.sort_spec.specs.Scan.{is_of, same_letter};

/// A kind of bytes.
#[derive(Clone, Copy)]
pub enum Kind {
    /// Space, tab, line feed, carriage return.
    Blank,
    /// What a field is made of: neither a blank nor a comma.
    Field,
    /// What a name in a pair is made of: no equals sign either.
    Side,
}

fn is_blank(byte: u8) -> bool
    ensures { result ≡ is_blank byte }
{
    byte == b' ' || byte == b'\t' || byte == b'\n' || byte == b'\r'
}

impl Kind {
    // Whether the byte is of the kind.
    fn holds(self, byte: u8) -> bool
        ensures { result ≡ is_of self byte }
    {
        match self {
            Kind::Blank => is_blank(byte),
            Kind::Field => !(is_blank(byte) || byte == b','),
            Kind::Side => !(is_blank(byte) || byte == b',' || byte == b'='),
        }
    }
}

/// The end of the bytes of the kind that begin at a place.
pub fn end_of(text: &str, from: usize, kind: Kind) -> usize
    requires { from ≤ length text.now }
    ensures end { result ≡ from + prefix_len (is_of kind) (drop from text.now) }
    ensures within { result ≤ length text.now }
    ensures boundary { IsCharBoundary text.now from → IsCharBoundary text.now result }
{
    let bytes = text.as_bytes();
    let mut at = from;
    while at < bytes.len() && kind.holds(bytes[at]) {
        at += 1;
    }
    at
}

/// How many letters of the word stand at a place, in any case, up to the first that doesn't.
pub fn letters_at(text: &str, from: usize, word: &[u8]) -> usize
    requires { from ≤ length text.now }
    ensures count { result ≡ common_prefix_len same_letter (drop from text.now) word.now }
    ensures within { from + result ≤ length text.now }
    ensures of_word { result ≤ length word.now }
{
    let bytes = text.as_bytes();
    let mut k = 0;
    while k < word.len() && from + k < bytes.len() {
        if bytes[from + k].to_ascii_lowercase() != word[k] {
            return k;
        }
        k += 1;
    }
    k
}

/// Whether a `d` of any case stands at a place.
pub fn begins_with_d(text: &str, from: usize) -> bool
    requires { from ≤ length text.now }
    ensures { result ≡ begins_with_d (drop from text.now) }
{
    let bytes = text.as_bytes();
    from < bytes.len() && bytes[from].to_ascii_lowercase() == b'd'
}

/// Whether an equals sign stands at a place.
pub fn begins_with_equals(text: &str, from: usize) -> bool
    requires { from ≤ length text.now }
    ensures value { result ≡ begins_with_equals (drop from text.now) }
    ensures within { IsTrue result → from < length text.now }
    ensures sign { IsTrue result → slice_index text.now from ≡ 61 }
{
    let bytes = text.as_bytes();
    from < bytes.len() && bytes[from] == b'='
}
