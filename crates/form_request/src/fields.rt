// The fields of a head, by their names.
ghost use Rattle.std.specs.Prelude.{◌≡◌, ◌≤◌, All, length, slice_range};
ghost use Rattle.httparse.specs.Spans.{IsHeaderWithin, header_bytes};
ghost use Rattle.httparse.specs.Grammar.{is_ows, trim_ows};
ghost use Rattle.form_request.specs.Fields.{fields_at, has, meets, is_word, lists_close, number_of, length_of, after_value, after_field};

use httparse::spans::HeaderSpan;

/// What a field's value is to be.
#[derive(Clone, Copy)]
pub enum Want {
    /// Any value.
    Anything,
    /// The one token `100-continue`.
    Continue,
    /// A list with the token `close` in it.
    Close,
}

/// The length of a body, as the head tells it.
#[derive(Clone, Copy)]
pub enum Length {
    /// No field tells it.
    Absent,
    /// A field's value is no number, or two tell different ones.
    Unclear,
    Given(u64),
}

/// Whether two texts differ at most in the case of ASCII letters.
pub fn is_same_word(a: &[u8], b: &[u8]) -> bool
    ensures { result ≡ is_word a.now b.now }
{
    a.eq_ignore_ascii_case(b)
}

/// Whether there is a field of this name with such a value.
pub fn has_field(head: &[u8], fields: &[HeaderSpan], name: &[u8], want: Want) -> bool
    requires { All (IsHeaderWithin (length head.now)) fields.now }
    ensures { result ≡ has name.now want (fields_at head.now fields.now) }
{
    for field in fields {
        if is_same_word(field.name.of(head), name) && is_wanted(want, field.value.of(head)) {
            return true;
        }
    }
    false
}

fn is_wanted(want: Want, value: &[u8]) -> bool
    ensures { result ≡ meets want value.now }
{
    match want {
        Want::Anything => true,
        Want::Continue => is_same_word(value, b"100-continue"),
        Want::Close => has_close(value),
    }
}

fn has_close(value: &[u8]) -> bool
    ensures { result ≡ lists_close value.now }
{
    value
        .split(|b| *b == b',')
        .any(|item| is_same_word(trimmed(item), b"close"))
}

// The bytes without the blanks at both ends.
fn trimmed(bytes: &[u8]) -> &[u8]
    ensures { result.now ≡ trim_ows bytes.now }
{
    trimmed_between(bytes, 0, bytes.len())
}

fn is_blank(byte: u8) -> bool
    ensures { result ≡ is_ows byte }
{
    byte == b' ' || byte == b'\t'
}

fn trimmed_between(bytes: &[u8], mut start: usize, mut end: usize) -> &[u8]
    requires ordered { start ≤ end }
    requires in_range { end ≤ length bytes.now }
    ensures { result.now ≡ trim_ows (slice_range bytes.now start end) }
{
    while start < end && is_blank(bytes[start]) {
        start += 1;
    }
    while start < end && is_blank(bytes[end - 1]) {
        end -= 1;
    }
    &bytes[start..end]
}

/// The length of the body.
pub fn content_length(head: &[u8], fields: &[HeaderSpan]) -> Length
    requires { All (IsHeaderWithin (length head.now)) fields.now }
    ensures { result ≡ length_of (fields_at head.now fields.now) }
{
    let mut found = Length::Absent;
    for field in fields {
        found = with_field(found, head, *field);
    }
    found
}

// The length that is told once one more field is read.
fn with_field(found: Length, head: &[u8], field: HeaderSpan) -> Length
    requires { IsHeaderWithin (length head.now) field }
    ensures { result ≡ after_field (header_bytes head.now field) found }
{
    if is_same_word(field.name.of(head), b"content-length") {
        return with_value(found, field.value.of(head));
    }
    found
}

// The length that is told once one more value is.
fn with_value(found: Length, value: &[u8]) -> Length
    ensures { result ≡ after_value value.now found }
{
    match (found, read_number(value)) {
        (Length::Absent, Some(number)) => Length::Given(number),
        (Length::Given(length), Some(number)) if length == number => Length::Given(length),
        _ => Length::Unclear,
    }
}

// The number of 1 to 19 digits.
fn read_number(value: &[u8]) -> Option<u64>
    ensures { result ≡ number_of value.now }
{
    if value.is_empty() || value.len() > 19 {
        return None;
    }
    let mut number = 0u64;
    for digit in value {
        if !digit.is_ascii_digit() {
            return None;
        }
        number = number * 10 + u64::from(*digit - b'0');
    }
    Some(number)
}
