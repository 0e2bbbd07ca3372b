// The pieces of replies: strings and numbers as `serde_json` writes them.
ghost use Rattle.std.specs.Prelude.{◌≡◌, ◌++◌, OnOk};
ghost use Rattle.std.specs.List.{list_all};
ghost use Rattle.serde_json.specs.Data.{number};
ghost use Rattle.serde_json.specs.Find.{of_integer};
ghost use Rattle.serde_json.specs.Written.{compact_text, comma_if};
ghost use Rattle.json_text.specs.Replies.{string_text, count_text};
ghost use Rattle.json_text.specs.Plain.{is_plain_byte, plain_text};

use itoa::Buffer;
use std::alloc::Global;
use tuple_values::{Bytes, Memory};

/// Adds a text as a JSON string.
pub(crate) fn push_text(alloc: Global, out: &mut Bytes, text: &str) -> Result<(), Memory>
    ensures { OnOk result (out.new ≡ out.old ++ string_text text.now) }
{
    if is_plain(text.as_bytes()) {
        push_plain(out, text)
    } else {
        push_escaped(alloc, out, text)
    }
}

// Whether all bytes stand in a JSON string as they are.
fn is_plain(bytes: &[u8]) -> bool
    ensures { result ≡ list_all is_plain_byte bytes.now }
{
    bytes
        .iter()
        .all(|byte| 32 <= *byte && *byte != b'"' && *byte != b'\\')
}

// Adds a text, with its bytes as they are.
fn push_plain(out: &mut Bytes, text: &str) -> Result<(), Memory>
    ensures { OnOk result (out.new ≡ out.old ++ plain_text text.now) }
{
    out.extend(b"\"")?;
    out.extend(text.as_bytes())?;
    out.extend(b"\"")
}

// What `serde_json` makes of a text can only want memory.
fn push_escaped(alloc: Global, out: &mut Bytes, text: &str) -> Result<(), Memory>
    ensures { OnOk result (out.new ≡ out.old ++ string_text text.now) }
{
    let Ok(quoted) = serde_json::to_vec(alloc, &text) else {
        return Err(Memory::OutOfMemory);
    };
    out.extend(&quoted)
}

pub(crate) fn push_long(out: &mut Bytes, n: i64) -> Result<(), Memory>
    ensures { OnOk result (out.new ≡ out.old ++ compact_text (number (of_integer n))) }
{
    let mut digits = Buffer::new();
    out.extend(digits.format(n).as_bytes())
}

pub(crate) fn push_count(out: &mut Bytes, n: u64) -> Result<(), Memory>
    ensures { OnOk result (out.new ≡ out.old ++ count_text n) }
{
    let mut digits = Buffer::new();
    out.extend(digits.format(n).as_bytes())
}

pub(crate) fn push_comma(out: &mut Bytes, later: bool) -> Result<(), Memory>
    ensures { OnOk result (out.new ≡ out.old ++ comma_if later) }
{
    if later {
        out.extend(b",")?;
    }
    Ok(())
}
