// Numbers and texts.
ghost use Rattle.std.specs.Prelude.{◌≡◌, ◌++◌, ◌∷◌, [], IfNone, IfSome, OnOk};
ghost use Rattle.log_codec.specs.Codes.{spelled_number, spelled_text, HasNone, IsAtFront, IsNumber, IsText};

use tuple_values::{Memory, Text};

pub(crate) fn write_number(out: &mut Vec<u8>, number: u64) -> Result<(), Memory>
    ensures ok { OnOk result (out.new.items ≡ out.old.items ++ spelled_number number) }
    ensures fits { OnOk result (IsNumber number) }
{
    out.extend_from_slice(&number.to_be_bytes())?;
    Ok(())
}

pub(crate) fn write_text(out: &mut Vec<u8>, text: &Text) -> Result<(), Memory>
    ensures ok { OnOk result (out.new.items ≡ out.old.items ++ spelled_text text.now) }
    ensures fits { OnOk result (IsText text.now) }
{
    let bytes = text.as_str().as_bytes();
    write_number(out, bytes.len() as u64)?;
    out.extend_from_slice(bytes)?;
    Ok(())
}

// The byte at the front, and what follows it.
pub(crate) fn read_byte(bytes: &[u8]) -> Option<(u8, &[u8])>
    ensures some { IfSome result (λ read. bytes.now ≡ read.0 ∷ read.1.now) }
    ensures none { IfNone result (bytes.now ≡ []) }
{
    match bytes {
        [first, rest @ ..] => Some((*first, rest)),
        [] => None,
    }
}

// The number at the front, and what follows it.
pub(crate) fn read_number(bytes: &[u8]) -> Option<(u64, &[u8])>
    ensures some { IfSome result (λ read.
        IsAtFront IsNumber spelled_number bytes.now read.0 read.1.now) }
    ensures none { IfNone result (HasNone IsNumber spelled_number bytes.now) }
{
    if bytes.len() < 8 {
        return None;
    }
    let (head, rest) = bytes.split_at(8);
    let number = u64::from_be_bytes([
        head[0], head[1], head[2], head[3], head[4], head[5], head[6], head[7],
    ]);
    Some((number, rest))
}

// The text at the front, and what follows it.
pub(crate) fn read_text(bytes: &[u8]) -> Option<(&str, &[u8])>
    ensures some { IfSome result (λ read.
        IsAtFront IsText spelled_text bytes.now read.0.now read.1.now) }
    ensures none { IfNone result (HasNone IsText spelled_text bytes.now) }
{
    let (size, rest) = read_number(bytes)?;
    if size > rest.len() as u64 {
        return None;
    }
    let (body, after) = rest.split_at(size as usize);
    match std::str::from_utf8(body) {
        Ok(text) => Some((text, after)),
        Err(_) => None,
    }
}
