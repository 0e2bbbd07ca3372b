// The front of an entry, which every kind of entry has.
use crate::Format;
use crate::texts::{read_byte, read_number, write_number};
use tuple_values::Memory;

/// The byte that tells the kind of an entry, and the number of its writer.
#[derive(Clone, Copy)]
pub(crate) struct Head {
    pub(crate) kind: u8,
    pub(crate) by: u64,
}

impl Head {
    ghost use Rattle.std.specs.Prelude.{◌≡◌, ◌++◌, IfNone, IfSome, OnOk};
    ghost use Rattle.log_codec.specs.Codes.{HasNone, IsAtFront};
    ghost use Rattle.log_codec.specs.Heads.{spelled_head, IsHead};

    pub(crate) fn write(self, out: &mut Vec<u8>) -> Result<(), Memory>
        ensures ok { OnOk result (out.new.items ≡ out.old.items ++ spelled_head self) }
        ensures fits { OnOk result (IsHead self) }
    {
        out.push(self.kind)?;
        write_number(out, self.by)
    }

    // The front of an entry in this format, and what follows it.
    pub(crate) fn read(format: Format, bytes: &[u8]) -> Option<(Head, &[u8])>
        ensures some { IfSome result (λ read.
            IsAtFront IsHead spelled_head bytes.now read.0 read.1.now) }
        ensures none { IfNone result (HasNone IsHead spelled_head bytes.now) }
    {
        match format {
            Format::One => Head::in_one(bytes),
        }
    }

    fn in_one(bytes: &[u8]) -> Option<(Head, &[u8])>
        ensures some { IfSome result (λ read.
            IsAtFront IsHead spelled_head bytes.now read.0 read.1.now) }
        ensures none { IfNone result (HasNone IsHead spelled_head bytes.now) }
    {
        match read_byte(bytes) {
            Some((kind, tail)) => match read_number(tail) {
                Some((by, rest)) => Some((Head { kind, by }, rest)),
                None => None,
            },
            None => None,
        }
    }
}
