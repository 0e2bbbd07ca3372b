// A text that is being read.
ghost use Rattle.std.specs.Prelude.{◌≡◌, ◌<◌, ◌++◌, ◌∷◌, [], true, OnOk, encode_utf8};
ghost use Rattle.expr_reader.specs.Letters.{is_blank};

use std::alloc::Global;
use std::marker::Model;
use std::mem;
use tuple_values::{Memory, Text};

/// A text as far as it is read, and the blanks behind it, which belong to it if more follows. A
/// contract sees the bytes of both.
#[derive(Drop)]
pub struct OpenText {
    bytes: String,
    kept: usize,
}

impl Model for OpenText {
    ghost use Rattle.std.specs.Prelude.{List, ℕ, take, drop, string_bytes};
    ghost use Rattle.expr_reader.specs.OpenText.{IsKept};

    ghost Value = { List ℕ × List ℕ };

    ghost view = { λ t. (take t.kept (string_bytes t.bytes), drop t.kept (string_bytes t.bytes)) };

    ghost invariant = { λ t. IsKept t.kept (string_bytes t.bytes) };
}

impl OpenText {
    /// The empty text with no blank.
    pub fn new(alloc: Global) -> OpenText
        ensures { result ≡ ([], []) }
    {
        OpenText {
            bytes: String::new(alloc),
            kept: 0,
        }
    }

    /// Forgets the text and the blanks.
    pub fn clear(&mut self)
        ensures { self.new ≡ ([], []) }
    {
        self.bytes.clear();
        self.kept = 0;
    }

    /// Goes on with a character, and with the blanks before it.
    pub fn push(&mut self, c: char) -> Result<(), Memory>
        ensures ok { OnOk result
            (self.new ≡ ((self.old.0 ++ self.old.1) ++ encode_utf8 c, [])) }
        ensures ascii { c < 128 → OnOk result
            (self.new ≡ ((self.old.0 ++ self.old.1) ++ c ∷ [], [])) }
    {
        self.bytes.push(c)?;
        self.kept = self.bytes.len();
        Ok(())
    }

    /// Keeps a blank aside.
    pub fn push_blank(&mut self, c: char) -> Result<(), Memory>
        requires { is_blank c ≡ true }
        ensures { OnOk result (self.new ≡ (self.old.0, self.old.1 ++ encode_utf8 c)) }
    {
        self.bytes.push(c)?;
        Ok(())
    }

    /// The bytes of the text.
    pub fn kept(&self) -> &[u8]
        ensures { result.now ≡ self.now.0 }
    {
        &self.bytes.as_bytes()[..self.kept]
    }

    /// The text, which is moved out; then it is empty.
    pub fn take(&mut self, alloc: Global) -> Text
        ensures text { result ≡ self.old.0 }
        ensures rest { self.new ≡ ([], []) }
    {
        let mut bytes = mem::replace(&mut self.bytes, String::new(alloc));
        bytes.truncate(self.kept);
        self.kept = 0;
        Text::from_string(bytes)
    }
}
