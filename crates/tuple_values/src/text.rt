// A text that holds a few bytes itself, and shares more.
ghost use Rattle.std.specs.Prelude.{◌≡◌, IfOk, string_bytes};

use crate::{Memory, TryCopy};
use arrayvec::ArrayString;
use std::alloc::Global;
use std::marker::Model;
use std::sync::ArcStr;

// Where the bytes are: here, in a block of their own, or in one that copies of the text share.
#[derive(Debug, Drop)]
enum Form {
    Short(ArrayString<16>),
    Owned(String),
    Shared(ArcStr<Global>),
}

/// A UTF-8 text. A contract sees its bytes. One of up to 16 bytes takes no memory.
#[derive(Debug)]
pub struct Text {
    form: Form,
}

impl Drop for Text {
    fn drop(self) {
        let Text { form } = self;
        drop(form);
    }
}

impl Model for Text {
    ghost use Rattle.std.specs.Prelude.{List, ℕ};
    ghost use Rattle.tuple_values.specs.Forms.{form_bytes};

    ghost Value = { List ℕ };

    ghost view = { λ t. form_bytes t.form };
}

impl Text {
    /// A copy of a text, whose own copies share its bytes.
    pub fn of(alloc: Global, s: &str) -> Result<Text, Memory>
        ensures { IfOk result (λ text. text ≡ s.now) }
    {
        if let Ok(short) = ArrayString::from(s) {
            let form = Form::Short(short);
            return Ok(Text { form });
        }
        let form = Form::Shared(ArcStr::from_str(alloc, s)?);
        Ok(Text { form })
    }

    /// The text of a string, which is moved in. Takes no memory.
    pub fn from_string(inner: String) -> Text
        ensures { result ≡ string_bytes inner }
    {
        let short = ArrayString::from(inner.as_str()).ok();
        let form = match short {
            Some(short) => Form::Short(short),
            None => Form::Owned(inner),
        };
        Text { form }
    }

    /// The same text, whose copies share its bytes. After an `Err` it is dropped.
    pub fn shared(self) -> Result<Text, Memory>
        ensures { IfOk result (λ text. text ≡ self) }
    {
        let Text { form } = self;
        let form = match form {
            Form::Owned(text) => Form::Shared(ArcStr::from_string(text)?),
            form => form,
        };
        Ok(Text { form })
    }

    /// The text as it is read.
    pub fn as_str(&self) -> &str
        ensures { result.now ≡ self.now }
    {
        match &self.form {
            Form::Short(text) => text.as_str(),
            Form::Owned(text) => text.as_str(),
            Form::Shared(text) => text.as_str(),
        }
    }
}

impl TryCopy for Text {
    fn copy(&self, alloc: Global) -> Result<Self, Memory> {
        match &self.form {
            Form::Short(text) => Ok(Text {
                form: Form::Short(*text),
            }),
            Form::Owned(text) => Text::of(alloc, text.as_str()),
            Form::Shared(text) => {
                let form = Form::Shared(text.clone()?);
                Ok(Text { form })
            }
        }
    }
}
