// A name of fields that tuples share.
ghost use Rattle.std.specs.Prelude.{◌≡◌, IfOk};

use crate::{Memory, Text, TryCopy};
use std::alloc::Global;
use std::marker::Model;
use std::sync::Arc;

/// The name of a field, which tuples share: a copy of it takes no memory of its own. A contract sees
/// its bytes.
#[derive(Debug)]
pub struct FieldName {
    text: Arc<Text, Global>,
}

impl Drop for FieldName {
    fn drop(self) {
        let FieldName { text } = self;
        drop(text);
    }
}

impl Model for FieldName {
    ghost use Rattle.std.specs.Prelude.{List, ℕ};
    ghost use Rattle.std.specs.Arc.{arc_value};

    ghost Value = { List ℕ };

    ghost view = { λ n. arc_value n.text };
}

impl FieldName {
    /// The name of this text, which is moved in, and dropped after an `Err`.
    pub(crate) fn of(alloc: Global, text: Text) -> Result<FieldName, Memory>
        ensures { IfOk result (λ name. name ≡ text) }
    {
        let text = Arc::new(alloc, text)?;
        Ok(FieldName { text })
    }

    /// The name as a text.
    pub(crate) fn as_text(&self) -> &Text
        ensures { result.now ≡ self.now }
    {
        &self.text
    }

    /// The name as it is read.
    pub(crate) fn as_str(&self) -> &str
        ensures { result.now ≡ self.now }
    {
        self.text.as_str()
    }
}

impl TryCopy for FieldName {
    fn copy(&self, _alloc: Global) -> Result<Self, Memory> {
        let text = Arc::try_clone(&self.text)?;
        Ok(FieldName { text })
    }
}
