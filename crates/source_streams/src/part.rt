// One part of several.
ghost use Rattle.std.specs.Prelude.{◌<◌, ◌≡◌, [], option_map};
ghost use Rattle.tuple_values.specs.Document.{value_at};
ghost use Rattle.tuple_values.specs.Keys.{hash_from, key_part};
ghost use Rattle.tuple_values.specs.Views.{datum_of};
ghost use Rattle.expr_types.specs.Sources.{cut_to};
ghost use Rattle.source_streams.specs.Parts.{is_of_part, keys_of};

use tuple_values::{FieldList, Tuple, Value};

/// One of `of` parts into which the tuples of a stream fall by their keys, counted from 0.
#[derive(Clone, Copy, PartialEq, Eq)]
pub struct Part {
    pub index: u16,
    pub of: u16,
}

// The hash of no bytes, by 32-bit FNV-1a.
const NO_BYTES: u32 = 2166136261;

impl Part {
    /// The one part that holds all.
    pub fn whole() -> Part
        ensures index { result.index ≡ 0 }
        ensures of { result.of ≡ 1 }
    {
        Part { index: 0, of: 1 }
    }

    /// Whether a document's cut to the fields is of the part: the hash of its key says so, which is
    /// found without the key itself. Takes no memory.
    pub(crate) fn holds(self, keys: &FieldList, fl: &FieldList, document: &Tuple) -> bool
        requires { self.index < self.of }
        ensures { result ≡ is_of_part self.index self.of keys.now (cut_to fl.now document.now) }
    {
        if self.of == 1 {
            return true;
        }
        let mut hash = NO_BYTES;
        for name in keys.as_slice() {
            hash = with_value(hash, shown(fl, document, name.as_str()));
        }
        hash % u32::from(self.of) == u32::from(self.index)
    }
}

// The value of a field, where the fields of the cut have it.
fn shown<'a>(fl: &FieldList, document: &'a Tuple, name: &str) -> Option<&'a Value>
    ensures { option_map (λ v. datum_of v.now) result
        ≡ value_at name.now (cut_to fl.now document.now) }
{
    if fl.contains(name) {
        document.get(name)
    } else {
        None
    }
}

// The hash of bytes, gone on with over the part of a key that a value gives.
fn with_value(hash: u32, value: Option<&Value>) -> u32
    ensures { result ≡ hash_from hash (key_part (option_map (λ v. datum_of v.now) value.entry)) }
{
    match value {
        None => with_bytes(hash, &[0]),
        Some(Value::Long(n)) => {
            with_bytes(with_bytes(hash, &[1]), &n.cast_unsigned().to_be_bytes())
        }
        Some(Value::Text(text)) => {
            let bytes = text.as_str().as_bytes();
            let length = ((bytes.len() % 0x1_0000_0000) as u32).to_be_bytes();
            with_bytes(with_bytes(with_bytes(hash, &[2]), &length), bytes)
        }
        Some(Value::Group(_)) => with_bytes(hash, &[3]),
    }
}

// The same over bytes.
fn with_bytes(hash: u32, bytes: &[u8]) -> u32
    ensures { result ≡ hash_from hash bytes.now }
{
    let mut hash = hash;
    for byte in bytes {
        hash = (hash ^ u32::from(*byte)).wrapping_mul(16777619);
    }
    hash
}

/// The partition keys, or the list of none where they aren't given.
pub(crate) fn keys_or_none<'a>(keys: Option<&'a FieldList>, none: &'a FieldList) -> &'a FieldList
    requires { none.now ≡ [] }
    ensures { result.now ≡ keys_of (option_map (λ k. k.now) keys.entry) }
{
    match keys {
        Some(keys) => keys,
        None => none,
    }
}
