// Values, tuples and lists of tuples.
ghost use Rattle.std.specs.Prelude.{◌≡◌, ◌<◌, [], ◌∷◌, ◌++◌, IfOk, OnOk, OnErr, length, slice_index_or};
ghost use Rattle.tuple_values.specs.Document.{doc_depth, docs_depth};
ghost use Rattle.tuple_values.specs.Views.{doc_of};

use crate::field_name::FieldName;
use crate::{Memory, Text, TryCopy};
use std::alloc::Global;
use std::marker::Model;

/// A 64-bit number, a text, or a group of tuples.
#[cycle(values)]
#[derive(Debug, Drop)]
pub enum Value {
    Long(i64),
    Text(Text),
    Group(Tuples),
}

/// A name with its value.
#[cycle(values)]
#[derive(Debug, Drop)]
pub struct Field {
    pub(crate) name: FieldName,
    pub(crate) value: Value,
}

/// A finite map from names to values, kept in the order of the names' bytes.
#[cycle(values)]
#[derive(Debug)]
pub struct Tuple {
    pub(crate) fields: Vec<Field>,
}

// By hand, so that a crate above lets go of one by a call.
impl Drop for Tuple {
    #[cycle(values)]
    fn drop(self) {
        let Tuple { fields } = self;
        drop(fields);
    }
}

impl Model for Tuple {
    ghost use Rattle.tuple_values.specs.Document.{Doc, doc_depth, Rises};

    ghost Value = { Doc };

    ghost use Rattle.tuple_values.specs.Codes.{doc_code};

    ghost coded = { doc_code };

    ghost use Rattle.tuple_values.specs.Views.{doc_of};

    ghost view = { λ t. doc_of t.fields.items };

    ghost invariant = { λ t. Rises (doc_of t.fields.items) };

    ghost size = { doc_depth };

    ghost use Rattle.tuple_values.specs.Falls.{doc_falls};

    ghost size_decreases = { λ a h. doc_falls a.fields.items };
}

/// Tuples in the order in which they were added.
#[cycle(values)]
#[derive(Debug)]
pub struct Tuples {
    items: Vec<Tuple>,
}

// By hand, so that a crate above lets go of one by a call.
impl Drop for Tuples {
    #[cycle(values)]
    fn drop(self) {
        let Tuples { items } = self;
        drop(items);
    }
}

impl Model for Tuples {
    ghost use Rattle.std.specs.Prelude.{List};
    ghost use Rattle.tuple_values.specs.Document.{Doc, docs_depth};

    ghost Value = { List Doc };

    ghost use Rattle.tuple_values.specs.Codes.{docs_code};

    ghost coded = { docs_code };

    ghost view = { λ t. t.items.items };

    ghost size = { docs_depth };

    ghost use Rattle.tuple_values.specs.Falls.{rows_fall};

    ghost size_decreases = { λ a h. rows_fall a.items.items };
}

impl Tuples {
    /// The list of no tuple.
    pub fn empty(alloc: Global) -> Tuples
        ensures { result ≡ [] }
    {
        Tuples {
            items: Vec::new(alloc),
        }
    }

    /// The list of a vector's tuples, which is moved in. Takes no memory.
    pub fn from_vec(items: Vec<Tuple>) -> Tuples
        ensures { result ≡ items.items }
    {
        Tuples { items }
    }

    /// The tuples as a vector. Takes no memory.
    pub fn into_vec(self) -> Vec<Tuple>
        ensures { result.items ≡ self }
    {
        let Tuples { items } = self;
        items
    }

    /// Adds a tuple at the end. After an `Err` the tuple is dropped.
    pub fn push(&mut self, tuple: Tuple) -> Result<(), Memory>
        ensures ok { OnOk result (self.new ≡ self.old ++ tuple ∷ []) }
        ensures err { OnErr result (self.new ≡ self.old) }
    {
        self.items.push(tuple)?;
        Ok(())
    }

    /// How many tuples there are.
    pub fn count(&self) -> u64
        ensures { result ≡ length self.now }
    {
        self.items.len() as u64
    }

    /// The k-th tuple, counted from 0.
    pub fn get(&self, k: u64) -> &Tuple
        requires { k < length self.now }
        ensures value { result.now ≡ slice_index_or self.now k result.now }
        ensures smaller { doc_depth result.now < docs_depth self.now }
    {
        &self.items[k as usize]
    }

    // The tuples as a slice, for this crate's recursions over values.
    pub(crate) fn as_slice(&self) -> &[Tuple]
        ensures { result.now ≡ self.now }
    {
        &self.items
    }
}

impl Tuple {
    // The fields, in order, for this crate's recursions over values.
    pub(crate) fn fields(&self) -> &[Field]
        ensures { doc_of result.now ≡ self.now }
    {
        &self.fields
    }
}

impl Value {
    /// The same value.
    #[cycle(copying)]
    pub fn copy(&self, alloc: Global) -> Result<Value, Memory>
        ensures { IfOk result (λ copy. copy ≡ self.now) }
    {
        match self {
            Value::Long(n) => Ok(Value::Long(*n)),
            Value::Text(text) => Ok(Value::Text(text.copy(alloc)?)),
            Value::Group(tuples) => Ok(Value::Group(tuples.copy(alloc)?)),
        }
    }
}

impl Field {
    /// The same field.
    #[cycle(copying)]
    pub(crate) fn copy(&self, alloc: Global) -> Result<Field, Memory>
        ensures { IfOk result (λ copy. copy ≡ self.now) }
    {
        let name = self.name.copy(alloc)?;
        let value = self.value.copy(alloc)?;
        Ok(Field { name, value })
    }
}

impl Tuple {
    /// The same tuple.
    #[cycle(copying)]
    pub fn copy(&self, alloc: Global) -> Result<Tuple, Memory>
        ensures { IfOk result (λ copy. copy ≡ self.now) }
    {
        let mut fields = Vec::with_capacity(alloc, self.fields.len())?;
        for field in &self.fields {
            fields.push(field.copy(alloc)?)?;
        }
        Ok(Tuple { fields })
    }
}

impl Tuples {
    /// The same tuples.
    #[cycle(copying)]
    pub fn copy(&self, alloc: Global) -> Result<Tuples, Memory>
        ensures { IfOk result (λ copy. copy ≡ self.now) }
    {
        let mut items = Vec::with_capacity(alloc, self.items.len())?;
        for tuple in &self.items {
            items.push(tuple.copy(alloc)?)?;
        }
        Ok(Tuples { items })
    }
}

impl TryCopy for Value {
    fn copy(&self, alloc: Global) -> Result<Self, Memory> {
        Value::copy(self, alloc)
    }
}

impl TryCopy for Tuple {
    fn copy(&self, alloc: Global) -> Result<Self, Memory> {
        Tuple::copy(self, alloc)
    }
}

impl TryCopy for Tuples {
    fn copy(&self, alloc: Global) -> Result<Self, Memory> {
        Tuples::copy(self, alloc)
    }
}
