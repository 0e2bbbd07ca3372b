// A tuple as a finite map.
ghost use Rattle.std.specs.Prelude.{◌≡◌, ◌≢◌, ◌<◌, ◌≤◌, List, [], true, false, IfOk, IfErr, OnOk, OnErr, filter, length, option_map, slice_index_or, slice_get, Some, None};
ghost use Rattle.std.specs.Option.{option_or};
ghost use Rattle.std.specs.List.Sorted.{IsSearchInRange};
ghost use Rattle.std.specs.declared.cmp.Ordering.TheVariants.{Equal};
ghost use Rattle.tuple_values.specs.Document.{ByteList, bytes_cmp, Datum, Doc, Rises, value_at, put, without, over, is_named, IsAt, IsGap, datum_depth, doc_depth};
ghost use Rattle.tuple_values.specs.Views.{datum_of, doc_of};

use crate::field_name::FieldName;
use crate::value::Field;
use crate::{FieldList, Memory, Text, TryCopy, Tuple, Value};
use std::alloc::Global;

// Up to so many fields are compared one by one, which is faster than a binary search among them.
const FEW: usize = 12;

impl Tuple {
    /// The tuple without fields.
    pub fn empty(alloc: Global) -> Tuple
        ensures { result ≡ [] }
    {
        Tuple {
            fields: Vec::new(alloc),
        }
    }

    /// Makes room for so many more fields, and for no others.
    pub fn make_room(&mut self, more: u64) -> Result<(), Memory>
        ensures { self.new ≡ self.old }
    {
        self.fields.reserve_exact(more as usize)?;
        Ok(())
    }

    /// The named field's value; none exactly where the field isn't there.
    pub fn get(&self, name: &str) -> Option<&Value>
        ensures { option_map (λ v. datum_of v.now) result ≡ value_at name.now self.now }
    {
        if self.fields.len() > FEW {
            searched(&self.fields, name)
        } else {
            scanned(&self.fields, name)
        }
    }

    /// The place of the named field, counted from 0 in the order of the names' bytes, and how many
    /// fields there are exactly where it isn't there.
    pub fn place(&self, name: &str) -> u64
        ensures value { option_map (λ f. f.1) (slice_get self.now result)
            ≡ value_at name.now self.now }
        ensures found { result < length self.now → IsAt name.now result self.now }
        ensures bound { result ≤ length self.now }
    {
        match place_of(&self.fields, name) {
            Ok(at) => at as u64,
            Err(_) => self.count(),
        }
    }

    /// The value of the field at a place, and none past the last.
    pub fn at_place(&self, place: u64) -> Option<&Value>
        ensures { option_map (λ v. datum_of v.now) result
            ≡ option_map (λ f. f.1) (slice_get self.now place) }
    {
        match self.fields.get(place as usize) {
            Some(field) => Some(&field.value),
            None => None,
        }
    }

    /// How many fields there are.
    pub fn count(&self) -> u64
        ensures count { result ≡ length self.now }
        ensures rises { Rises self.now }
    {
        self.fields.len() as u64
    }

    /// The name of the k-th field, counted from 0 in the order of the names' bytes.
    pub fn name(&self, k: u64) -> &Text
        requires { k < length self.now }
        ensures { (d : _) → result.now ≡ (slice_index_or self.now k d).0 }
    {
        self.fields[k as usize].name.as_text()
    }

    /// The value of the k-th field, counted as in `name`.
    pub fn value(&self, k: u64) -> &Value
        requires { k < length self.now }
        ensures value { (d : _) → datum_of result.now ≡ (slice_index_or self.now k d).1 }
        ensures smaller { datum_depth (datum_of result.now) < doc_depth self.now }
    {
        &self.fields[k as usize].value
    }

    /// Puts a value under a name, in place of the one that is there.
    pub fn put(&mut self, name: Text, value: Value) -> Result<(), Memory>
        ensures ok { OnOk result (self.new ≡ put name (datum_of value) self.old) }
        ensures err { OnErr result (self.new ≡ self.old) }
    {
        let name = FieldName::of(*self.fields.allocator(), name)?;
        self.put_field(name, value)
    }

    /// The same. Where the other tuple has a field of this name, the two share its name, and no
    /// memory is taken for it.
    pub fn put_like(
        &mut self,
        other: Option<&Tuple>,
        name: &str,
        value: Value,
    ) -> Result<(), Memory>
        ensures ok { OnOk result (self.new ≡ put name.now (datum_of value) self.old) }
        ensures err { OnErr result (self.new ≡ self.old) }
    {
        let alloc = *self.fields.allocator();
        let name = match other {
            Some(other) => other.name_like(alloc, name)?,
            None => new_name(alloc, name)?,
        };
        self.put_field(name, value)
    }

    // The name, shared with the field that has it.
    pub(crate) fn name_like(&self, alloc: Global, name: &str) -> Result<FieldName, Memory>
        ensures { IfOk result (λ made. made ≡ name.now) }
    {
        match place_of(&self.fields, name) {
            Ok(at) => {
                let shared = self.fields[at].name.copy(alloc)?;
                Ok(shared)
            }
            Err(_) => new_name(alloc, name),
        }
    }

    pub(crate) fn put_field(&mut self, name: FieldName, value: Value) -> Result<(), Memory>
        ensures ok { OnOk result (self.new ≡ put name (datum_of value) self.old) }
        ensures err { OnErr result (self.new ≡ self.old) }
    {
        match place_of(&self.fields, name.as_str()) {
            Ok(at) => {
                self.fields[at] = Field { name, value };
                Ok(())
            }
            Err(at) => Ok(self.fields.insert(at, Field { name, value })?),
        }
    }

    /// Takes the named field out; none exactly where it isn't there.
    pub fn remove(&mut self, name: &str) -> Option<Value>
        ensures value { option_map datum_of result ≡ value_at name.now self.old }
        ensures rest { self.new ≡ without name.now self.old }
    {
        match place_of(&self.fields, name) {
            Ok(at) => Some(self.fields.remove(at).value),
            Err(_) => None,
        }
    }

    /// A copy with the named fields alone.
    pub fn cut(&self, alloc: Global, names: &FieldList) -> Result<Tuple, Memory>
        ensures { IfOk result (λ t. t ≡ filter (λ f. is_named f.0 names.now) self.now) }
    {
        let mut fields = Vec::with_capacity(alloc, names.len().min(self.fields.len()))?;
        for field in &self.fields {
            if names.contains(field.name.as_str()) {
                fields.push(field.copy(alloc)?)?;
            }
        }
        Ok(Tuple { fields })
    }

    /// A copy of the fields of both; the right one's value where names meet.
    pub fn over(&self, alloc: Global, right: &Tuple) -> Result<Tuple, Memory>
        ensures { IfOk result (λ t. t ≡ over self.now right.now) }
    {
        let all = self.copy(alloc)?;
        all.laid_over(alloc, right)
    }

    /// The tuple itself, which is moved in, with copies of the right one's fields, whose values stay
    /// where names meet.
    pub fn laid_over(self, alloc: Global, right: &Tuple) -> Result<Tuple, Memory>
        ensures { IfOk result (λ t. t ≡ over self right.now) }
    {
        let mut all = self;
        for field in &right.fields {
            let name = field.name.copy(alloc)?;
            all.put_field(name, field.value.copy(alloc)?)?;
        }
        Ok(all)
    }
}

pub(crate) fn new_name(alloc: Global, name: &str) -> Result<FieldName, Memory>
    ensures { IfOk result (λ made. made ≡ name.now) }
{
    let text = Text::of(alloc, name)?;
    FieldName::of(alloc, text)
}

// The named field's value, by a look at each name. Names are the same only where their lengths are,
// which are compared first.
fn scanned<'a>(fields: &'a [Field], name: &str) -> Option<&'a Value>
    ensures { option_map (λ v. datum_of v.now) result ≡ value_at name.now (doc_of fields.now) }
{
    for field in fields {
        if field.name.as_str() == name {
            return Some(&field.value);
        }
    }
    None
}

// The named field's value, by a binary search.
fn searched<'a>(fields: &'a [Field], name: &str) -> Option<&'a Value>
    requires { Rises (doc_of fields.now) }
    ensures { option_map (λ v. datum_of v.now) result ≡ value_at name.now (doc_of fields.now) }
{
    match place_of(fields, name) {
        Ok(at) => Some(&fields[at].value),
        Err(_) => None,
    }
}

// Where the name is among fields in order, or where it would go.
pub(crate) fn place_of(fields: &[Field], name: &str) -> Result<usize, usize>
    requires { Rises (doc_of fields.now) }
    ensures bound { IsSearchInRange result (length fields.now) }
    ensures found { IfOk result (λ at. IsAt name.now at (doc_of fields.now)) }
    ensures absent { IfErr result (λ at. IsGap name.now at (doc_of fields.now)) }
{
    fields.binary_search_by(
        |field|
            ensures { result ≡ bytes_cmp field.now.name name.entry.now }
        { field.name.as_str().cmp(name) },
    )
}

/// A tuple is a finite map: what a look-up finds after `put`, `remove`, `cut` and `over`, and that two
/// tuples in order whose look-ups all agree are the same.
pub fn tuples_are_maps()
    ensures put_here { (name : ByteList) (value : Datum) (doc : Doc)
        → value_at name (put name value doc) ≡ Some value }
    ensures put_elsewhere { (other name : ByteList) (value : Datum) (doc : Doc)
        → bytes_cmp name other ≢ Equal → value_at other (put name value doc) ≡ value_at other doc }
    ensures without_here { (name : ByteList) (doc : Doc) → Rises doc
        → value_at name (without name doc) ≡ None }
    ensures without_elsewhere { (other name : ByteList) (doc : Doc)
        → bytes_cmp name other ≢ Equal
        → value_at other (without name doc) ≡ value_at other doc }
    ensures cut_here { (name : ByteList) (names : List ByteList) (doc : Doc)
        → is_named name names ≡ true
        → value_at name (filter (λ f. is_named f.0 names) doc) ≡ value_at name doc }
    ensures cut_elsewhere { (name : ByteList) (names : List ByteList) (doc : Doc)
        → is_named name names ≡ false
        → value_at name (filter (λ f. is_named f.0 names) doc) ≡ None }
    ensures over_either { (name : ByteList) (left right : Doc) → Rises right
        → value_at name (over left right) ≡ option_or (value_at name right) (value_at name left) }
    ensures same { (left right : Doc) → Rises left → Rises right
        → ((name : ByteList) → value_at name left ≡ value_at name right) → left ≡ right }
{}
