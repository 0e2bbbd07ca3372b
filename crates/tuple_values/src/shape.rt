// Tuples of the same names, put together in the same order.
ghost use Rattle.std.specs.Prelude.{◌≡◌, ℕ, ◌+◌, ◌<◌, ◌≤◌, IsTrue, IfOk, IfSome, OnOk, OnErr};
ghost use Rattle.std.specs.Prelude.{length, slice_index_or};
ghost use Rattle.std.specs.declared.cmp.Ordering.TheVariants.{Less};
ghost use Rattle.tuple_values.specs.Document.{bytes_cmp, put, Rises, IsGap};
ghost use Rattle.tuple_values.specs.Views.{datum_of, doc_of};

use crate::field_name::FieldName;
use crate::tuple::{new_name, place_of};
use crate::value::Field;
use crate::{Memory, TryCopy, Tuple, Value};
use std::alloc::Global;
use std::cmp::Ordering;

// A name, and the place where its field went.
#[derive(Drop)]
struct Step {
    name: FieldName,
    place: usize,
}

/// The names of a tuple in the order in which they were put, each with the place where it went. It
/// is kept from tuple to tuple: one that is put together alike shares the names, without a search.
/// What a shape holds changes no tuple.
pub struct Shape {
    steps: Vec<Step>,
    next: usize,
}

// By hand, so that a crate above lets go of one by a call.
impl Drop for Shape {
    fn drop(self) {
        let Shape { steps, next: _ } = self;
        drop(steps);
    }
}

impl Shape {
    /// The shape of no name.
    pub fn new(alloc: Global) -> Shape {
        Shape {
            steps: Vec::new(alloc),
            next: 0,
        }
    }

    /// Begins another tuple, and says how many names the last one had.
    pub fn begin(&mut self) -> u64 {
        let count = self.next;
        self.next = 0;
        count as u64
    }

    // The next step, where it has the name, shared with the shape. The one after it is then next.
    fn take(&mut self, alloc: Global, name: &str) -> Result<Option<Step>, Memory>
        ensures { IfOk result (λ step. IfSome step (λ step. step.name ≡ name.now)) }
    {
        let Some(step) = self.steps.get(self.next) else {
            return Ok(None);
        };
        if step.name.as_str() != name {
            return Ok(None);
        }
        let name = step.name.copy(alloc)?;
        let place = step.place;
        self.next = self.next.saturating_add(1);
        Ok(Some(Step { name, place }))
    }

    // Notes the next step.
    fn note(&mut self, step: Step) -> Result<(), Memory> {
        if self.next < self.steps.len() {
            self.steps[self.next] = step;
        } else {
            self.steps.push(step)?;
        }
        self.next = self.next.saturating_add(1);
        Ok(())
    }
}

impl Tuple {
    /// Puts a value as `put_like` does, after a look at what the shape has next: where that is the
    /// name, the field shares it and goes to its place.
    pub fn put_next(
        &mut self,
        shape: &mut Shape,
        other: Option<&Tuple>,
        name: &str,
        value: Value,
    ) -> Result<(), Memory>
        ensures ok { OnOk result (self.new ≡ put name.now (datum_of value) self.old) }
        ensures err { OnErr result (self.new ≡ self.old) }
    {
        let alloc = *self.fields.allocator();
        match shape.take(alloc, name)? {
            Some(step) => self.put_near(step.place, step.name, value),
            None => self.put_noted(shape, other, name, value),
        }
    }

    // Puts a value, and notes its name and place.
    fn put_noted(
        &mut self,
        shape: &mut Shape,
        other: Option<&Tuple>,
        name: &str,
        value: Value,
    ) -> Result<(), Memory>
        ensures ok { OnOk result (self.new ≡ put name.now (datum_of value) self.old) }
        ensures err { OnErr result (self.new ≡ self.old) }
    {
        let alloc = *self.fields.allocator();
        let shared = match other {
            Some(other) => other.name_like(alloc, name)?,
            None => new_name(alloc, name)?,
        };
        let place = match place_of(&self.fields, name) {
            Ok(place) => place,
            Err(place) => place,
        };
        let name = shared.copy(alloc)?;
        shape.note(Step { name, place })?;
        self.put_near(place, shared, value)
    }

    // Puts a value at a place, where that is the name's, and else by a search.
    fn put_near(&mut self, place: usize, name: FieldName, value: Value) -> Result<(), Memory>
        ensures ok { OnOk result (self.new ≡ put name (datum_of value) self.old) }
        ensures err { OnErr result (self.new ≡ self.old) }
    {
        if is_gap(&self.fields, place, name.as_str()) {
            return Ok(self.fields.insert(place, Field { name, value })?);
        }
        self.put_field(name, value)
    }
}

// Whether the name would go to the place among fields in order, by a look at both sides of it.
fn is_gap(fields: &[Field], place: usize, name: &str) -> bool
    requires { Rises (doc_of fields.now) }
    ensures within { IsTrue result → place ≤ length fields.now }
    ensures gap { IsTrue result → IsGap name.now place (doc_of fields.now) }
{
    if place > fields.len() {
        return false;
    }
    is_above(fields, place, name) && is_below(fields, place, name)
}

// Whether the name is above that of the field before the place, if there is one.
fn is_above(fields: &[Field], place: usize, name: &str) -> bool
    requires { place ≤ length fields.now }
    ensures { IsTrue result → (before : ℕ) (d : _) → place ≡ before + 1
        → bytes_cmp (slice_index_or fields.now before d).name name.now ≡ Less }
{
    place == 0 || is_less(fields[place - 1].name.as_str(), name)
}

// Whether the name is below that of the field at the place, if there is one.
fn is_below(fields: &[Field], place: usize, name: &str) -> bool
    requires { place ≤ length fields.now }
    ensures { IsTrue result → (d : _) → place < length fields.now
        → bytes_cmp name.now (slice_index_or fields.now place d).name ≡ Less }
{
    place == fields.len() || is_less(name, fields[place].name.as_str())
}

fn is_less(left: &str, right: &str) -> bool
    ensures { IsTrue result → bytes_cmp left.now right.now ≡ Less }
{
    matches!(left.cmp(right), Ordering::Less)
}
