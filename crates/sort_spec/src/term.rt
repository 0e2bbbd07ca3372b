// The terms of a sort.
ghost use Rattle.std.specs.Prelude.{◌≡◌, ◌++◌, ◌∷◌, [], ◌↔◌, IsTrue, IfOk, OnOk, OnErr, length};
ghost use Rattle.std.specs.Prelude.{map, option_copied, slice_get};
ghost use Rattle.sort_spec.specs.Terms.{IsPrefix};

use std::alloc::Global;
use std::marker::Model;
use tuple_values::{FieldList, Memory, Sequence, Text, TryCopy};

/// A field by which tuples are sorted, and whether the greatest comes first.
#[derive(Drop)]
pub struct SortTerm {
    pub field: Text,
    pub descending: bool,
}

impl TryCopy for SortTerm {
    fn copy(&self, alloc: Global) -> Result<Self, Memory> {
        let field = self.field.copy(alloc)?;
        Ok(SortTerm {
            field,
            descending: self.descending,
        })
    }
}

/// A sort: terms, of which the first that tells two tuples apart decides. A contract sees the list
/// of the terms. The sort of no term, which no text says, tells no tuples apart.
pub struct SortSpec {
    terms: Sequence<SortTerm>,
}

impl Drop for SortSpec {
    fn drop(self) {
        let SortSpec { terms } = self;
        drop(terms);
    }
}

impl Model for SortSpec {
    ghost use Rattle.std.specs.Prelude.{List};
    ghost use Rattle.sort_spec.specs.declared.term.SortTerm.{SortTerm};

    ghost Value = { List SortTerm };

    ghost view = { λ s. s.terms };
}

impl SortSpec {
    /// The sort of no term.
    pub fn new(alloc: Global) -> SortSpec
        ensures { result ≡ [] }
    {
        SortSpec {
            terms: Sequence::new(alloc),
        }
    }

    // The sort of these terms, which are moved in.
    pub(crate) fn from_terms(terms: Sequence<SortTerm>) -> SortSpec
        ensures { result ≡ terms }
    {
        SortSpec { terms }
    }

    /// Adds a term at the end. After an `Err` the term is dropped.
    pub fn push(&mut self, term: SortTerm) -> Result<(), Memory>
        ensures ok { OnOk result (self.new ≡ self.old ++ term ∷ []) }
        ensures err { OnErr result (self.new ≡ self.old) }
    {
        self.terms.push(term)
    }

    /// How many terms there are.
    pub fn len(&self) -> usize
        ensures { result ≡ length self.now }
    {
        self.terms.len()
    }

    /// The term at a place, counted from 0; none past the last.
    pub fn get(&self, place: usize) -> Option<&SortTerm>
        ensures { option_copied result ≡ slice_get self.now place }
    {
        self.terms.get(place)
    }

    /// The terms as a slice.
    pub fn as_slice(&self) -> &[SortTerm]
        ensures { result.now ≡ self.now }
    {
        self.terms.as_slice()
    }

    /// Whether the terms are the first of the other's, each with its field and direction. Takes no
    /// memory.
    pub fn is_prefix_of(&self, other: &SortSpec) -> bool
        ensures { IsTrue result ↔ IsPrefix self.now other.now }
    {
        let (terms, others) = (self.as_slice(), other.as_slice());
        if others.len() < terms.len() {
            return false;
        }
        for k in 0..terms.len() {
            if !is_same(&terms[k], &others[k]) {
                return false;
            }
        }
        true
    }

    /// The fields in the order of the terms; a field that is repeated is there as often.
    pub fn fields(&self, alloc: Global) -> Result<FieldList, Memory>
        ensures { IfOk result (λ names. names ≡ map (λ term. term.field) self.now) }
    {
        let mut names = FieldList::new(alloc);
        for term in self.as_slice() {
            names.push(term.field.copy(alloc)?)?;
        }
        Ok(names)
    }
}

// Whether two terms have one field and one direction.
fn is_same(a: &SortTerm, b: &SortTerm) -> bool
    ensures { IsTrue result ↔ (a.now ≡ b.now) }
{
    a.field.as_str() == b.field.as_str() && a.descending == b.descending
}

impl TryCopy for SortSpec {
    fn copy(&self, alloc: Global) -> Result<Self, Memory> {
        let terms = self.terms.copy(alloc)?;
        Ok(SortSpec { terms })
    }
}
