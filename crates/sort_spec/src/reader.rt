// The readers of whole texts.
ghost use Rattle.std.specs.Prelude.{◌≡◌, ◌+◌, ◌<◌, ◌^◌, ◌≤◌, length, List, IfOk, IfErr, OnOk};
ghost use Rattle.tuple_values.specs.Document.{ByteList};
ghost use Rattle.sort_spec.specs.Agreement.{Agree};
ghost use Rattle.sort_spec.specs.Fault.{IfPlaced, Answers};
ghost use Rattle.sort_spec.specs.Grammar.{IsReadable, IsPlace};
ghost use Rattle.sort_spec.specs.Texts.{IsSort, IsOn, IsNames};
ghost use Rattle.sort_spec.specs.Reading.{behind, listed, sort_of, on_of, names_of};
ghost use Rattle.sort_spec.specs.declared.term.SortTerm.{SortTerm};
ghost use Rattle.sort_spec.specs.declared.pair.OnPair.{OnPair};

use crate::item::Item;
use crate::names::once;
use crate::{OnPair, OnSpec, SortFault, SortSpec, SortTerm};
use std::alloc::Global;
use tuple_values::{FieldList, Sequence};

// Reads a piece that stands at a place of the text.
fn read_at<I: Item>(alloc: Global, piece: &str, at: usize) -> Result<I, SortFault>
    requires { at + length piece.now < 2 ^ 63 }
    ensures { Answers (behind at (I.reading piece.now)) result }
{
    match I::read(alloc, piece) {
        Ok(item) => Ok(item),
        Err(SortFault::BadSort { at: place }) => Err(SortFault::BadSort {
            at: at as u64 + place,
        }),
        Err(SortFault::OutOfMemory) => Err(SortFault::OutOfMemory),
    }
}

// Reads items between commas.
fn read_list<I: Item>(alloc: Global, text: &str) -> Result<Sequence<I>, SortFault>
    ensures { Answers (listed I.reading text.now) result }
{
    let mut items = Sequence::new(alloc);
    let mut at = 0;
    let mut rest = text;
    while let Some((piece, more)) = rest.split_once(',') {
        let item = read_at(alloc, piece, at)?;
        items.push(item)?;
        at += piece.len() + 1;
        rest = more;
    }
    let item = read_at(alloc, rest, at)?;
    items.push(item)?;
    Ok(items)
}

// The sort that a text says.
fn sort_in(alloc: Global, text: &str) -> Result<SortSpec, SortFault>
    ensures { Answers (sort_of text.now) result }
{
    let terms = read_list(alloc, text)?;
    Ok(SortSpec::from_terms(terms))
}

// The pairs that a text says.
fn pairs_in(alloc: Global, text: &str) -> Result<OnSpec, SortFault>
    ensures { Answers (on_of text.now) result }
{
    read_list(alloc, text)
}

// The names that a text says.
fn names_in(alloc: Global, text: &str) -> Result<FieldList, SortFault>
    ensures { Answers (names_of text.now) result }
{
    let written = read_list(alloc, text)?;
    Ok(once(alloc, written)?)
}

/// Reads a sort: terms between commas, each a field and `asc` or `desc` in any case of letters.
/// A place is the length of the longest front with which some sort begins, in bytes.
pub fn read_sort(alloc: Global, text: &str) -> Result<SortSpec, SortFault>
    // What is read is what the text says, and it says nothing else.
    ensures ok { IfOk result (λ sort. IsSort text.now sort) }
    ensures only { IfOk result (λ sort. (other : List SortTerm)
        → IsSort text.now other → other ≡ sort) }

    // `BadSort` comes only where the text is no sort, and the place is its own.
    ensures bad_sort { IfErr result (λ fault.
        IfPlaced fault (λ _. ¬ (IsReadable IsSort text.now))) }
    ensures place { IfErr result (λ fault. IfPlaced fault (IsPlace IsSort text.now)) }

    // All of this as a function of the text.
    ensures computed { Answers (sort_of text.now) result }
{
    sort_in(alloc, text)
}

/// Reads pairs between commas, each two names with `=` between them, or one name that is both.
/// A place is the length of the longest front with which some such text begins, in bytes.
pub fn read_on(alloc: Global, text: &str) -> Result<OnSpec, SortFault>
    ensures ok { IfOk result (λ pairs. IsOn text.now pairs) }
    ensures only { IfOk result (λ pairs. (other : List OnPair)
        → IsOn text.now other → other ≡ pairs) }
    ensures bad_sort { IfErr result (λ fault.
        IfPlaced fault (λ _. ¬ (IsReadable IsOn text.now))) }
    ensures place { IfErr result (λ fault. IfPlaced fault (IsPlace IsOn text.now)) }
    ensures computed { Answers (on_of text.now) result }
{
    pairs_in(alloc, text)
}

/// Reads names between commas. A name that is repeated counts at its first place alone.
/// A place is the length of the longest front with which some such text begins, in bytes.
pub fn read_names(alloc: Global, text: &str) -> Result<FieldList, SortFault>
    ensures ok { IfOk result (λ names. IsNames text.now names) }
    ensures only { IfOk result (λ names. (other : List ByteList)
        → IsNames text.now other → other ≡ names) }
    ensures bad_sort { IfErr result (λ fault.
        IfPlaced fault (λ _. ¬ (IsReadable IsNames text.now))) }
    ensures place { IfErr result (λ fault. IfPlaced fault (IsPlace IsNames text.now)) }
    ensures computed { Answers (names_of text.now) result }
{
    names_in(alloc, text)
}

/// The computed readings are what the texts say, and their places are those of the faults: for all
/// bytes the two definitions of each text agree. No memory comes into it.
pub fn readings_agree()
    ensures sorts { Agree IsSort sort_of }
    ensures pairs { Agree IsOn on_of }
    ensures names { Agree IsNames names_of }
{}
