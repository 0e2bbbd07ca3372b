// The documents of a load.
ghost use Rattle.std.specs.Prelude.{◌≡◌, ◌<◌, ◌+◌, ◌&&◌, ◌++◌, ◌∷◌, [], IfOk, OnOk, map};
ghost use Rattle.tuple_values.specs.declared.write.Write.TheVariants as write;
ghost use Rattle.load_rules.specs.Documents.{again_of, indexed_documents, is_even, is_of};
ghost use Rattle.load_rules.specs.Documents.{load_document, mixed, numbers_of};
ghost use Rattle.std.specs.Fmt.{decimal};

use std::alloc::Global;
use tuple_values::{Memory, Text, Tuple, Value, Write, Writes};

// A number is mixed by a multiplication with an odd number,
const FACTOR: u64 = 2_654_435_761;

// below 2^32.
const MODULUS: u64 = 4_294_967_296;

/// What one of the four indexers of a load of `n` documents writes, in order: each document of its
/// own, and then those with even numbers again, in their next revision.
#[tactic(auto, using(crate::proofs::DocumentsLemmas::indexed_steps))]
pub fn load_documents(alloc: Global, n: u64, indexer: u16) -> Result<Writes, Memory>
    ensures { IfOk result (λ writes. writes ≡ map write.Put (indexed_documents n indexer)) }
{
    let names = load_document(alloc, 0, 0, None)?;
    let mut writes = Writes::new(alloc);
    write_own(alloc, &names, n, indexer, &mut writes)?;
    write_again(alloc, &names, n, indexer, &mut writes)?;
    Ok(writes)
}

// Adds each document of the indexer's own. Names are shared with the other document.
#[tactic(auto, using(crate::proofs::DocumentsLemmas::own_steps))]
fn write_own(
    alloc: Global,
    other: &Tuple,
    n: u64,
    indexer: u16,
    writes: &mut Writes,
) -> Result<(), Memory>
    ensures { OnOk result (writes.new
        ≡ writes.old ++ map write.Put (map (λ i. load_document i 0) (numbers_of n indexer))) }
{
    for i in 0..n {
        if is_of(indexer, i) {
            let document = load_document(alloc, i, 0, Some(other))?;
            writes.push(Write::Put(document))?;
        }
    }
    Ok(())
}

// Adds those with even numbers, in their next revision. Names are shared with the other document.
#[tactic(auto, using(crate::proofs::DocumentsLemmas::again_steps))]
fn write_again(
    alloc: Global,
    other: &Tuple,
    n: u64,
    indexer: u16,
    writes: &mut Writes,
) -> Result<(), Memory>
    ensures { OnOk result (writes.new
        ≡ writes.old ++ map write.Put (map (λ i. load_document i 1) (again_of n indexer))) }
{
    for i in 0..n {
        if is_again(indexer, i) {
            let document = load_document(alloc, i, 1, Some(other))?;
            writes.push(Write::Put(document))?;
        }
    }
    Ok(())
}

// Whether the document of this number is the indexer's own.
fn is_of(indexer: u16, i: u64) -> bool
    ensures { result ≡ is_of indexer i }
{
    i % 4 == indexer as u64
}

// Whether the indexer writes it twice.
fn is_again(indexer: u16, i: u64) -> bool
    ensures { result ≡ (is_of indexer i && is_even i) }
{
    is_of(indexer, i) && i % 2 == 0
}

// The document with this number, in this revision. Names are shared with the other document, where
// there is one.
#[tactic(auto, unfolding(crate::specs::Documents::load_document))]
fn load_document(
    alloc: Global,
    number: u64,
    revision: u32,
    other: Option<&Tuple>,
) -> Result<Tuple, Memory>
    ensures { IfOk result (λ document. document ≡ load_document number revision) }
{
    let mixed = mixed(number);
    let group = group_text(alloc, mixed / 1000 % 10)?;
    let id = id_text(alloc, number)?;
    let mut document = Tuple::empty(alloc);
    document.make_room(4)?;
    document.put_like(other, "a_i", Value::Long((mixed % 1000) as i64))?;
    document.put_like(other, "g_s", Value::Text(group))?;
    document.put_like(other, "id", Value::Text(id))?;
    document.put_like(other, "rev_i", Value::Long(revision as i64))?;
    Ok(document)
}

// The number of a document, mixed.
#[tactic(auto, using(crate::proofs::DocumentsLemmas::mixed_steps))]
fn mixed(number: u64) -> u64
    ensures { result ≡ mixed number }
{
    number % MODULUS * FACTOR % MODULUS
}

// The name of a group, of which there are ten.
#[tactic(auto, using(crate::proofs::DocumentsLemmas::text_steps))]
fn group_text(alloc: Global, group: u64) -> Result<Text, Memory>
    requires { group < 10 }
    ensures { IfOk result (λ text. text ≡ 103 ∷ (48 + group) ∷ []) }
{
    let text = format!(in alloc; "g{group}")?;
    Ok(Text::from_string(text))
}

// The number as a text.
fn id_text(alloc: Global, number: u64) -> Result<Text, Memory>
    ensures { IfOk result (λ text. text ≡ decimal number) }
{
    let text = format!(in alloc; "{number}")?;
    Text::from_string(text).shared()
}
