// The items of a list, which stand between commas.
ghost use Rattle.std.specs.Prelude.{◌≡◌, ◌+◌, ◌≤◌, ◌<◌, length, drop, IfErr, slice_index};
ghost use Rattle.sort_spec.specs.Fault.{IfPlaced, Answers};
ghost use Rattle.sort_spec.specs.Grammar.{is_side_byte};
ghost use Rattle.sort_spec.specs.Reading.{behind, past_some, closed, letters};
ghost use Rattle.sort_spec.specs.Reading.{name_of, term_of, pair_of};
ghost use Rattle.sort_spec.specs.Texts.{direction_word};

use crate::scan::{Kind, begins_with_d, begins_with_equals, end_of, letters_at};
use crate::{OnPair, SortFault, SortTerm};
use std::alloc::Global;
use tuple_values::{Text, TryCopy};

/// What is read of a piece between two commas.
pub trait Item: Drop {
    ghost use Rattle.tuple_values.specs.Document.{ByteList};
    ghost use Rattle.sort_spec.specs.Reading.{Reading};

    // What a piece says, or the place where it sticks.
    ghost reading: { ByteList → Reading Self };

    /// Reads a piece. A place counts from its first byte.
    fn read(alloc: Global, piece: &str) -> Result<Self, SortFault>
        ensures computed { Answers (reading piece.now) result }
        ensures within { IfErr result (λ fault. IfPlaced fault (λ at. at ≤ length piece.now)) };
}

// Nothing but blanks stands from a place on.
fn close(piece: &str, from: usize) -> Result<(), SortFault>
    requires { from ≤ length piece.now }
    ensures computed { Answers (behind from (closed tt (drop from piece.now))) result }
    ensures within { IfErr result (λ fault. IfPlaced fault (λ at. at ≤ length piece.now)) }
{
    let end = end_of(piece, from, Kind::Blank);
    if end < piece.len() {
        return Err(SortFault::BadSort { at: end as u64 });
    }
    Ok(())
}

// A name with blanks round it.
fn read_name(alloc: Global, piece: &str) -> Result<Text, SortFault>
    ensures computed { Answers (name_of piece.now) result }
    ensures within { IfErr result (λ fault. IfPlaced fault (λ at. at ≤ length piece.now)) }
{
    let start = end_of(piece, 0, Kind::Blank);
    let end = end_of(piece, start, Kind::Field);
    if end == start {
        return Err(SortFault::BadSort { at: end as u64 });
    }
    close(piece, end)?;
    Ok(Text::of(alloc, &piece[start..end])?)
}

// A field and a direction, with blanks round them.
fn read_term(alloc: Global, piece: &str) -> Result<SortTerm, SortFault>
    ensures computed { Answers (term_of piece.now) result }
    ensures within { IfErr result (λ fault. IfPlaced fault (λ at. at ≤ length piece.now)) }
{
    let start = end_of(piece, 0, Kind::Blank);
    let end = end_of(piece, start, Kind::Field);
    if end == start {
        return Err(SortFault::BadSort { at: end as u64 });
    }
    let from = end_of(piece, end, Kind::Blank);
    if from == end {
        return Err(SortFault::BadSort { at: from as u64 });
    }
    let descending = begins_with_d(piece, from);
    direction_end(piece, from, descending)?;
    let field = Text::of(alloc, &piece[start..end])?;
    Ok(SortTerm { field, descending })
}

// The word of a direction stands at a place, and behind it nothing but blanks.
fn direction_end(piece: &str, from: usize, descending: bool) -> Result<(), SortFault>
    requires { from ≤ length piece.now }
    ensures computed { Answers (behind from
        (letters (direction_word descending) (closed tt) (drop from piece.now))) result }
    ensures within { IfErr result (λ fault. IfPlaced fault (λ at. at ≤ length piece.now)) }
{
    let word = direction_word(descending);
    let count = letters_at(piece, from, word);
    if count < word.len() {
        return Err(SortFault::BadSort {
            at: (from + count) as u64,
        });
    }
    close(piece, from + count)
}

// The word of a direction, in small letters.
fn direction_word(descending: bool) -> &'static [u8]
    ensures { result.now ≡ direction_word descending }
{
    if descending { b"desc" } else { b"asc" }
}

// A name that is both, or two names with an equals sign between them, with blanks round them.
fn read_pair(alloc: Global, piece: &str) -> Result<OnPair, SortFault>
    ensures computed { Answers (pair_of piece.now) result }
    ensures within { IfErr result (λ fault. IfPlaced fault (λ at. at ≤ length piece.now)) }
{
    let start = end_of(piece, 0, Kind::Blank);
    let end = end_of(piece, start, Kind::Side);
    if end == start {
        return Err(SortFault::BadSort { at: end as u64 });
    }
    let left = Text::of(alloc, &piece[start..end])?;
    if begins_with_equals(piece, end) {
        let right = read_right(alloc, piece, end)?;
        return Ok(OnPair { left, right });
    }
    close(piece, end)?;
    let right = left.copy(alloc)?;
    Ok(OnPair { left, right })
}

// The name behind an equals sign, and behind it nothing but blanks.
fn read_right(alloc: Global, piece: &str, sign: usize) -> Result<Text, SortFault>
    requires within { sign < length piece.now }
    requires sign { slice_index piece.now sign ≡ 61 }
    ensures computed { Answers (behind (sign + 1)
        (past_some is_side_byte closed (drop (sign + 1) piece.now))) result }
    ensures within { IfErr result (λ fault. IfPlaced fault (λ at. at ≤ length piece.now)) }
{
    let start = sign + 1;
    let end = end_of(piece, start, Kind::Side);
    if end == start {
        return Err(SortFault::BadSort { at: end as u64 });
    }
    close(piece, end)?;
    Ok(Text::of(alloc, &piece[start..end])?)
}

impl Item for Text {
    ghost use Rattle.sort_spec.specs.Reading.{name_of};

    ghost reading = { name_of };

    fn read(alloc: Global, piece: &str) -> Result<Self, SortFault> {
        read_name(alloc, piece)
    }
}

impl Item for SortTerm {
    ghost use Rattle.sort_spec.specs.Reading.{term_of};

    ghost reading = { term_of };

    fn read(alloc: Global, piece: &str) -> Result<Self, SortFault> {
        read_term(alloc, piece)
    }
}

impl Item for OnPair {
    ghost use Rattle.sort_spec.specs.Reading.{pair_of};

    ghost reading = { pair_of };

    fn read(alloc: Global, piece: &str) -> Result<Self, SortFault> {
        read_pair(alloc, piece)
    }
}
