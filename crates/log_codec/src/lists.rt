// Lists of numbers and of texts behind their number.
ghost use Rattle.std.specs.Prelude.{◌≡◌, ◌++◌, IfNone, IfOk, IfSome, OnOk};
ghost use Rattle.std.specs.List.{flat_map};
ghost use Rattle.log_codec.specs.Codes.{spelled_list, spelled_number, spelled_text, AreCounted, AreSoMany, HasNone, IsAtFront, IsNumber, IsText};

use crate::texts::{read_number, read_text, write_number, write_text};
use std::alloc::Global;
use tuple_values::{FieldList, Memory, Text, Versions};

pub(crate) fn write_versions(out: &mut Vec<u8>, versions: &Versions) -> Result<(), Memory>
    ensures ok { OnOk result (out.new.items
        ≡ out.old.items ++ spelled_list spelled_number versions.now) }
    ensures fits { OnOk result (AreCounted IsNumber versions.now) }
{
    write_number(out, versions.len() as u64)?;
    for version in versions.as_slice() {
        write_number(out, *version)?;
    }
    Ok(())
}

pub(crate) fn write_names(out: &mut Vec<u8>, names: &FieldList) -> Result<(), Memory>
    ensures ok { OnOk result (out.new.items
        ≡ out.old.items ++ spelled_list spelled_text names.now) }
    ensures fits { OnOk result (AreCounted IsText names.now) }
{
    write_number(out, names.len() as u64)?;
    for name in names.as_slice() {
        write_text(out, name)?;
    }
    Ok(())
}

// So many numbers at the front, and what follows them.
fn read_numbers(
    alloc: Global,
    count: u64,
    bytes: &[u8],
) -> Result<Option<(Vec<u64>, &[u8])>, Memory>
    ensures some { IfOk result (λ found. IfSome found (λ read. IsAtFront
        (AreSoMany IsNumber count) (flat_map spelled_number) bytes.now read.0.items read.1.now)) }
    ensures none { IfOk result (λ found. IfNone found
        (HasNone (AreSoMany IsNumber count) (flat_map spelled_number) bytes.now)) }
{
    let mut numbers = Vec::new(alloc);
    let mut rest = bytes;
    for _ in 0..count {
        match read_number(rest) {
            Some((number, after)) => {
                numbers.push(number)?;
                rest = after;
            }
            None => return Ok(None),
        }
    }
    Ok(Some((numbers, rest)))
}

// So many texts at the front, and what follows them.
fn read_texts(alloc: Global, count: u64, bytes: &[u8]) -> Result<Option<(FieldList, &[u8])>, Memory>
    ensures some { IfOk result (λ found. IfSome found (λ read. IsAtFront
        (AreSoMany IsText count) (flat_map spelled_text) bytes.now read.0 read.1.now)) }
    ensures none { IfOk result (λ found. IfNone found
        (HasNone (AreSoMany IsText count) (flat_map spelled_text) bytes.now)) }
{
    let mut texts = FieldList::new(alloc);
    let mut rest = bytes;
    for _ in 0..count {
        match read_text(rest) {
            Some((text, after)) => {
                texts.push(Text::of(alloc, text)?)?;
                rest = after;
            }
            None => return Ok(None),
        }
    }
    Ok(Some((texts, rest)))
}

// The versions at the front behind their number, and what follows them.
pub(crate) fn read_versions(
    alloc: Global,
    bytes: &[u8],
) -> Result<Option<(Versions, &[u8])>, Memory>
    ensures some { IfOk result (λ found. IfSome found (λ read. IsAtFront
        (AreCounted IsNumber) (spelled_list spelled_number) bytes.now read.0 read.1.now)) }
    ensures none { IfOk result (λ found. IfNone found
        (HasNone (AreCounted IsNumber) (spelled_list spelled_number) bytes.now)) }
{
    match read_number(bytes) {
        Some((count, tail)) => match read_numbers(alloc, count, tail)? {
            Some((numbers, rest)) => Ok(Some((Versions::from_vec(numbers), rest))),
            None => Ok(None),
        },
        None => Ok(None),
    }
}

// The names at the front behind their number, and what follows them.
pub(crate) fn read_names(alloc: Global, bytes: &[u8]) -> Result<Option<(FieldList, &[u8])>, Memory>
    ensures some { IfOk result (λ found. IfSome found (λ read. IsAtFront
        (AreCounted IsText) (spelled_list spelled_text) bytes.now read.0 read.1.now)) }
    ensures none { IfOk result (λ found. IfNone found
        (HasNone (AreCounted IsText) (spelled_list spelled_text) bytes.now)) }
{
    match read_number(bytes) {
        Some((count, tail)) => match read_texts(alloc, count, tail)? {
            Some((texts, rest)) => Ok(Some((texts, rest))),
            None => Ok(None),
        },
        None => Ok(None),
    }
}
