// What topics are bound to.
ghost use Rattle.std.specs.Prelude.{◌≡◌, ◌++◌, IfNone, IfOk, IfSome, OnOk, option_copied};
ghost use Rattle.log_codec.specs.Codes.{HasNone, IsAtFront};
ghost use Rattle.log_codec.specs.BookEntries.{spelled_binding, spelled_destination, spelled_ends, spelled_tail, spelled_texts, AreEnds, AreTexts, IsSpellableBinding, IsSpellableDestination, IsTail};

use crate::lists::{read_names, read_versions, write_names, write_versions};
use crate::texts::{read_byte, read_text, write_text};
use std::alloc::Global;
use topic_book::Binding;
use tuple_values::{FieldList, Memory, Text, Versions};

fn write_destination(out: &mut Vec<u8>, dest: &Option<Text>) -> Result<(), Memory>
    ensures ok { OnOk result (out.new.items ≡ out.old.items ++ spelled_destination dest.now) }
    ensures fits { OnOk result (IsSpellableDestination dest.now) }
{
    match dest {
        None => Ok(out.push(0)?),
        Some(name) => {
            out.push(1)?;
            write_text(out, name)
        }
    }
}

fn write_ends(out: &mut Vec<u8>, dest: &Option<Text>, init: &Versions) -> Result<(), Memory>
    ensures ok { OnOk result (out.new.items
        ≡ out.old.items ++ spelled_ends (dest.now, init.now)) }
    ensures fits { OnOk result (AreEnds (dest.now, init.now)) }
{
    write_destination(out, dest)?;
    write_versions(out, init)?;
    Ok(())
}

fn write_texts(out: &mut Vec<u8>, first: &Text, second: &Text) -> Result<(), Memory>
    ensures ok { OnOk result (out.new.items
        ≡ out.old.items ++ spelled_texts (first.now, second.now)) }
    ensures fits { OnOk result (AreTexts (first.now, second.now)) }
{
    write_text(out, first)?;
    write_text(out, second)?;
    Ok(())
}

pub(crate) fn write_binding(out: &mut Vec<u8>, binding: &Binding) -> Result<(), Memory>
    ensures ok { OnOk result (out.new.items ≡ out.old.items ++ spelled_binding binding.now) }
    ensures fits { OnOk result (IsSpellableBinding binding.now) }
{
    write_texts(out, &binding.src, &binding.q)?;
    write_names(out, &binding.fields)?;
    write_ends(out, &binding.dest, &binding.init)?;
    Ok(())
}

// The two texts at the front, and what follows them.
pub(crate) fn read_texts(bytes: &[u8]) -> Option<((&str, &str), &[u8])>
    ensures some { IfSome result (λ read. IsAtFront
        AreTexts spelled_texts bytes.now (read.0.0.now, read.0.1.now) read.1.now) }
    ensures none { IfNone result (HasNone AreTexts spelled_texts bytes.now) }
{
    match read_text(bytes) {
        Some((first, tail)) => match read_text(tail) {
            Some((second, rest)) => Some(((first, second), rest)),
            None => None,
        },
        None => None,
    }
}

// The destination at the front, if any is named, and what follows it.
fn read_destination(bytes: &[u8]) -> Option<(Option<&str>, &[u8])>
    ensures some { IfSome result (λ read. IsAtFront IsSpellableDestination
        spelled_destination bytes.now (option_copied read.0) read.1.now) }
    ensures none { IfNone result
        (HasNone IsSpellableDestination spelled_destination bytes.now) }
{
    let Some((first, tail)) = read_byte(bytes) else {
        return None;
    };
    match first {
        0 => Some((None, tail)),
        1 => match read_text(tail) {
            Some((name, rest)) => Some((Some(name), rest)),
            None => None,
        },
        _ => None,
    }
}

// The destination and the versions at the front, and what follows them.
fn read_ends(
    alloc: Global,
    bytes: &[u8],
) -> Result<Option<((Option<&str>, Versions), &[u8])>, Memory>
    ensures some { IfOk result (λ found. IfSome found (λ read. IsAtFront
        AreEnds spelled_ends bytes.now (option_copied read.0.0, read.0.1) read.1.now)) }
    ensures none { IfOk result (λ found. IfNone found
        (HasNone AreEnds spelled_ends bytes.now)) }
{
    match read_destination(bytes) {
        Some((dest, tail)) => match read_versions(alloc, tail)? {
            Some((init, rest)) => Ok(Some(((dest, init), rest))),
            None => Ok(None),
        },
        None => Ok(None),
    }
}

// A binding of these parts.
fn binding_of(
    alloc: Global,
    texts: (&str, &str),
    fields: FieldList,
    dest: Option<&str>,
    init: Versions,
) -> Result<Binding, Memory>
    ensures { IfOk result (λ binding. binding ≡ record {
      src = texts.entry.0.now;
      q = texts.entry.1.now;
      fields = fields;
      dest = option_copied dest.entry;
      init = init;
    }) }
{
    let src = Text::of(alloc, texts.0)?;
    let q = Text::of(alloc, texts.1)?;
    let dest = match dest {
        Some(name) => Some(Text::of(alloc, name)?),
        None => None,
    };
    Ok(Binding {
        src,
        q,
        fields,
        dest,
        init,
    })
}

// The binding of this source and query, of which the rest is at the front, and what follows it.
fn read_tail<'a>(
    alloc: Global,
    texts: (&str, &str),
    bytes: &'a [u8],
) -> Result<Option<(Binding, &'a [u8])>, Memory>
    ensures texts { IfOk result (λ found. IfSome found (λ read.
        (read.0.src ≡ texts.entry.0.now) × (read.0.q ≡ texts.entry.1.now))) }
    ensures some { IfOk result (λ found. IfSome found (λ read. IsAtFront IsTail spelled_tail
        bytes.now (read.0.fields, (read.0.dest, read.0.init)) read.1.now)) }
    ensures none { IfOk result (λ found. IfNone found
        (HasNone IsTail spelled_tail bytes.now)) }
{
    match read_names(alloc, bytes)? {
        Some((fields, ends)) => match read_ends(alloc, ends)? {
            Some(((dest, init), rest)) => {
                let binding = binding_of(alloc, texts, fields, dest, init)?;
                Ok(Some((binding, rest)))
            }
            None => Ok(None),
        },
        None => Ok(None),
    }
}

// The binding at the front, and what follows it.
pub(crate) fn read_binding(alloc: Global, bytes: &[u8]) -> Result<Option<(Binding, &[u8])>, Memory>
    ensures some { IfOk result (λ found. IfSome found (λ read. IsAtFront
        IsSpellableBinding spelled_binding bytes.now read.0 read.1.now)) }
    ensures none { IfOk result (λ found. IfNone found
        (HasNone IsSpellableBinding spelled_binding bytes.now)) }
{
    match read_texts(bytes) {
        Some((texts, tail)) => match read_tail(alloc, texts, tail)? {
            Some((binding, rest)) => Ok(Some((binding, rest))),
            None => Ok(None),
        },
        None => Ok(None),
    }
}
