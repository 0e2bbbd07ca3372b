// Tests of texts, of lists and of the names of collections, by values worked by hand from the rules.
use crate::making::names;
use std::alloc::Global;
use std::test::Fail;
use tuple_values::{Bytes, Memory, NameShards, Names, Numbers, Text, TryCopy};

fn copies_two_names(alloc: Global) -> Result<bool, Memory> {
    let list = names(alloc, "a b")?.copy(alloc)?;
    Ok(list.contains("b") && !list.contains("c") && list.len() == 2 && list.get(2).is_none())
}

fn copies_a_number(alloc: Global) -> Result<bool, Memory> {
    let mut numbers = Numbers::new(alloc);
    numbers.push(7)?;
    let copied = numbers.copy(alloc)?.into_vec();
    Ok(copied.as_slice() == [7].as_slice())
}

fn keeps_bytes(alloc: Global) -> Result<bool, Memory> {
    let mut bytes = Bytes::new(alloc);
    bytes.extend(&[3, 4])?;
    Ok(bytes.as_slice() == [3u8, 4].as_slice())
}

#[test]
fn lists_keep_what_is_added_and_copy_it(rt: HostRuntime) {
    assert!(rt;
        copies_two_names(rt.alloc()) == Ok(true)
            && copies_a_number(rt.alloc()) == Ok(true)
            && keeps_bytes(rt.alloc()) == Ok(true)
    );
}

fn push_collection(
    alloc: Global,
    names: &mut Names,
    name: &str,
    shards: u16,
) -> Result<(), Memory> {
    let name = Text::of(alloc, name)?;
    names.push(NameShards { name, shards })
}

fn push_collections(alloc: Global, names: &mut Names) -> Result<(), Memory> {
    push_collection(alloc, names, "a", 1)?;
    push_collection(alloc, names, "ab", 2)
}

// The shards of the collection; none where it isn't found.
fn found(names: &Names, name: &str) -> u16 {
    match names.find(name.as_bytes()) {
        Some(entry) => entry.shards,
        None => 0,
    }
}

fn are_found(names: &Names) -> bool {
    found(names, "ab") == 2 && found(names, "abc") == 0 && found(names, "") == 0
}

#[test]
fn a_collection_is_found_by_its_name(rt: HostRuntime) -> Result<(), Fail> {
    let mut names = Names::new(rt.alloc());
    push_collections(rt.alloc(), &mut names)?;
    assert!(rt; are_found(&names));
    Ok(())
}

fn is_read(alloc: Global, given: &Text, text: &str) -> bool {
    match given.copy(alloc) {
        Ok(copy) => copy.as_str() == text,
        Err(_) => false,
    }
}

fn is_read_where_shared(alloc: Global, text: &str) -> Result<bool, Memory> {
    let given = Text::from_string(String::from_str(alloc, text)?);
    let is_read_before = is_read(alloc, &given, text);
    let shared = given.shared()?;
    Ok(is_read_before && is_read(alloc, &shared, text))
}

fn is_read_where_copied(alloc: Global, text: &str) -> bool {
    match Text::of(alloc, text) {
        Ok(given) => is_read(alloc, &given, text),
        Err(_) => false,
    }
}

fn reads(alloc: Global, text: &str) -> bool {
    matches!(is_read_where_shared(alloc, text), Ok(true)) && is_read_where_copied(alloc, text)
}

// A text of up to 16 bytes lies in the value, a longer one in a block, which copies may share.
#[test]
fn texts_are_read_as_they_were_given(rt: HostRuntime) {
    assert!(rt;
        reads(rt.alloc(), "")
            && reads(rt.alloc(), "sixteen bytes...")
            && reads(rt.alloc(), "seventeen bytes..")
    );
}
