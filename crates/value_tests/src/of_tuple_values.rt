// Tests of tuple_values, by values that FNV publishes and values worked by hand from the rules.
use crate::making::{long_tuple, names, put_long, put_text};
use std::alloc::Global;
use std::cmp::Ordering;
use std::test::Fail;
use tuple_values::{
    Bytes, FieldList, Memory, NameShards, Names, Numbers, Text, TryCopy, Tuple, Tuples, Value,
    Write, Writes, coerce, compare, fnv1a, key_text, shard_of, whole,
};

// A value as a row of a table writes it.
#[derive(Clone, Copy)]
enum Plain {
    Absent,
    Long(i64),
    Text(&'static str),
    Group(i64),
}

// One tuple with the number under `a`.
fn group_of(alloc: Global, n: i64) -> Result<Tuples, Memory> {
    let mut group = Tuples::empty(alloc);
    group.push(long_tuple(alloc, "a", n)?)?;
    Ok(group)
}

fn value_of(alloc: Global, plain: Plain) -> Result<Value, Memory> {
    match plain {
        Plain::Absent => Ok(Value::Group(Tuples::empty(alloc))),
        Plain::Long(n) => Ok(Value::Long(n)),
        Plain::Text(text) => Ok(Value::Text(Text::of(alloc, text)?)),
        Plain::Group(n) => Ok(Value::Group(group_of(alloc, n)?)),
    }
}

fn is(value: Option<&Value>, want: Plain) -> bool {
    match (value, want) {
        (None, Plain::Absent) => true,
        (Some(Value::Long(n)), Plain::Long(want)) => *n == want,
        (Some(Value::Text(text)), Plain::Text(want)) => text.as_str() == want,
        _ => false,
    }
}

fn put_fields(alloc: Global, tuple: &mut Tuple) -> Result<(), Memory> {
    put_long(alloc, tuple, "z", 0)?;
    put_text(alloc, tuple, "b_s", "w")?;
    put_long(alloc, tuple, "n_i", -1)?;
    put_text(alloc, tuple, "b_s", "x")
}

// `{"b_s":"x","n_i":-1,"z":0}`, put in another order
fn sample(alloc: Global) -> Result<Tuple, Memory> {
    let mut tuple = Tuple::empty(alloc);
    put_fields(alloc, &mut tuple)?;
    Ok(tuple)
}

const HASHES: [(&str, u32); 6] = [
    ("", 0x811c9dc5),
    ("a", 0xe40c292c),
    ("foobar", 0xbf9cf968),
    ("1", 0x340ca71c),
    ("2", 0x370cabd5),
    ("3", 0x360caa42),
];

#[test]
fn hashes_are_those_that_fnv_publishes(rt: HostRuntime) {
    for (text, want) in &HASHES {
        assert!(rt; fnv1a(text.as_bytes()) == *want, "of {text}");
    }
}

const SHARDS: [(&str, u16, u16); 5] = [
    ("2", 2, 1),
    ("3", 2, 0),
    ("1", 1, 0),
    ("a", 8, 4),
    ("a", 7, 5),
];

#[test]
fn an_id_has_the_shard_of_its_hash(rt: HostRuntime) {
    for (id, shards, want) in &SHARDS {
        assert!(rt;
            *shards > 0 && shard_of(id, *shards) == *want,
            "{id} of {shards}"
        );
    }
}

const WHOLES: [(&str, Option<i64>); 14] = [
    ("5", Some(5)),
    ("-5", Some(-5)),
    ("007", Some(7)),
    ("-0", Some(0)),
    ("9223372036854775807", Some(i64::MAX)),
    ("-9223372036854775808", Some(i64::MIN)),
    ("9223372036854775808", None),
    ("-9223372036854775809", None),
    ("+5", None),
    ("", None),
    ("-", None),
    (" 5", None),
    ("5x", None),
    ("1.0", None),
];

#[test]
fn whole_texts_are_signed_decimals_of_64_bits(rt: HostRuntime) {
    for (text, want) in &WHOLES {
        assert!(rt; whole(text) == *want, "of {text}");
    }
}

// Values in their order: numbers, texts by bytes, groups item by item.
const RISING: [Plain; 7] = [
    Plain::Long(2),
    Plain::Long(10),
    Plain::Text("10"),
    Plain::Text("2"),
    Plain::Absent,
    Plain::Group(2),
    Plain::Group(10),
];

fn push_rising(alloc: Global, values: &mut Vec<Value>) -> Result<(), Memory> {
    for plain in &RISING {
        values.push(value_of(alloc, *plain)?)?;
    }
    Ok(())
}

fn rises(left: Option<&Value>, right: Option<&Value>) -> bool {
    compare(left, left) == Ordering::Equal
        && compare(left, right) == Ordering::Less
        && compare(right, left) == Ordering::Greater
}

fn are_rising(values: &[Value]) -> bool {
    for pair in values.windows(2) {
        if !rises(pair.first(), pair.last()) {
            return false;
        }
    }
    values.len() == 7 && rises(None, values.first())
}

#[test]
fn absent_comes_before_numbers_texts_and_groups(rt: HostRuntime) -> Result<(), Fail> {
    let mut values = Vec::new(rt.alloc());
    push_rising(rt.alloc(), &mut values)?;
    assert!(rt; are_rising(&values));
    Ok(())
}

fn is_sample(tuple: &Tuple) -> bool {
    tuple.count() == 3
        && tuple.name(0).as_str() == "b_s"
        && is(Some(tuple.value(0)), Plain::Text("x"))
        && is(tuple.get("n_i"), Plain::Long(-1))
        && is(tuple.get("n"), Plain::Absent)
}

fn removes(tuple: &mut Tuple, name: &str, want: Plain) -> bool {
    is(tuple.remove(name).as_ref(), want)
}

fn is_map(tuple: &mut Tuple) -> bool {
    is_sample(tuple)
        && removes(tuple, "z", Plain::Long(0))
        && removes(tuple, "z", Plain::Absent)
        && tuple.count() == 2
}

#[test]
fn a_tuple_is_a_map_in_order_of_names(rt: HostRuntime) -> Result<(), Fail> {
    let mut tuple = sample(rt.alloc())?;
    assert!(rt; is_map(&mut tuple));
    Ok(())
}

fn is_copied(alloc: Global, tuple: &Tuple) -> bool {
    match tuple.copy(alloc) {
        Ok(copy) => copy.is_same(tuple),
        Err(_) => false,
    }
}

fn is_cut(alloc: Global, tuple: &Tuple) -> Result<bool, Memory> {
    let cut = tuple.cut(alloc, &names(alloc, "z q b_s")?)?;
    Ok(cut.count() == 2 && !cut.is_same(tuple) && is(cut.get("z"), Plain::Long(0)))
}

#[test]
fn a_copy_or_a_cut_has_the_same_fields(rt: HostRuntime) -> Result<(), Fail> {
    let tuple = sample(rt.alloc())?;
    assert!(rt; is_copied(rt.alloc(), &tuple) && is_cut(rt.alloc(), &tuple) == Ok(true));
    Ok(())
}

fn put_like_sample(alloc: Global, tuple: &mut Tuple) -> Result<(), Memory> {
    let other = sample(alloc)?;
    tuple.make_room(2)?;
    tuple.put_like(Some(&other), "n_i", Value::Long(7))?;
    tuple.put_like(None, "a", Value::Long(1))
}

fn has_places(tuple: &Tuple) -> bool {
    tuple.count() == 2
        && is(tuple.get("n_i"), Plain::Long(7))
        && is(tuple.at_place(tuple.place("a")), Plain::Long(1))
        && is(tuple.at_place(tuple.place("n")), Plain::Absent)
}

#[test]
fn a_tuple_may_have_the_names_of_another(rt: HostRuntime) -> Result<(), Fail> {
    let mut tuple = Tuple::empty(rt.alloc());
    put_like_sample(rt.alloc(), &mut tuple)?;
    assert!(rt; has_places(&tuple));
    Ok(())
}

fn sample_and_nine(alloc: Global) -> Result<Tuple, Memory> {
    let right = long_tuple(alloc, "n_i", 9)?;
    sample(alloc)?.over(alloc, &right)
}

fn has_nine(both: &Tuple) -> bool {
    both.count() == 3
        && is(both.get("n_i"), Plain::Long(9))
        && is(both.get("b_s"), Plain::Text("x"))
}

#[test]
fn the_right_tuple_wins_where_names_meet(rt: HostRuntime) -> Result<(), Fail> {
    let both = sample_and_nine(rt.alloc())?;
    assert!(rt; has_nine(&both));
    Ok(())
}

// Whether the tuple has this size with the field.
fn grows_to(alloc: Global, tuple: &mut Tuple, name: &str, plain: Plain, want: u64) -> bool {
    put(alloc, tuple, name, plain).is_ok() && tuple.size() == want
}

fn put(alloc: Global, tuple: &mut Tuple, name: &str, plain: Plain) -> Result<(), Memory> {
    let value = value_of(alloc, plain)?;
    tuple.put(Text::of(alloc, name)?, value)
}

fn grows(alloc: Global, tuple: &mut Tuple) -> bool {
    tuple.size() == 0
        && grows_to(alloc, tuple, "id", Plain::Text("1"), 11)
        && grows_to(alloc, tuple, "n_i", Plain::Long(5), 30)
        && grows_to(alloc, tuple, "g", Plain::Group(1), 39)
}

#[test]
fn sizes_count_names_values_and_eight_a_field(rt: HostRuntime) {
    let mut tuple = Tuple::empty(rt.alloc());
    assert!(rt; grows(rt.alloc(), &mut tuple));
}

fn becomes(alloc: Global, name: &str, value: Value, want: Plain) -> bool {
    match coerce(alloc, name, value) {
        Ok(value) => is(value.as_ref(), want),
        Err(_) => false,
    }
}

fn takes(alloc: Global, name: &str, given: Plain, want: Plain) -> bool {
    match value_of(alloc, given) {
        Ok(value) => becomes(alloc, name, value, want),
        Err(_) => false,
    }
}

fn take_their_kind(alloc: Global) -> bool {
    takes(alloc, "id", Plain::Long(-7), Plain::Text("-7"))
        && takes(alloc, "a_s", Plain::Long(7), Plain::Text("7"))
        && takes(alloc, "n_i", Plain::Text("5"), Plain::Long(5))
        && takes(alloc, "n_l", Plain::Text("-5"), Plain::Long(-5))
        && takes(alloc, "_version_", Plain::Text("5"), Plain::Long(5))
}

fn have_no_other_kind(alloc: Global) -> bool {
    takes(alloc, "other", Plain::Text("5"), Plain::Text("5"))
        && takes(alloc, "other", Plain::Long(5), Plain::Long(5))
        && takes(alloc, "n_i", Plain::Text("x"), Plain::Absent)
        && takes(alloc, "other", Plain::Group(1), Plain::Absent)
}

#[test]
fn values_take_the_kind_of_their_name(rt: HostRuntime) {
    assert!(rt; take_their_kind(rt.alloc()) && have_no_other_kind(rt.alloc()));
}

fn sample_and_group(alloc: Global) -> Result<Tuple, Memory> {
    let mut tuple = sample(alloc)?;
    put(alloc, &mut tuple, "g", Plain::Group(1))?;
    Ok(tuple)
}

fn key(alloc: Global, all: &str) -> Result<Bytes, Memory> {
    let tuple = sample_and_group(alloc)?;
    key_text(alloc, &tuple, &names(alloc, all)?)
}

fn has_key(alloc: Global, all: &str, want: &[u8]) -> bool {
    match key(alloc, all) {
        Ok(key) => key.as_slice() == want,
        Err(_) => false,
    }
}

fn have_keys(alloc: Global) -> bool {
    has_key(alloc, "q", b"\0")
        && has_key(alloc, "z", b"\x01\0\0\0\0\0\0\0\0")
        && has_key(alloc, "b_s q", b"\x02\0\0\0\x01x\0")
        && has_key(alloc, "n_i", b"\x01\xff\xff\xff\xff\xff\xff\xff\xff")
        && has_key(alloc, "g", b"\x03")
}

#[test]
fn a_key_has_a_part_for_each_field(rt: HostRuntime) {
    assert!(rt; have_keys(rt.alloc()));
}

fn copies_a_collection(alloc: Global) -> Result<usize, Memory> {
    let name = Text::from_string(String::from_str(alloc, "c")?);
    let mut collections = Names::new(alloc);
    collections.push(NameShards { name, shards: 2 })?;
    Ok(collections.copy(alloc)?.len())
}

fn copies_a_write(alloc: Global) -> Result<usize, Memory> {
    let mut writes = Writes::new(alloc);
    writes.push(Write::Put(sample(alloc)?))?;
    Ok(writes.copy(alloc)?.len())
}

fn copies_a_group(alloc: Global) -> Result<Ordering, Memory> {
    let group = value_of(alloc, Plain::Group(1))?;
    let copy = group.copy(alloc)?;
    Ok(compare(Some(&copy), Some(&group)))
}

#[test]
fn names_writes_and_tuples_are_copied(rt: HostRuntime) {
    assert!(rt;
        copies_a_collection(rt.alloc()) == Ok(1)
            && copies_a_write(rt.alloc()) == Ok(1)
            && copies_a_group(rt.alloc()) == Ok(Ordering::Equal)
    );
}

fn is_sent<T: Send>(_: &T) {}

fn is_shared<T: Sync>(_: &T) {}

// Another thread may be given these, and may read them.
#[test]
fn tuples_go_to_other_threads(rt: HostRuntime) -> Result<(), Fail> {
    let tuple = sample(rt.alloc())?;
    let tuples = Tuples::empty(rt.alloc());
    is_sent(&tuple);
    is_shared(&tuple);
    is_sent(&tuples);
    is_shared(&tuples);
    Ok(())
}
