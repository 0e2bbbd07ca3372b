// Tests of sort_spec, by texts and orders worked by hand from the rules of sorts.
use crate::making::{Plain, put};
use sort_spec::{
    Lends, OnPair, SortFault, SortSpec, SortTerm, read_names, read_on, read_sort, sort_first,
    sort_lenders, sort_tuples,
};
use std::alloc::Global;
use std::cmp::Ordering;
use tuple_values::{Memory, Text, TryCopy, Tuple, Tuples, Value};

fn push_term(told: &mut String, term: &SortTerm) -> Result<(), Memory> {
    told.push_str(term.field.as_str())?;
    Ok(told.push_str(if term.descending { " desc;" } else { " asc;" })?)
}

fn push_terms(told: &mut String, sort: &SortSpec) -> Result<(), Memory> {
    for term in sort.as_slice() {
        push_term(told, term)?;
    }
    Ok(())
}

fn push_fault(alloc: Global, told: &mut String, fault: SortFault) -> Result<(), Memory> {
    let text = fault.text(alloc)?;
    Ok(told.push_str(text.as_str())?)
}

fn push_sort(alloc: Global, told: &mut String, text: &str) -> Result<(), Memory> {
    match read_sort(alloc, text) {
        Ok(sort) => push_terms(told, &sort),
        Err(fault) => push_fault(alloc, told, fault),
    }
}

// The words of the terms, each with a `;` behind it, or of the fault.
fn is_sort(alloc: Global, text: &str, want: &str) -> bool {
    let mut told = String::new(alloc);
    push_sort(alloc, &mut told, text).is_ok() && told.as_str() == want
}

const SORTS: [(&str, &str); 23] = [
    ("a asc", "a asc;"),
    (" a\tDESC , b asC\r\n", "a desc;b asc;"),
    ("asc asc", "asc asc;"),
    ("a asc,a desc", "a asc;a desc;"),
    ("é=( Desc", "é=( desc;"),
    ("", "BadSort at 0"),
    (" \n", "BadSort at 2"),
    ("a", "BadSort at 1"),
    ("a ", "BadSort at 2"),
    ("a x", "BadSort at 2"),
    ("a a", "BadSort at 3"),
    ("a as", "BadSort at 4"),
    ("a ad", "BadSort at 3"),
    ("a ascx", "BadSort at 5"),
    ("a desc,", "BadSort at 7"),
    ("a asc, ", "BadSort at 7"),
    (",a asc", "BadSort at 0"),
    ("a,asc", "BadSort at 1"),
    ("a ,asc", "BadSort at 2"),
    ("a asc b", "BadSort at 6"),
    ("a asc,b", "BadSort at 7"),
    ("a asc,,b asc", "BadSort at 6"),
    ("é asd", "BadSort at 5"),
];

#[test]
fn a_sort_is_terms_between_commas(rt: HostRuntime) {
    for (text, want) in &SORTS {
        assert!(rt; is_sort(rt.alloc(), text, want), "of {text:?}");
    }
}

fn push_pair(told: &mut String, pair: &OnPair) -> Result<(), Memory> {
    told.push_str(pair.left.as_str())?;
    told.push_str("=")?;
    told.push_str(pair.right.as_str())?;
    Ok(told.push_str(";")?)
}

fn push_pairs(told: &mut String, pairs: &[OnPair]) -> Result<(), Memory> {
    for pair in pairs {
        push_pair(told, pair)?;
    }
    Ok(())
}

fn push_on(alloc: Global, told: &mut String, text: &str) -> Result<(), Memory> {
    match read_on(alloc, text) {
        Ok(pairs) => push_pairs(told, pairs.as_slice()),
        Err(fault) => push_fault(alloc, told, fault),
    }
}

fn is_on(alloc: Global, text: &str, want: &str) -> bool {
    let mut told = String::new(alloc);
    push_on(alloc, &mut told, text).is_ok() && told.as_str() == want
}

const PAIRS: [(&str, &str); 15] = [
    ("a", "a=a;"),
    ("a=b", "a=b;"),
    (" a=b , c,a=b", "a=b;c=c;a=b;"),
    ("", "BadSort at 0"),
    ("a=", "BadSort at 2"),
    ("=a", "BadSort at 0"),
    ("a =b", "BadSort at 2"),
    ("a= b", "BadSort at 2"),
    ("a=b=c", "BadSort at 3"),
    ("a==b", "BadSort at 2"),
    ("a b", "BadSort at 2"),
    ("a=b c", "BadSort at 4"),
    ("a,", "BadSort at 2"),
    ("a=,b", "BadSort at 2"),
    ("b=c,é=,", "BadSort at 7"),
];

#[test]
fn a_pair_is_one_name_or_two(rt: HostRuntime) {
    for (text, want) in &PAIRS {
        assert!(rt; is_on(rt.alloc(), text, want), "of {text:?}");
    }
}

fn push_list(told: &mut String, names: &[Text]) -> Result<(), Memory> {
    for name in names {
        told.push_str(name.as_str())?;
        told.push_str(";")?;
    }
    Ok(())
}

fn push_names(alloc: Global, told: &mut String, text: &str) -> Result<(), Memory> {
    match read_names(alloc, text) {
        Ok(names) => push_list(told, names.as_slice()),
        Err(fault) => push_fault(alloc, told, fault),
    }
}

fn are_names(alloc: Global, text: &str, want: &str) -> bool {
    let mut told = String::new(alloc);
    push_names(alloc, &mut told, text).is_ok() && told.as_str() == want
}

const NAMES: [(&str, &str); 11] = [
    ("a", "a;"),
    ("b, a ,b,c,a", "b;a;c;"),
    ("*", "*;"),
    ("a=b", "a=b;"),
    (" é\n", "é;"),
    ("", "BadSort at 0"),
    (" ", "BadSort at 1"),
    ("a b", "BadSort at 2"),
    ("a,", "BadSort at 2"),
    (",a", "BadSort at 0"),
    ("a,,b", "BadSort at 2"),
];

#[test]
fn a_repeated_name_counts_once(rt: HostRuntime) {
    for (text, want) in &NAMES {
        assert!(rt; are_names(rt.alloc(), text, want), "of {text:?}");
    }
}

// A tuple with the value under `a`.
fn holding(alloc: Global, a: Plain) -> Result<Tuple, Memory> {
    let mut tuple = Tuple::empty(alloc);
    put(alloc, &mut tuple, "a", a)?;
    Ok(tuple)
}

// A tuple with the values under `a` and `b`.
fn tuple_of(alloc: Global, a: Plain, b: Plain) -> Result<Tuple, Memory> {
    let mut tuple = holding(alloc, a)?;
    put(alloc, &mut tuple, "b", b)?;
    Ok(tuple)
}

const ORDERS: [(&str, Plain, Plain, Ordering); 9] = [
    ("a asc", Plain::Absent, Plain::Long(-5), Ordering::Less),
    ("a desc", Plain::Absent, Plain::Long(-5), Ordering::Greater),
    ("a asc", Plain::Long(9), Plain::Long(10), Ordering::Less),
    (
        "a asc",
        Plain::Text("9"),
        Plain::Text("10"),
        Ordering::Greater,
    ),
    ("a asc", Plain::Long(10), Plain::Text("1"), Ordering::Less),
    ("a asc", Plain::Group, Plain::Text("z"), Ordering::Greater),
    ("a desc", Plain::Text("b"), Plain::Text("a"), Ordering::Less),
    ("a asc", Plain::Text("b"), Plain::Text("b"), Ordering::Equal),
    ("c asc", Plain::Long(1), Plain::Long(2), Ordering::Equal),
];

fn compared(alloc: Global, by: &SortSpec, left: Plain, right: Plain) -> Result<Ordering, Memory> {
    let left = holding(alloc, left)?;
    let right = holding(alloc, right)?;
    Ok(by.compare(&left, &right))
}

fn comes(alloc: Global, text: &str, left: Plain, right: Plain, want: Ordering) -> bool {
    match read_sort(alloc, text) {
        Ok(by) => compared(alloc, &by, left, right) == Ok(want),
        Err(_) => false,
    }
}

#[test]
fn tuples_compare_by_the_value_of_a_field(rt: HostRuntime) {
    for (row, (text, left, right, want)) in ORDERS.iter().enumerate() {
        assert!(rt; comes(rt.alloc(), text, *left, *right, *want), "row {row}");
    }
}

// How a tuple with 1 under `a` and under `b` compares.
fn compared_to(alloc: Global, by: &SortSpec, a: i64, b: i64) -> Result<Ordering, Memory> {
    let first = tuple_of(alloc, Plain::Long(1), Plain::Long(1))?;
    let second = tuple_of(alloc, Plain::Long(a), Plain::Long(b))?;
    Ok(by.compare(&first, &second))
}

fn first_difference_decides(alloc: Global) -> bool {
    match read_sort(alloc, "a asc,b desc") {
        Ok(by) => {
            compared_to(alloc, &by, 1, 2) == Ok(Ordering::Greater)
                && compared_to(alloc, &by, 2, 3) == Ok(Ordering::Less)
        }
        Err(_) => false,
    }
}

#[test]
fn the_first_term_that_tells_a_difference_decides(rt: HostRuntime) {
    assert!(rt; first_difference_decides(rt.alloc()));
}

// The text under `b`.
fn mark_of(tuple: &Tuple) -> &str {
    match tuple.get("b") {
        Some(Value::Text(text)) => text.as_str(),
        _ => "",
    }
}

const TIED: [(i64, &str); 5] = [(1, "x"), (2, "y"), (1, "z"), (2, "w"), (3, "v")];

fn push_tied(alloc: Global, tuples: &mut Tuples) -> Result<(), Memory> {
    for (n, mark) in &TIED {
        tuples.push(tuple_of(alloc, Plain::Long(*n), Plain::Text(mark))?)?;
    }
    Ok(())
}

// Tuples of which the first and the third tie, and the second and the fourth.
fn tied(alloc: Global) -> Result<Tuples, Memory> {
    let mut tuples = Tuples::empty(alloc);
    push_tied(alloc, &mut tuples)?;
    Ok(tuples)
}

// Whether the marks are these, with a space between each and the next.
fn are_marked(tuples: &[&Tuple], want: &str) -> bool {
    let mut marks = want.split(' ');
    for tuple in tuples {
        if marks.next() != Some(mark_of(tuple)) {
            return false;
        }
    }
    marks.next().is_none()
}

fn lent<'a>(alloc: Global, tuples: &'a [Tuple]) -> Result<Vec<&'a Tuple>, Memory> {
    let mut lent = Vec::new(alloc);
    for tuple in tuples {
        lent.push(tuple)?;
    }
    Ok(lent)
}

// What lends a tuple of others.
#[derive(Clone, Copy)]
struct Lender<'a> {
    tuple: &'a Tuple,
}

impl Lends for Lender<'_> {
    ghost doc = { λ l. l.tuple.now };

    fn tuple(&self) -> &Tuple {
        self.tuple
    }
}

fn lenders<'a>(alloc: Global, tuples: &'a [Tuple]) -> Result<Vec<Lender<'a>>, Memory> {
    let mut lenders = Vec::new(alloc);
    for tuple in tuples {
        lenders.push(Lender { tuple })?;
    }
    Ok(lenders)
}

// The tuples that are lent, in their order.
fn borrowed<'a>(alloc: Global, lenders: &[Lender<'a>]) -> Result<Vec<&'a Tuple>, Memory> {
    let mut tuples = Vec::new(alloc);
    for lender in lenders {
        tuples.push(lender.tuple)?;
    }
    Ok(tuples)
}

fn lent_keep_their_order(alloc: Global, by: &SortSpec) -> Result<bool, Memory> {
    let tuples = tied(alloc)?.into_vec();
    let sorted = sort_lenders(lenders(alloc, &tuples)?, by)?;
    Ok(are_marked(&borrowed(alloc, &sorted)?, "v y w x z"))
}

fn keep_their_order(alloc: Global, by: &SortSpec) -> Result<bool, Memory> {
    let sorted = sort_tuples(tied(alloc)?, by)?.into_vec();
    Ok(are_marked(&lent(alloc, &sorted)?, "v y w x z"))
}

fn ties_are_kept(alloc: Global) -> bool {
    match read_sort(alloc, "a desc") {
        Ok(by) => {
            lent_keep_their_order(alloc, &by) == Ok(true)
                && keep_their_order(alloc, &by) == Ok(true)
        }
        Err(_) => false,
    }
}

#[test]
fn ties_keep_their_order(rt: HostRuntime) {
    assert!(rt; ties_are_kept(rt.alloc()));
}

// So many that they are sorted in eighteen runs, in two groups. The n-th has the key 7,919 n mod 101, so that
// each key comes up in each run.
const MANY: u64 = 140_000;

fn key_of(n: u64) -> i64 {
    (n.wrapping_mul(7_919) % 101) as i64
}

fn push_many(alloc: Global, tuples: &mut Tuples) -> Result<(), Memory> {
    for n in 0..MANY {
        tuples.push(tuple_of(alloc, Plain::Long(key_of(n)), Plain::Long(n as i64))?)?;
    }
    Ok(())
}

fn long_of(tuple: &Tuple, name: &str) -> i64 {
    match tuple.get(name) {
        Some(Value::Long(n)) => *n,
        _ => -1,
    }
}

// Whether the keys rise, the marks of each rise, and each mark is that of its key.
fn are_many_sorted(tuples: &[Tuple]) -> bool {
    let mut before = (-1, -1);
    for tuple in tuples {
        let here = (long_of(tuple, "a"), long_of(tuple, "b"));
        if here <= before || here.1 < 0 || here.0 != key_of(here.1 as u64) {
            return false;
        }
        before = here;
    }
    tuples.len() as u64 == MANY
}

fn many_in_order(alloc: Global, by: &SortSpec) -> Result<bool, Memory> {
    let mut tuples = Tuples::empty(alloc);
    push_many(alloc, &mut tuples)?;
    let sorted = sort_tuples(tuples, by)?.into_vec();
    Ok(are_many_sorted(sorted.as_slice()))
}

fn many_keep_their_order(alloc: Global) -> bool {
    match read_sort(alloc, "a asc") {
        Ok(by) => many_in_order(alloc, &by) == Ok(true),
        Err(_) => false,
    }
}

#[test]
fn ties_of_several_runs_keep_their_order(rt: HostRuntime) {
    assert!(rt; many_keep_their_order(rt.alloc()));
}

// The n-th of so many tuples has the key n mod `keys`, and the mark n.
fn push_counted(alloc: Global, tuples: &mut Tuples, count: u32, keys: u32) -> Result<(), Memory> {
    for n in 0..count {
        let key = n.checked_rem(keys).unwrap_or(0);
        let tuple = tuple_of(
            alloc,
            Plain::Long(i64::from(key)),
            Plain::Long(i64::from(n)),
        )?;
        tuples.push(tuple)?;
    }
    Ok(())
}

fn push_marks(told: &mut String, lenders: &[Lender]) -> Result<(), Memory> {
    for lender in lenders {
        write!(told, "{};", long_of(lender.tuple, "b"))?;
    }
    Ok(())
}

fn push_first(
    alloc: Global,
    told: &mut String,
    tuples: &[Tuple],
    by: &SortSpec,
    most: usize,
) -> Result<(), Memory> {
    let first = sort_first(lenders(alloc, tuples)?, by, most)?;
    push_marks(told, first.as_slice())
}

// The number of tuples, the number of keys, the sort, how many are wanted at most, and the marks that come
// first, each with a `;` behind it. Of 10,000 with 2,500 keys those of a key are 2,500 apart.
const FIRSTS: [(u32, u32, &str, usize, &str); 8] = [
    (5, 2, "a asc", 0, ""),
    (5, 2, "a desc", 3, "1;3;0;"),
    (5, 2, "a asc", 9, "0;2;4;1;3;"),
    (5, 2, "a asc", usize::MAX, "0;2;4;1;3;"),
    (0, 2, "a asc", 3, ""),
    (10_000, 2_500, "a asc", 0, ""),
    (10_000, 2_500, "a asc", 6, "0;2500;5000;7500;1;2501;"),
    (10_000, 2_500, "a desc", 6, "2499;4999;7499;9999;2498;4998;"),
];

fn are_first(
    alloc: Global,
    tuples: Tuples,
    text: &str,
    most: usize,
    want: &str,
) -> Result<bool, Memory> {
    let tuples = tuples.into_vec();
    let mut told = String::new(alloc);
    match read_sort(alloc, text) {
        Ok(by) => push_first(alloc, &mut told, tuples.as_slice(), &by, most)?,
        Err(fault) => push_fault(alloc, &mut told, fault)?,
    }
    Ok(told.as_str() == want)
}

fn counted(alloc: Global, count: u32, keys: u32) -> Result<Tuples, Memory> {
    let mut tuples = Tuples::empty(alloc);
    push_counted(alloc, &mut tuples, count, keys)?;
    Ok(tuples)
}

fn comes_first(
    alloc: Global,
    (count, keys): (u32, u32),
    text: &str,
    most: usize,
    want: &str,
) -> bool {
    match counted(alloc, count, keys) {
        Ok(tuples) => are_first(alloc, tuples, text, most, want) == Ok(true),
        Err(_) => false,
    }
}

#[test]
fn the_first_of_many(rt: HostRuntime) {
    for (row, (count, keys, text, most, want)) in FIRSTS.iter().enumerate() {
        assert!(rt;
            comes_first(rt.alloc(), (*count, *keys), text, *most, want),
            "row {row}"
        );
    }
}

fn has_text(alloc: Global, fault: SortFault, want: &str) -> bool {
    match fault.text(alloc) {
        Ok(text) => text.as_str() == want,
        Err(_) => false,
    }
}

#[test]
fn a_fault_is_written_with_its_place(rt: HostRuntime) {
    assert!(rt; has_text(rt.alloc(), SortFault::BadSort { at: 12 }, "BadSort at 12"));
    assert!(rt; has_text(rt.alloc(), SortFault::OutOfMemory, "out of memory"));
}

// A sort by `a`, from the greatest on.
fn by_a(alloc: Global) -> Result<SortSpec, Memory> {
    let field = Text::of(alloc, "a")?;
    let mut by = SortSpec::new(alloc);
    by.push(SortTerm {
        field,
        descending: true,
    })?;
    by.copy(alloc)
}

fn begins(alloc: Global, by: &SortSpec, text: &str) -> bool {
    match read_sort(alloc, text) {
        Ok(longer) => by.is_prefix_of(&longer),
        Err(_) => false,
    }
}

fn is_no_front(alloc: Global, by: &SortSpec, text: &str) -> bool {
    match read_sort(alloc, text) {
        Ok(longer) => !longer.is_prefix_of(by),
        Err(_) => false,
    }
}

fn fields(alloc: Global, text: &str) -> Result<usize, SortFault> {
    let by = read_sort(alloc, text)?;
    Ok(by.fields(alloc)?.len())
}

fn is_front(alloc: Global) -> Result<bool, Memory> {
    let by = by_a(alloc)?;
    Ok(
        begins(alloc, &by, "a desc,b asc")
            && !begins(alloc, &by, "a asc,b asc")
            && is_no_front(alloc, &by, "a desc,b asc"),
    )
}

#[test]
fn a_sort_is_made_of_terms(rt: HostRuntime) {
    assert!(rt; is_front(rt.alloc()) == Ok(true) && fields(rt.alloc(), "a desc,b asc") == Ok(2));
}
