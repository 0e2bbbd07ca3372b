// What the tests are about, made of texts: a tuple is `a=5 b='10 g=*2`, a number, a text and a group
// of one tuple, whose field n is 2; `g=*` is a group of no tuple.
use sort_spec::{OnPair, SortSpec, SortTerm};
use std::alloc::Global;
use std::collections::VecDeque;
use tuple_values::{FieldList, Memory, Text, Tuple, Tuples, Value, whole};

/// What an input still gives.
pub(crate) type Input = VecDeque<Tuple>;

fn numbered(alloc: Global, n: i64) -> Result<Tuple, Memory> {
    let mut tuple = Tuple::empty(alloc);
    tuple.put(Text::of(alloc, "n")?, Value::Long(n))?;
    Ok(tuple)
}

fn group(alloc: Global, number: &str) -> Result<Value, Memory> {
    let mut tuples = Tuples::empty(alloc);
    if let Some(n) = whole(number) {
        tuples.push(numbered(alloc, n)?)?;
    }
    Ok(Value::Group(tuples))
}

/// The value of a text.
pub(crate) fn value(alloc: Global, text: &str) -> Result<Value, Memory> {
    if let Some(n) = whole(text) {
        return Ok(Value::Long(n));
    }
    match text.strip_prefix('*') {
        Some(number) => group(alloc, number),
        None => Ok(Value::Text(Text::of(alloc, text.strip_prefix('\'').unwrap_or(text))?)),
    }
}

fn put(alloc: Global, tuple: &mut Tuple, field: &str) -> Result<(), Memory> {
    match field.split_once('=') {
        Some((name, text)) => tuple.put(Text::of(alloc, name)?, value(alloc, text)?),
        None => Ok(()),
    }
}

fn put_all(alloc: Global, tuple: &mut Tuple, fields: &str) -> Result<(), Memory> {
    for field in fields.split_whitespace() {
        put(alloc, tuple, field)?;
    }
    Ok(())
}

/// The tuple of these fields.
pub(crate) fn tuple(alloc: Global, fields: &str) -> Result<Tuple, Memory> {
    let mut tuple = Tuple::empty(alloc);
    put_all(alloc, &mut tuple, fields)?;
    Ok(tuple)
}

fn push_all(alloc: Global, input: &mut Input, rows: &[&str]) -> Result<(), Memory> {
    for row in rows {
        input.push_back(tuple(alloc, row)?)?;
    }
    Ok(())
}

/// The input of these tuples.
pub(crate) fn input(alloc: Global, rows: &[&str]) -> Result<Input, Memory> {
    let mut input = VecDeque::new(alloc);
    push_all(alloc, &mut input, rows)?;
    Ok(input)
}

fn add_names(alloc: Global, list: &mut FieldList, names: &str) -> Result<(), Memory> {
    for name in names.split_whitespace() {
        list.push(Text::of(alloc, name)?)?;
    }
    Ok(())
}

/// These names, with blanks between them.
pub(crate) fn names(alloc: Global, names: &str) -> Result<FieldList, Memory> {
    let mut list = FieldList::new(alloc);
    add_names(alloc, &mut list, names)?;
    Ok(list)
}

/// The sort by one field.
pub(crate) fn sort_by(alloc: Global, field: &str, descending: bool) -> Result<SortSpec, Memory> {
    let mut sort = SortSpec::new(alloc);
    let field = Text::of(alloc, field)?;
    sort.push(SortTerm { field, descending })?;
    Ok(sort)
}

/// A field of the left tuples, and one of the right.
pub(crate) fn pair(alloc: Global, left: &str, right: &str) -> Result<OnPair, Memory> {
    let left = Text::of(alloc, left)?;
    let right = Text::of(alloc, right)?;
    Ok(OnPair { left, right })
}
