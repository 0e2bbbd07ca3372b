// The tuples that the tests of several crates are over.
use std::alloc::Global;
use tuple_values::{FieldList, Memory, Text, Tuple, Value};

pub fn put_text(alloc: Global, tuple: &mut Tuple, name: &str, text: &str) -> Result<(), Memory> {
    let value = Value::Text(Text::of(alloc, text)?);
    tuple.put(Text::of(alloc, name)?, value)
}

pub fn put_long(alloc: Global, tuple: &mut Tuple, name: &str, n: i64) -> Result<(), Memory> {
    tuple.put(Text::of(alloc, name)?, Value::Long(n))
}

// The tuple of one field.
pub fn long_tuple(alloc: Global, name: &str, n: i64) -> Result<Tuple, Memory> {
    let mut tuple = Tuple::empty(alloc);
    put_long(alloc, &mut tuple, name, n)?;
    Ok(tuple)
}

fn push_names(alloc: Global, list: &mut FieldList, all: &str) -> Result<(), Memory> {
    for name in all.split(' ') {
        list.push(Text::of(alloc, name)?)?;
    }
    Ok(())
}

/// The names, with a space between each and the next.
pub(crate) fn names(alloc: Global, all: &str) -> Result<FieldList, Memory> {
    let mut list = FieldList::new(alloc);
    push_names(alloc, &mut list, all)?;
    Ok(list)
}
