// The tuples that the tests of several crates are over.
use std::alloc::Global;
use tuple_values::{Memory, Text, Tuple, Tuples, Value};

// A value as a row of a table writes it.
#[derive(Clone, Copy)]
pub enum Plain {
    Absent,
    Long(i64),
    Text(&'static str),
    Group,
}

fn put_value(alloc: Global, tuple: &mut Tuple, name: &str, value: Value) -> Result<(), Memory> {
    let name = Text::of(alloc, name)?;
    tuple.put(name, value)
}

pub fn put_text(alloc: Global, tuple: &mut Tuple, name: &str, text: &str) -> Result<(), Memory> {
    let value = Text::of(alloc, text)?;
    put_value(alloc, tuple, name, Value::Text(value))
}

pub fn put(alloc: Global, tuple: &mut Tuple, name: &str, plain: Plain) -> Result<(), Memory> {
    match plain {
        Plain::Absent => Ok(()),
        Plain::Long(n) => put_value(alloc, tuple, name, Value::Long(n)),
        Plain::Text(text) => put_text(alloc, tuple, name, text),
        Plain::Group => put_value(alloc, tuple, name, Value::Group(Tuples::empty(alloc))),
    }
}
