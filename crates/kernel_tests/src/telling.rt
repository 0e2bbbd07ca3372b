// Whether tuples are those that a text tells.
use tuple_values::{Text, Tuple, Tuples, Value, whole};

// What is left of a text past a tuple's mark, where it begins with that.
fn after_mark<'a>(tuple: &Tuple, name: &str, text: &'a str) -> Option<&'a str> {
    match tuple.get(name) {
        Some(Value::Text(mark)) => text.strip_prefix(mark.as_str()),
        _ => None,
    }
}

fn after_marks<'a>(tuple: &Tuple, names: &[&str], text: &'a str) -> Option<&'a str> {
    let mut rest = text;
    for name in names {
        rest = after_mark(tuple, name, rest)?;
    }
    Some(rest)
}

/// Whether the marks under these names, tuple by tuple, are this text.
pub(crate) fn are_marked(tuples: &Tuples, names: &[&str], text: &str) -> bool {
    let mut rest = text;
    for k in 0..tuples.count() {
        match after_marks(tuples.get(k), names, rest) {
            Some(later) => rest = later,
            None => return false,
        }
    }
    rest.is_empty()
}

/// Whether the tuple has this number under the name; `-` where it has none.
pub(crate) fn has_number(tuple: &Tuple, name: &str, word: &str) -> bool {
    match tuple.get(name) {
        Some(Value::Long(n)) => whole(word) == Some(*n),
        _ => word == "-",
    }
}

/// Whether these are the numbers of the tuples under the name.
pub(crate) fn have_numbers(tuples: &Tuples, name: &str, words: &str) -> bool {
    let mut words = words.split_whitespace();
    for k in 0..tuples.count() {
        match words.next() {
            Some(word) => {
                if !has_number(tuples.get(k), name, word) {
                    return false;
                }
            }
            None => return false,
        }
    }
    words.next().is_none()
}

fn is_value(value: &Value, text: &str) -> bool {
    match value {
        Value::Long(n) => whole(text) == Some(*n),
        Value::Text(own) => text.strip_prefix('\'') == Some(own.as_str()),
        Value::Group(_) => text == "*",
    }
}

fn is_field(name: &Text, value: &Value, field: &str) -> bool {
    match field.split_once('=') {
        Some((wanted, text)) => name.as_str() == wanted && is_value(value, text),
        None => false,
    }
}

/// Whether the tuple has these fields, in this order.
pub(crate) fn has_fields(tuple: &Tuple, fields: &str) -> bool {
    let mut fields = fields.split_whitespace();
    for k in 0..tuple.count() {
        match fields.next() {
            Some(field) => {
                if !is_field(tuple.name(k), tuple.value(k), field) {
                    return false;
                }
            }
            None => return false,
        }
    }
    fields.next().is_none()
}
