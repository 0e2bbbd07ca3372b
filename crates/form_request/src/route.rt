// Which handler and which collection a path names.
ghost use Rattle.std.specs.Prelude.{◌≡◌, bytes_eq, option_map};
ghost use Rattle.form_urlencoded.specs.Form as form;
ghost use Rattle.form_request.specs.Routes.{handler_of, route};

use crate::Handler;
use tuple_values::{Names, Text};

/// What stands before the first such byte, and what behind it.
pub fn split_once(bytes: &[u8], separator: u8) -> (&[u8], &[u8])
    ensures before { result.0.now ≡ (form.split_once separator bytes.now).0 }
    ensures behind { result.1.now ≡ (form.split_once separator bytes.now).1 }
{
    match bytes.iter().position(|b| *b == separator) {
        Some(place) => (&bytes[..place], &bytes[place + 1..]),
        None => (bytes, &[]),
    }
}

/// Whether the bytes are the same.
pub fn is_same(a: &[u8], b: &[u8]) -> bool
    ensures { result ≡ bytes_eq a.now b.now }
{
    a == b
}

/// The handler and the collection that the path names.
pub fn read_route<'a>(names: &'a Names, path: &[u8]) -> Option<(Handler, &'a Text)>
    ensures { option_map (λ r. (r.0, r.1.now)) result ≡ route names.now path.now }
{
    if !path.starts_with(b"/solr/") {
        return None;
    }
    let (collection, tail) = split_once(&path[6..], b'/');
    let entry = names.find(collection)?;
    let handler = read_handler(tail)?;
    Some((handler, &entry.name))
}

fn read_handler(tail: &[u8]) -> Option<Handler>
    ensures { result ≡ handler_of tail.now }
{
    if is_same(tail, b"stream") {
        return Some(Handler::Stream);
    }
    if is_same(tail, b"update")
        || is_same(tail, b"update/json")
        || is_same(tail, b"update/json/docs")
    {
        return Some(Handler::Update);
    }
    None
}
