// The messages that a client writes.
use crate::session::Talk;
use std::alloc::Global;
use tuple_values::{Bytes, Memory};

// Adds pieces, one behind another.
fn add_all(bytes: &mut Bytes, pieces: &[&str]) -> Result<(), Memory> {
    for piece in pieces {
        bytes.extend(piece.as_bytes())?;
    }
    Ok(())
}

// Adds the first line of a message, and its further field.
fn add_start(talk: &mut Talk, method: &str, target: &str) -> Result<(), Memory> {
    add_all(&mut talk.bytes, &[method, " ", target, " HTTP/1.1\r\n"])?;
    talk.bytes.extend(talk.field.as_slice())
}

/// Adds a GET of a target.
pub fn add_get(talk: &mut Talk, target: &str) -> Result<(), Memory> {
    add_start(talk, "GET", target)?;
    talk.bytes.extend(b"\r\n")?;
    talk.end_message()
}

// Adds a POST of a target with a body.
fn add_post(alloc: Global, talk: &mut Talk, target: &str, body: &[u8]) -> Result<(), Memory> {
    let length = format!(in alloc; "Content-Length: {}\r\n\r\n", body.len())?;
    add_start(talk, "POST", target)?;
    talk.bytes.extend(length.as_bytes())?;
    talk.bytes.extend(body)?;
    talk.end_message()
}

/// Adds a POST of the target that stands first in the words, with the body behind it.
pub fn add_body(alloc: Global, talk: &mut Talk, words: &str) -> Result<(), Memory> {
    let (target, body) = words.split_once(' ').unwrap_or((words, ""));
    add_post(alloc, talk, target, body.as_bytes())
}

fn add_document(alloc: Global, body: &mut Bytes, k: u64) -> Result<(), Memory> {
    let document = format!(in alloc; "{{\"id\":\"{k}\",\"n_i\":{k}}}")?;
    body.extend(if k == 0 { b"[" } else { b"," })?;
    body.extend(document.as_bytes())
}

// So many documents, whose ids and numbers are those from 0 on.
fn documents(alloc: Global, count: u64) -> Result<Bytes, Memory> {
    let mut body = Bytes::new(alloc);
    for k in 0..count {
        add_document(alloc, &mut body, k)?;
    }
    body.extend(b"]")?;
    Ok(body)
}

/// Adds an update of the target that stands first in the words with so many documents as the number
/// behind it says.
pub fn add_documents(alloc: Global, talk: &mut Talk, words: &str) -> Result<(), Memory> {
    let (target, count) = words.split_once(' ').unwrap_or((words, ""));
    let body = documents(alloc, count.parse().unwrap_or(0))?;
    add_post(alloc, talk, target, body.as_slice())
}

fn add_letters_to(body: &mut Bytes, count: u64) -> Result<(), Memory> {
    for _ in 0..count {
        body.extend(b"x")?;
    }
    Ok(())
}

// A document with this id, whose text has so many letters.
fn letters(alloc: Global, id: &str, count: u64) -> Result<Bytes, Memory> {
    let mut body = Bytes::new(alloc);
    add_all(&mut body, &["[{\"id\":\"", id, "\",\"x_s\":\""])?;
    add_letters_to(&mut body, count)?;
    body.extend(b"\"}]")?;
    Ok(body)
}

/// Adds an update of the target that stands first in the words, with a document that has the id
/// behind it, and whose text has so many letters as the number behind that says.
pub fn add_letters(alloc: Global, talk: &mut Talk, words: &str) -> Result<(), Memory> {
    let (target, words) = words.split_once(' ').unwrap_or((words, ""));
    let (id, count) = words.split_once(' ').unwrap_or((words, ""));
    let body = letters(alloc, id, count.parse().unwrap_or(0))?;
    add_post(alloc, talk, target, body.as_slice())
}
