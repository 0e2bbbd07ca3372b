// An update of 400 documents, and the reply to their search in two chunks (RFC 9112, section 7.1),
// which is built from the ids.
use crate::joining::{add_all, joined};
use crate::samples::{END, OPENING, UPDATED};
use std::alloc::Global;
use tuple_values::{Bytes, Memory};

/// The first id of the documents.
pub const FIRST: u64 = 100;

/// The first id in the second chunk. The opening has 23 bytes, the first tuple 12, and each other
/// 13 with its comma: so 313 tuples end at 4,091 bytes, and that of 413 is the first to pass 4,096.
const SECOND: u64 = 414;

/// The id behind the last document.
pub const BEHIND: u64 = 500;

/// The head of the update of the 400 documents, which have 12 bytes each: with 399 commas and two
/// brackets they are 5,201.
const UPDATE: &str = "POST /solr/c/update?commit=true HTTP/1.1\r\nContent-Length: 5201\r\n\r\n";

/// A search of their ids, behind which the connection goes on.
pub const SEARCH: &str = "GET /solr/c/stream?expr=search(c,q%3D%22*:*%22,fl%3D%22id%22,\
     sort%3D%22id+asc%22) HTTP/1.1\r\n\r\n";

/// The head of a reply in chunks.
pub const CHUNKED: &str = "HTTP/1.1 200 OK\r\nContent-Type: application/json\r\n\
     Transfer-Encoding: chunked\r\n\r\n";

/// The chunk that ends a reply.
pub const LAST_CHUNK: &str = "0\r\n\r\n";

// Adds the document or tuple with this id, behind a comma unless it is the first.
fn add_id(alloc: Global, bytes: &mut Bytes, id: u64) -> Result<(), Memory> {
    if id != FIRST {
        bytes.extend(b",")?;
    }
    let text = format!(in alloc; "{{\"id\":\"{id}\"}}")?;
    bytes.extend(text.as_bytes())
}

/// Adds the documents or tuples from an id on, to the one before another.
pub fn add_ids(alloc: Global, bytes: &mut Bytes, from: u64, behind: u64) -> Result<(), Memory> {
    for id in from..behind {
        add_id(alloc, bytes, id)?;
    }
    Ok(())
}

/// The update of the documents, and these requests behind it.
pub fn update_and(alloc: Global, requests: &[&str]) -> Result<Bytes, Memory> {
    let mut bytes = joined(alloc, &[UPDATE, "["])?;
    add_ids(alloc, &mut bytes, FIRST, BEHIND)?;
    bytes.extend(b"]")?;
    add_all(&mut bytes, requests)?;
    Ok(bytes)
}

/// The first chunk: the 23 bytes of the opening, 12 of the first tuple and 313 times 13 are 4,104.
pub fn first_chunk(alloc: Global) -> Result<Bytes, Memory> {
    let mut bytes = joined(alloc, &["1008\r\n", OPENING])?;
    add_ids(alloc, &mut bytes, FIRST, SECOND)?;
    add_all(&mut bytes, &["\r\n"])?;
    Ok(bytes)
}

/// The second chunk: 86 times 13 bytes, and 34 of the end tuple's comma, itself and the closing are
/// 1,152.
pub fn second_chunk(alloc: Global) -> Result<Bytes, Memory> {
    let mut bytes = joined(alloc, &["480\r\n"])?;
    add_ids(alloc, &mut bytes, SECOND, BEHIND)?;
    add_all(&mut bytes, &[",", END, "\r\n"])?;
    Ok(bytes)
}

/// The update's response, and the search's reply to the end of its first chunk.
pub fn begun(alloc: Global) -> Result<Bytes, Memory> {
    let chunk = first_chunk(alloc)?;
    let mut bytes = joined(alloc, &[UPDATED, CHUNKED])?;
    bytes.extend(chunk.as_slice())?;
    Ok(bytes)
}
