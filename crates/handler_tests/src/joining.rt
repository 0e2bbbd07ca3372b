// Pieces that are joined, what is compared with them, and inputs of them.
use io_edge::MemorySource;
use std::alloc::Global;
use tuple_values::{Bytes, Memory, Numbers};

/// Adds pieces, one behind another.
pub fn add_all(bytes: &mut Bytes, pieces: &[&str]) -> Result<(), Memory> {
    for piece in pieces {
        bytes.extend(piece.as_bytes())?;
    }
    Ok(())
}

/// The bytes of these pieces, one behind another.
pub fn joined(alloc: Global, pieces: &[&str]) -> Result<Bytes, Memory> {
    let mut bytes = Bytes::new(alloc);
    add_all(&mut bytes, pieces)?;
    Ok(bytes)
}

/// Whether the bytes are these pieces, one behind another.
pub fn is_joined(bytes: &[u8], pieces: &[&str]) -> bool {
    let mut rest = bytes;
    for piece in pieces {
        let piece = piece.as_bytes();
        if !rest.starts_with(piece) {
            return false;
        }
        rest = &rest[piece.len()..];
    }
    rest.is_empty()
}

/// Which call is to fail, as a list: this one, or none.
pub fn numbers_of(alloc: Global, call: Option<u64>) -> Result<Numbers, Memory> {
    let mut numbers = Numbers::new(alloc);
    if let Some(call) = call {
        numbers.push(call)?;
    }
    Ok(numbers)
}

/// An input of these bytes, of which at most five come at once; this call of it fails.
pub fn source(alloc: Global, bytes: Bytes, failing: Option<u64>) -> Result<MemorySource, Memory> {
    let calls = numbers_of(alloc, failing)?;
    Ok(MemorySource::new(bytes, 5, calls))
}
