// A step as an append writes it.
ghost use Rattle.std.specs.Prelude.{◌≡◌, ◌≤◌, ◌++◌, ◌∷◌, [], length, IfOk};
ghost use Rattle.log_codec.specs.Steps.{entries_in, HoldsNoGroup};
ghost use Rattle.commit_log.specs.Frames.{sized};
ghost use Rattle.commit_log.specs.Spelling.{IsSpelled};

use log_codec::{StepRef, step_bytes};
use std::alloc::{AllocError, Global};
use tuple_values::{Bytes, Memory};

/// A step as an append writes it. An append of it takes no memory.
#[derive(Drop)]
pub struct Spelled {
    // The step's body behind its length, and the byte that ends the steps.
    pub(crate) piece: Bytes,
}

// A body behind its length, and the byte that ends the steps.
fn framed(alloc: Global, body: &[u8]) -> Result<Vec<u8>, AllocError>
    ensures { IfOk result (λ piece. piece.items ≡ sized body.now ++ (0 ∷ [])) }
{
    let mut piece = Vec::new(alloc);
    piece.extend_from_slice(&(body.len() as u64).to_be_bytes())?;
    piece.extend_from_slice(body)?;
    piece.push(0)?;
    Ok(piece)
}

/// The step as an append writes it.
pub(crate) fn spelled_of(alloc: Global, step: StepRef<'_>) -> Result<Spelled, Memory>
    requires { HoldsNoGroup (entries_in step) }
    ensures spelled { IfOk result (IsSpelled (entries_in step.entry)) }
    ensures long { IfOk result (λ spelled. 9 ≤ length spelled.piece) }
{
    let body = step_bytes(alloc, step)?;
    let piece = Bytes::from_vec(framed(alloc, body.as_slice())?);
    Ok(Spelled { piece })
}
