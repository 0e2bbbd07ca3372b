// The reading of an expression's bytes.
ghost use Rattle.std.specs.Prelude.{◌≡◌, ◌≤◌, IfOk, IfSome};
ghost use Rattle.io_edge.specs.Edge.{Rose};
ghost use Rattle.stream_commands.specs.Inputs.{IsInput, IsReadWithin};
ghost use Rattle.stream_commands.specs.declared.input.ReadFault.TheVariants.{Failed, OutOfMemory};

use io_edge::{Source, Taken};
use std::alloc::{AllocError, Global};

/// Why an input wasn't read.
#[derive(Clone, Copy, PartialEq, Eq)]
pub enum ReadFault {
    /// A call of the source failed.
    Failed,
    /// An allocation was refused.
    OutOfMemory,
}

impl From<AllocError> for ReadFault {
    ghost from_gives = { λ _ fault. fault ≡ OutOfMemory };

    fn from(_: AllocError) -> Self {
        ReadFault::OutOfMemory
    }
}

/// Reads the input to its end, or its first 65,537 bytes: one more than an expression may have.
pub fn read_input<I: Source>(alloc: Global, input: &mut I) -> Result<Vec<u8>, ReadFault>
    ensures read { IfOk result (λ bytes.
        IsInput (I.left input.old) (I.left input.new) bytes.items) }
    ensures within { IfSome (I.left input.old) (λ all. IsReadWithin all (I.left input.new)) }
    ensures counts { I.faults input.old ≤ I.faults input.new }
    ensures cause { result ≡ Err Failed → Rose (I.faults input.old) (I.faults input.new) }
{
    let mut room = [0; 4096];
    let mut bytes = Vec::new(alloc);
    while bytes.len() < 65_537 {
        let most = room.len().min(65_537 - bytes.len());
        match input.take(&mut room[..most]) {
            Taken::Got(n) => bytes.extend_from_slice(&room[..n])?,
            Taken::Ended => return Ok(bytes),
            Taken::Failed => return Err(ReadFault::Failed),
        }
    }
    Ok(bytes)
}
