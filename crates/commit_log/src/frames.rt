// The reading of a file.
ghost use Rattle.std.specs.Prelude.{ℕ, ◌≡◌, ◌≢◌, ◌^◌, ◌<◌, List, ◌∷◌, ◌++◌, length, IfErr, IfNone, IfOk, IfSome, IsErrOf};
ghost use Rattle.commit_log.specs.Frames.{end_of, magic, sized};
ghost use Rattle.commit_log.specs.Steps.{bodies_of};
ghost use Rattle.commit_log.specs.Files.{Explains, IsFileOf};
ghost use Rattle.commit_log.specs.Places.{Stands};

use crate::LogFault;
use log_codec::{LogStep, LogSteps, read_step};
use std::alloc::Global;
use tuple_values::Memory;

/// The steps of a file, and the place of the byte that ends them.
#[derive(Drop)]
pub(crate) struct Found {
    pub(crate) steps: LogSteps,
    pub(crate) end: u64,
}

// The body at the front, behind its length, and what follows it.
fn split_body(bytes: &[u8]) -> Option<(&[u8], &[u8])>
    ensures some { IfSome result (λ found.
        (bytes.now ≡ sized found.0.now ++ found.1.now) × (length found.0.now < 2 ^ 64)) }
    ensures none { IfNone result ((body after : List ℕ) → length body < 2 ^ 64
        → bytes.now ≢ sized body ++ after) }
{
    if bytes.len() < 8 {
        return None;
    }
    let (head, rest) = bytes.split_at(8);
    let size = u64::from_be_bytes([
        head[0], head[1], head[2], head[3], head[4], head[5], head[6], head[7],
    ]);
    if size > rest.len() as u64 {
        return None;
    }
    Some(rest.split_at(size as usize))
}

// What follows the eight bytes with which a file begins.
fn behind_magic(bytes: &[u8]) -> Option<&[u8]>
    ensures some { IfSome result (λ rest. bytes.now ≡ magic ++ rest.now) }
    ensures none { IfNone result ((after : List ℕ) → bytes.now ≢ magic ++ after) }
{
    match bytes {
        [83, 83, 76, 79, 71, 48, 48, 49, rest @ ..] => Some(rest),
        _ => None,
    }
}

// What stands in a step's place.
enum Place<'a> {
    // The byte that ends the steps.
    Ends,
    // A step, and what follows it.
    Step(LogStep, &'a [u8]),
    Unread,
}

// The step whose body, behind its length, is at the front.
fn framed_step(alloc: Global, tail: &[u8]) -> Result<Place<'_>, Memory>
    ensures { IfOk result (Stands (1 ∷ tail.now)) }
{
    let Some((body, after)) = split_body(tail) else {
        return Ok(Place::Unread);
    };
    match read_step(alloc, body)? {
        Some(step) => Ok(Place::Step(step, after)),
        None => Ok(Place::Unread),
    }
}

// What stands in a step's place, at the front of these bytes.
fn next_step(alloc: Global, bytes: &[u8]) -> Result<Place<'_>, Memory>
    ensures { IfOk result (Stands bytes.now) }
{
    match bytes {
        [0, ..] => Ok(Place::Ends),
        [1, tail @ ..] => framed_step(alloc, tail),
        _ => Ok(Place::Unread),
    }
}

/// The steps of the bytes of a file.
pub(crate) fn read_steps(alloc: Global, bytes: &[u8]) -> Result<Found, LogFault>
    requires { 0 < length bytes.now }
    ensures found { IfOk result (λ found. IsFileOf found.steps bytes.now) }
    ensures end { IfOk result (λ found. found.end ≡ end_of (bodies_of found.steps)) }
    ensures fault { IfErr result (Explains bytes.now) }
    ensures calm { IsErrOf result LogFault.DiskFault → ⊥ }
{
    let Some(mut rest) = behind_magic(bytes) else {
        return Err(LogFault::Damaged { at: 0 });
    };
    let mut steps = LogSteps::new(alloc);
    loop {
        let at = (bytes.len() - rest.len()) as u64;
        match next_step(alloc, rest)? {
            Place::Ends => return Ok(Found { steps, end: at }),
            Place::Step(step, after) => {
                steps.push(step)?;
                rest = after;
            }
            Place::Unread => return Err(LogFault::Damaged { at }),
        }
    }
}
