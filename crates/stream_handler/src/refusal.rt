// The responses to messages that are refused.
ghost use Rattle.std.specs.Prelude.{◌≡◌, IfOk};
ghost use Rattle.stream_handler.specs.Refusals.{refusal_reply, refusal_text};

use crate::response::response;
use json_text::error_text;
use std::alloc::Global;
use tuple_values::{Bytes, Memory, Text};

/// What a message that is refused with this status is told.
pub(crate) fn refusal_text(status: u16) -> &'static str
    ensures { result.now ≡ refusal_text status }
{
    match status {
        404 => "NoSuchPath",
        405 => "BadMethod",
        411 => "NoLength",
        413 => "BodyTooLarge",
        431 => "HeadTooLarge",
        501 => "ChunkedBody",
        _ => "BadMessage",
    }
}

/// The response to a message that is refused with this status.
#[tactic(auto, unfolding(crate::specs::Refusals::refusal_reply))]
pub(crate) fn refusal_reply(alloc: Global, status: u16) -> Result<Bytes, Memory>
    ensures { IfOk result (λ bytes. bytes ≡ refusal_reply status) }
{
    let msg = Text::of(alloc, refusal_text(status))?;
    let body = error_text(alloc, status, &msg, 0)?;
    response(alloc, status, true, body)
}
