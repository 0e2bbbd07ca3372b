// What a head says of its message.
ghost use Rattle.std.specs.Prelude.{◌≡◌};
ghost use Rattle.form_request.specs.Stages.{is_end};

use crate::{Handler, Params};
use tuple_values::Text;

/// The head of a message that isn't refused.
#[derive(Drop)]
pub struct Plan {
    pub handler: Handler,
    pub collection: Text,
    /// The parameters of the target's query.
    pub params: Params,
    /// The number of bytes of the body.
    pub length: u32,
    /// The number of bytes of the head, without the empty lines before it.
    pub size: u32,
    pub closes: bool,
    /// Whether the reply may go in chunks.
    pub chunks: bool,
    /// Whether a `100 Continue` is still to be answered.
    pub asks: bool,
    /// Whether the body is read as parameters too.
    pub is_form: bool,
}

/// What becomes of a message by its head.
#[derive(Drop)]
pub enum Judged {
    Refuses(u16),
    Takes(Plan),
}

/// Where a stream stands.
#[derive(Drop)]
pub enum Stage {
    /// Before or inside the head of a message.
    Head,
    /// Behind the head of a message, whose body has not come whole.
    Body(Plan),
    /// At a message that was refused with this status.
    Stopped(u16),
    /// Behind a request that closes.
    Closed,
}

impl Stage {
    /// Whether nothing that follows is read.
    pub fn is_over(&self) -> bool
        ensures { result ≡ is_end self.now }
    {
        match self {
            Stage::Stopped(_) => true,
            Stage::Closed => true,
            Stage::Head => false,
            Stage::Body(_) => false,
        }
    }
}
