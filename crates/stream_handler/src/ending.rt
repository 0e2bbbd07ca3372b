// How the serving of a connection ends.
use crate::{Exchange, Exchanges};
use shard_versions::Record;

/// Why a connection is served no further.
#[derive(Clone, Copy, PartialEq, Eq)]
pub enum End {
    /// The source ended between messages.
    Ended,
    /// A request asked to close, or as many requests were answered as a connection has at most.
    Closed,
    /// The source ended inside a message, of which so many bytes are held.
    Cut { held: u64 },
    /// A message was refused with this status.
    Refused { status: u16 },
    /// The source failed.
    ReadFault,
    /// The sink failed.
    WriteFault,
    /// An allocation was refused.
    OutOfMemory,
}

/// How one message was served.
#[derive(Drop)]
pub enum OneEnd {
    /// A request was answered, and the connection stays.
    Served(Exchange),
    /// A request was answered, and the connection closes with it.
    Last(Exchange),
    /// No request was answered whole. `unfinished` is what one did of which the reply wasn't written
    /// whole.
    Over {
        end: End,
        unfinished: Option<Exchange>,
    },
}

/// What a connection did.
#[derive(Drop)]
pub struct SessionEnd {
    /// One for each request that was answered, in their order; the last reply may be written in
    /// part, where the sink failed or memory was wanting as it was made.
    pub exchanges: Exchanges,
    pub end: End,
    /// What the site's record holds beside them: something only where memory was wanting inside a
    /// request.
    pub rest: Record,
}
