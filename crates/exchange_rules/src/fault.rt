// The refusals of a site's calls.
ghost use Rattle.std.specs.Prelude.{◌≡◌};
ghost use Rattle.exchange_rules.specs.declared.fault.SiteFault.TheVariants.{OutOfMemory};

use thiserror::Error;
use topic_book::Binding;
use tuple_values::{Memory, Text};

/// Why a call of a site was refused. `stand` counts the writes of this call that were appended
/// before; they stay.
#[derive(Debug, Drop, Error)]
pub enum SiteFault {
    /// The counted bytes of the collection's shard with the next step's would pass the limit.
    #[error("ShardFull")]
    ShardFull {
        collection: Text,
        shard: u16,
        stand: u64,
    },
    /// The topic is bound to other values, which are these.
    #[error("TopicBound")]
    TopicBound {
        kept: Binding,
    },
    /// The topic isn't bound, and 1,000 topics or more are, as many as this number.
    #[error("BookFull")]
    BookFull {
        topics: u64,
    },
    /// An append to the log of this cell failed. Whether its step stands, the writer's own marks tell.
    #[error("LogFault")]
    LogFault {
        cell: u32,
        stand: u64,
    },
    /// The cell is closed: an append to its log failed, and so did the reading after it.
    #[error("CellClosed")]
    CellClosed {
        cell: u32,
        stand: u64,
    },
    /// An allocation was refused.
    #[error("out of memory")]
    OutOfMemory {
        stand: u64,
    },
}

/// Where memory is wanting before the call has appended a write.
impl From<Memory> for SiteFault {
    ghost from_gives = { λ _ fault. fault ≡ OutOfMemory 0 };

    fn from(_: Memory) -> Self {
        SiteFault::OutOfMemory { stand: 0 }
    }
}
