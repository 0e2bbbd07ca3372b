// The same work at a site of one pass, without a thread.
use crate::documents::collections;
use crate::indexing::index_all;
use running_site::SiteOf;
use std::alloc::Global;
use std::sync::Wait;
use tuple_values::Memory;

/// The limit on the counted bytes of a shard.
const LIMIT: u64 = 268_435_456;

/// Puts the documents of so many batches into a collection of so many shards; how many, if none is
/// refused.
pub fn index_alone<R: Wait>(
    rt: &R,
    alloc: Global,
    shards: u16,
    batches: u64,
) -> Result<Option<u64>, Memory> {
    let (site, mut pass) = SiteOf::start_alone(alloc, collections(alloc, 1, shards)?, LIMIT)?;
    Ok(index_all(rt, alloc, &site, &mut pass, 0, 0, batches))
}
