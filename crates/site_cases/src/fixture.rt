// The site of the cases.
use running_site::{Pass, Site};
use shard_versions::Record;

/// A site with its one pass, and what was recorded before the looks of a test.
#[derive(Drop)]
pub struct Fixture {
    pub site: Site,
    pub pass: Pass,
    pub kept: Record,
}
