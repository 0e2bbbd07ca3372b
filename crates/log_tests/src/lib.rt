//! Tests of the public calls of the logs: of shards, of topics, and of the events over both.
#![tactic(auto)]

#[cfg(test)]
mod making;
#[cfg(test)]
mod of_once_core;
#[cfg(test)]
mod of_shard_segments;
#[cfg(test)]
mod of_shard_versions;
#[cfg(test)]
mod of_topic_book;
