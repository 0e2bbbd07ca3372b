// Where histories break the law.
use topic_book::TopicKey;

/// Where histories break the law.
#[derive(Drop)]
pub enum Breach {
    /// A Sent that isn't a delivery of a committed write, that no Mark follows, or whose version isn't
    /// above those sent before under its source and id. `entry` is its place in the cell, from 0.
    BadSent {
        cell: u32,
        entry: u64,
    },
    /// A checkpoint that stands for more than was sent.
    Uncovered {
        key: TopicKey,
        shard: u16,
        upto: u64,
    },
}
