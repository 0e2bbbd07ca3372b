// What a writer appends to a cell of a site at once.
use shard_versions::Step;
use topic_book::BookEntry;

/// A step of a shard, or an entry of the book, under the writer's number.
#[derive(Drop)]
pub enum Sealing {
    Shard(Step),
    Book(BookEntry),
}
