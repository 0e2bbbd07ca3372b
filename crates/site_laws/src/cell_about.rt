// What is fixed of a cell of a site.
use tuple_values::Names;

/// The collections of the cell's site, whether the cell is the book's, and the limit on the
/// counted bytes of a shard, which is 0 for the book. No value of it is made.
#[derive(Drop)]
pub struct CellAbout {
    pub names: Names,
    pub is_book: bool,
    pub limit: u64,
}
