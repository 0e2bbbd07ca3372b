// The forms in which a log is written.

/// The form of a log file: what its entries are made of.
#[derive(Clone, Copy)]
pub enum Format {
    /// Entries that are a kind, the number of a writer, and what the kind asks for.
    One,
}
