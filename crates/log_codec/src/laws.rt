// Spellings are read in one way.
ghost use Rattle.std.specs.Prelude.{◌≡◌, List};
ghost use Rattle.log_codec.specs.Codes.{IsReadInOneWay};
ghost use Rattle.log_codec.specs.Entries.{spelled_entry, IsSpellableEntry};
ghost use Rattle.log_codec.specs.BookEntries.{spelled_book, IsSpellableBook};
ghost use Rattle.log_codec.specs.Steps.{body_of, AreSpellable};
ghost use Rattle.exchange_rules.specs.declared.log_entry.LogEntry.{LogEntry};

/// Two entries that stand at one front are one, and leave the same rest.
pub fn one_entry()
    ensures { IsReadInOneWay IsSpellableEntry spelled_entry }
{}

/// The same of two entries of the book.
pub fn one_book()
    ensures { IsReadInOneWay IsSpellableBook spelled_book }
{}

/// Two steps that have one body are one.
pub fn one_step()
    ensures { (s t : List LogEntry) → AreSpellable s → AreSpellable t
        → body_of s ≡ body_of t → s ≡ t }
{}
