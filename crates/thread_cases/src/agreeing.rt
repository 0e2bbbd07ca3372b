// Whether histories agree with what passes recorded.
use running_site::{Histories, OwnMark, Record};
use topic_book::BookEntry;

// The number of the pass that appended the entry at this place of a cell.
fn author(histories: &Histories, cell: u32, place: u64) -> Option<u64> {
    let place = usize::try_from(place).ok()?;
    match histories.shards.get(cell as usize) {
        Some(history) => Some(history.get(place)?.by),
        None => match histories.book.get(place)? {
            BookEntry::Bind { by, .. } | BookEntry::Store { by, .. } => Some(*by),
        },
    }
}

// How many entries a cell has.
fn length(histories: &Histories, cell: u32) -> u64 {
    match histories.shards.get(cell as usize) {
        Some(history) => history.len() as u64,
        None => histories.book.len() as u64,
    }
}

// Whether all entries of an own step carry the number.
fn is_own(histories: &Histories, number: u64, own: OwnMark) -> bool {
    for k in 0..own.count {
        if author(histories, own.cell, own.from.saturating_add(k)) != Some(number) {
            return false;
        }
    }
    true
}

// How many entries carry the number.
fn count_of(histories: &Histories, number: u64) -> u64 {
    let mut count: u64 = 0;
    let cells = u32::try_from(histories.shards.len()).unwrap_or(u32::MAX);
    for cell in 0..=cells {
        for place in 0..length(histories, cell) {
            if author(histories, cell, place) == Some(number) {
                count = count.saturating_add(1);
            }
        }
    }
    count
}

// How many entries the record has as appended, where each carries the number.
fn count_in(histories: &Histories, number: u64, record: &Record) -> Option<u64> {
    let mut count: u64 = 0;
    for own in record.own.as_slice() {
        if !is_own(histories, number, *own) {
            return None;
        }
        count = count.saturating_add(own.count);
    }
    Some(count)
}

// Whether no look showed more than there is.
fn were_there(histories: &Histories, record: &Record) -> bool {
    for mark in record.marks.as_slice() {
        if mark.upto > length(histories, mark.cell) {
            return false;
        }
    }
    true
}

// Whether the looks and steps of the pass of this number are those that the record has.
fn agrees(histories: &Histories, number: u64, record: Option<&Record>) -> bool {
    match record {
        Some(record) => {
            were_there(histories, record)
                && count_in(histories, number, record) == Some(count_of(histories, number))
        }
        None => false,
    }
}

/// Whether the record of each pass agrees with the histories. The passes have the numbers from 1 on.
pub fn all_agree(histories: &Histories, records: &[Option<Record>]) -> bool {
    for (k, record) in records.iter().enumerate() {
        if !agrees(histories, (k as u64).saturating_add(1), record.as_ref()) {
            return false;
        }
    }
    true
}
