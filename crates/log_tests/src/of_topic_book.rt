// Tests of topic_book, by books worked by hand from the rules.
use crate::making;
use crate::making::{topic_key, versions};
use std::alloc::Global;
use topic_book::{Binding, BookEntry, BookFault, BookState};
use tuple_values::{Memory, TryCopy};

// From the source to no destination, with initial versions 3 and 0.
fn binding(alloc: Global, src: &str) -> Result<Binding, Memory> {
    let init = versions(alloc, &[3, 0])?;
    making::binding(alloc, src, None, init)
}

fn bind(book: &mut BookState, alloc: Global, id: &str, src: &str) -> Result<(), BookFault> {
    let topic = topic_key(alloc, id)?;
    let values = binding(alloc, src)?;
    book.bind(1, topic, values)
}

fn binds(book: &mut BookState, alloc: Global, id: &str, src: &str) -> bool {
    bind(book, alloc, id, src).is_ok()
}

// Whether the topic stays bound to this source.
fn keeps(book: &mut BookState, alloc: Global, id: &str, src: &str, want: &str) -> bool {
    match bind(book, alloc, id, src) {
        Err(BookFault::TopicBound { kept }) => kept.src.as_str() == want,
        _ => false,
    }
}

fn binds_once(book: &mut BookState, alloc: Global) -> bool {
    binds(book, alloc, "t", "c")
        && binds(book, alloc, "t", "c")
        && keeps(book, alloc, "t", "e", "c")
        && binds(book, alloc, "u", "e")
        && book.len() == 2
}

#[test]
fn a_topic_is_bound_once(rt: HostRuntime) {
    let mut book = BookState::empty(rt.alloc());
    assert!(rt; binds_once(&mut book, rt.alloc()));
}

// Stores the versions where they are as many as the topic's.
fn store(book: &mut BookState, alloc: Global, first: u64, second: u64) -> Result<(), Memory> {
    let topic = topic_key(alloc, "t")?;
    let upto = versions(alloc, &[first, second])?;
    if !book.fits(&topic, &upto) {
        return Ok(());
    }
    book.store(1, &topic, upto)
}

fn reads(book: &BookState, alloc: Global, first: u64, second: u64) -> Result<bool, Memory> {
    let topic = topic_key(alloc, "t")?;
    match book.checkpoint(&topic) {
        Some(upto) => Ok(upto.as_slice() == [first, second].as_slice()),
        None => Ok(false),
    }
}

// Whether the versions are stored and the checkpoint is then this.
fn raises(book: &mut BookState, alloc: Global, upto: (u64, u64), want: (u64, u64)) -> bool {
    let is_stored = store(book, alloc, upto.0, upto.1).is_ok();
    is_stored && matches!(reads(book, alloc, want.0, want.1), Ok(true))
}

fn raises_each_place(book: &mut BookState, alloc: Global) -> bool {
    binds(book, alloc, "t", "c")
        && raises(book, alloc, (2, 0), (3, 0))
        && raises(book, alloc, (2, 5), (3, 5))
        && raises(book, alloc, (7, 1), (7, 5))
        && book.len() == 3
}

#[test]
fn a_checkpoint_is_raised_place_by_place(rt: HostRuntime) {
    let mut book = BookState::empty(rt.alloc());
    assert!(rt; raises_each_place(&mut book, rt.alloc()));
}

fn store_entry(alloc: Global) -> Result<BookEntry, Memory> {
    let key = topic_key(alloc, "t")?;
    let upto = versions(alloc, &[1, 9])?;
    Ok(BookEntry::Store { by: 4, key, upto })
}

// Appends a copy of the entry where it may follow; whether it may.
fn append(book: &mut BookState, alloc: Global, entry: &BookEntry) -> Result<bool, BookFault> {
    if !book.may_follow(entry) {
        return Ok(false);
    }
    let copy = entry.copy(alloc)?;
    book.reserve(&copy)?;
    book.append(copy);
    Ok(true)
}

fn appends(book: &mut BookState, alloc: Global) -> bool {
    match store_entry(alloc) {
        Ok(entry) => matches!(append(book, alloc, &entry), Ok(true)),
        Err(_) => false,
    }
}

fn appends_once_bound(book: &mut BookState, alloc: Global) -> bool {
    !appends(book, alloc)
        && binds(book, alloc, "t", "c")
        && appends(book, alloc)
        && reads(book, alloc, 3, 9) == Ok(true)
        && book.len() == 2
}

#[test]
fn an_entry_that_may_follow_is_appended(rt: HostRuntime) {
    let mut book = BookState::empty(rt.alloc());
    assert!(rt; appends_once_bound(&mut book, rt.alloc()));
}

fn bind_number(book: &mut BookState, alloc: Global, number: u64) -> Result<(), BookFault> {
    match format!(in alloc; "{number}") {
        Ok(id) => bind(book, alloc, id.as_str(), "c"),
        Err(_) => Err(BookFault::OutOfMemory),
    }
}

fn fill(book: &mut BookState, alloc: Global, topics: u64) -> Result<(), BookFault> {
    for number in 0..topics {
        bind_number(book, alloc, number)?;
    }
    Ok(())
}

fn is_full(book: &mut BookState, alloc: Global, number: u64) -> bool {
    matches!(
        bind_number(book, alloc, number),
        Err(BookFault::BookFull { topics: 1000 })
    )
}

// Whether so many topics leave room for one more, and for none behind it.
fn takes_one_more(book: &mut BookState, alloc: Global, topics: u64) -> bool {
    fill(book, alloc, topics).is_ok()
        && bind_number(book, alloc, 1000).is_ok()
        && is_full(book, alloc, 1001)
}

#[test]
fn the_thousandth_topic_is_the_last(rt: HostRuntime) {
    let mut book = BookState::empty(rt.alloc());
    assert!(rt; takes_one_more(&mut book, rt.alloc(), 999));
}

fn has_text(alloc: Global, fault: BookFault, want: &str) -> Result<bool, Memory> {
    let text = format!(in alloc; "{fault}")?;
    Ok(text.as_str() == want)
}

fn have_texts(alloc: Global) -> Result<bool, Memory> {
    let kept = binding(alloc, "c")?;
    Ok(
        has_text(alloc, BookFault::TopicBound { kept }, "TopicBound")?
            && has_text(alloc, BookFault::BookFull { topics: 1000 }, "BookFull")?
            && has_text(alloc, BookFault::OutOfMemory, "out of memory")?,
    )
}

#[test]
fn a_refusal_is_told_by_its_name(rt: HostRuntime) {
    assert!(rt; have_texts(rt.alloc()) == Ok(true));
}
