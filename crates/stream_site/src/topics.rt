// The calls on topics: the state of one, a Bind and a Store.
ghost use Rattle.std.specs.Prelude.{◌≡◌, ◌<◌, length, IfErr, IfOk, Some, None};
ghost use Rattle.topic_book.specs.Books.{binding_of, checkpoints};
ghost use Rattle.topic_book.specs.Fitness.{IsOnCollections};
ghost use Rattle.once_core.specs.Allowed.{MayStore};
ghost use Rattle.query_syntax.specs.Meaning.{IsReadable};
ghost use Rattle.exchange_rules.specs.Bindings.{bind_again, bind_course, bind_new, bind_seen, book_cell, book_seen, checkpoint_in, store_course, store_seen, topic_state_course};
ghost use Rattle.exchange_rules.specs.Calls.{Answered, Completed, Passed};
ghost use Rattle.site_laws.specs.SiteCells.{histories_in};
ghost use Rattle.stream_site.specs.Topics.{HasStoredNone};

use crate::place::find_book;
use crate::refusal::unadded;
use crate::{SiteFault, Turns};
use std::alloc::Global;
use topic_book::{Binding, BookEntry, TopicKey, is_alike};
use tuple_values::{Memory, TryCopy, Versions};

/// The topic's checkpoint in what was just seen of the book, and none where it isn't bound.
fn state_seen_over<T: Turns>(
    alloc: Global,
    site: &T,
    key: &TopicKey,
) -> Result<Option<Versions>, Memory>
    requires { T.holds site.now (book_cell (T.layout site.now).names) }
    ensures { IfOk result
        (λ state. state ≡ checkpoints key.now (book_seen (T.layout site.now) (T.writer site.now))) }
{
    match site.checkpoint(key) {
        Some(upto) => Ok(Some(upto.copy(alloc)?)),
        None => Ok(None),
    }
}

/// The same, with no versions where the topic isn't bound.
fn checkpoint_seen_over<T: Turns>(
    alloc: Global,
    site: &T,
    key: &TopicKey,
) -> Result<Versions, Memory>
    requires { T.holds site.now (book_cell (T.layout site.now).names) }
    ensures { IfOk result (λ upto.
        upto ≡ checkpoint_in key.now (book_seen (T.layout site.now) (T.writer site.now))) }
{
    match site.checkpoint(key) {
        Some(upto) => upto.copy(alloc),
        None => Ok(Versions::new(alloc)),
    }
}

/// What a topic that is bound to these values is answered for others.
fn bind_again_over<T: Turns>(
    alloc: Global,
    site: &T,
    key: &TopicKey,
    binding: &Binding,
    kept: &Binding,
) -> Result<Versions, SiteFault>
    requires { T.holds site.now (book_cell (T.layout site.now).names) }
    ensures { Passed 0 (T.writer site.now) (T.writer site.now)
        (bind_again key.now binding.now (book_seen (T.layout site.now) (T.writer site.now)) kept.now)
        0 result }
{
    if is_alike(kept, binding) {
        let upto = checkpoint_seen_over(alloc, site, key)?;
        return Ok(upto);
    }
    let kept = kept.copy(alloc)?;
    Err(SiteFault::TopicBound { kept })
}

/// A Bind of a topic that isn't bound.
fn bind_new_over<T: Turns>(
    alloc: Global,
    site: &mut T,
    key: &TopicKey,
    binding: Binding,
) -> Result<Versions, SiteFault>
    requires in_range { book_cell (T.layout site.old).names < length (T.writer site.old).seen }
    requires holds { T.holds site.old (book_cell (T.layout site.old).names) }
    requires unbound { binding_of key.now (book_seen (T.layout site.old) (T.writer site.old)) ≡ None }
    requires on { IsOnCollections (T.layout site.old).names key.now binding }
    requires readable { IsReadable binding.q }
    ensures course { Passed 0 (T.writer site.old) (T.writer site.new)
        (bind_new (T.layout site.old).names key.now binding
        (book_seen (T.layout site.old) (T.writer site.old))) 0 result }
    ensures layout { T.layout site.new ≡ T.layout site.old }
    ensures home { T.home site.new ≡ T.home site.old }
{
    let copy = key.copy(alloc)?;
    let by = site.number();
    match site.append_entry(BookEntry::Bind {
        by,
        key: copy,
        binding,
    }) {
        Ok(()) => {}
        Err(refusal) => return Err(unadded(find_book(site), refusal)),
    }
    let upto = checkpoint_seen_over(alloc, site, key)?;
    Ok(upto)
}

/// What is done of a Bind by what was just seen of the book.
fn bind_seen_over<T: Turns>(
    alloc: Global,
    site: &mut T,
    key: &TopicKey,
    binding: Binding,
) -> Result<Versions, SiteFault>
    requires in_range { book_cell (T.layout site.old).names < length (T.writer site.old).seen }
    requires holds { T.holds site.old (book_cell (T.layout site.old).names) }
    requires on { IsOnCollections (T.layout site.old).names key.now binding }
    requires readable { IsReadable binding.q }
    ensures course { Passed 0 (T.writer site.old) (T.writer site.new)
        (bind_seen (T.layout site.old).names key.now binding
        (book_seen (T.layout site.old) (T.writer site.old))
        (binding_of key.now (book_seen (T.layout site.old) (T.writer site.old)))) 0 result }
    ensures layout { T.layout site.new ≡ T.layout site.old }
    ensures home { T.home site.new ≡ T.home site.old }
{
    match site.bound(key) {
        Some(kept) => bind_again_over(alloc, site, key, &binding, kept),
        None => bind_new_over(alloc, site, key, binding),
    }
}

/// One look at the book, and a Bind where the topic isn't bound.
fn bind_step_over<T: Turns>(
    alloc: Global,
    site: &mut T,
    key: &TopicKey,
    binding: Binding,
) -> Result<Versions, SiteFault>
    requires on { IsOnCollections (T.layout site.old).names key.now binding }
    requires readable { IsReadable binding.q }
    ensures course { Answered (T.writer site.old) (T.writer site.new)
        (bind_course (T.layout site.old).names key.now binding) result }
    ensures layout { T.layout site.new ≡ T.layout site.old }
    ensures home { T.home site.new ≡ T.home site.old }
{
    site.make_room(1)?;
    let book = find_book(site);
    site.look(book)?;
    bind_seen_over(alloc, site, key, binding)
}

/// Binds the topic at one look at the book; one that is bound alike stays as it is. The answer is
/// the topic's checkpoint afterwards. The writer has no turn afterwards.
pub fn bind_topic_over<T: Turns>(
    alloc: Global,
    site: &mut T,
    key: &TopicKey,
    binding: Binding,
) -> Result<Versions, SiteFault>
    requires on { IsOnCollections (T.layout site.old).names key.now binding }
    requires readable { IsReadable binding.q }
    ensures course { Answered (T.writer site.old) (T.writer site.new)
        (bind_course (T.layout site.old).names key.now binding) result }
    ensures free { T.free site.new }
    ensures layout { T.layout site.new ≡ T.layout site.old }
    ensures home { T.home site.new ≡ T.home site.old }
{
    let result = bind_step_over(alloc, site, key, binding);
    site.leave();
    result
}

/// One look at the book, and the topic's checkpoint.
fn state_step_over<T: Turns>(
    alloc: Global,
    site: &mut T,
    key: &TopicKey,
) -> Result<Option<Versions>, SiteFault>
    ensures course { Completed (T.writer site.old) (T.writer site.new)
        (topic_state_course (T.layout site.old).names key.now) result }
    ensures layout { T.layout site.new ≡ T.layout site.old }
    ensures home { T.home site.new ≡ T.home site.old }
    ensures later { T.later site.old site.new }
{
    site.make_room(1)?;
    let book = find_book(site);
    site.look(book)?;
    let state = state_seen_over(alloc, site, key)?;
    Ok(state)
}

/// One look at the book: up to where the topic was delivered, and none where it isn't bound. The
/// writer has no turn afterwards.
pub fn topic_state_over<T: Turns>(
    alloc: Global,
    site: &mut T,
    key: &TopicKey,
) -> Result<Option<Versions>, SiteFault>
    ensures course { Completed (T.writer site.old) (T.writer site.new)
        (topic_state_course (T.layout site.old).names key.now) result }
    ensures free { T.free site.new }
    ensures layout { T.layout site.new ≡ T.layout site.old }
    ensures home { T.home site.new ≡ T.home site.old }
    ensures later { T.later site.old site.new }
{
    let result = state_step_over(alloc, site, key);
    site.leave();
    result
}

/// A Store where it raises something in what was just seen of the book.
fn store_seen_over<T: Turns>(
    alloc: Global,
    site: &mut T,
    key: &TopicKey,
    upto: Versions,
) -> Result<(), SiteFault>
    requires in_range { book_cell (T.layout site.old).names < length (T.writer site.old).seen }
    requires holds { T.holds site.old (book_cell (T.layout site.old).names) }
    requires delivered { MayStore (T.layout site.old).names
        (histories_in (T.layout site.old).names (T.writer site.old).seen) key.now upto }
    ensures course { Passed 0 (T.writer site.old) (T.writer site.new)
        (store_seen (T.layout site.old).names key.now upto
        (book_seen (T.layout site.old) (T.writer site.old))) 0 result }
    ensures unstored { IfErr result (HasStoredNone (book_cell (T.layout site.old).names)
        (T.writer site.old) (T.writer site.new)) }
    ensures layout { T.layout site.new ≡ T.layout site.old }
    ensures home { T.home site.new ≡ T.home site.old }
{
    if !site.raises(key, &upto) {
        return Ok(());
    }
    let key = key.copy(alloc)?;
    let by = site.number();
    match site.append_entry(BookEntry::Store { by, key, upto }) {
        Ok(()) => Ok(()),
        Err(refusal) => Err(unadded(find_book(site), refusal)),
    }
}

/// One look at the book, and a Store where it raises something.
fn store_step_over<T: Turns>(
    alloc: Global,
    site: &mut T,
    key: &TopicKey,
    upto: Versions,
) -> Result<(), SiteFault>
    requires { MayStore (T.layout site.old).names
        (histories_in (T.layout site.old).names (T.writer site.old).seen) key.now upto }
    ensures course { Answered (T.writer site.old) (T.writer site.new)
        (store_course (T.layout site.old).names key.now upto) result }
    ensures unstored { IfErr result (HasStoredNone (book_cell (T.layout site.old).names)
        (T.writer site.old) (T.writer site.new)) }
    ensures layout { T.layout site.new ≡ T.layout site.old }
    ensures home { T.home site.new ≡ T.home site.old }
{
    site.make_room(1)?;
    let book = find_book(site);
    site.look(book)?;
    store_seen_over(alloc, site, key, upto)
}

/// Stores at one look at the book up to where the topic was delivered; where that raises nothing,
/// nothing is added. The writer has seen that it was delivered. It has no turn afterwards. After an
/// `Err` nothing is added, but after a fault of the book's log the Store stands or it doesn't.
pub fn store_topic_over<T: Turns>(
    alloc: Global,
    site: &mut T,
    key: &TopicKey,
    upto: Versions,
) -> Result<(), SiteFault>
    requires { MayStore (T.layout site.old).names
        (histories_in (T.layout site.old).names (T.writer site.old).seen) key.now upto }
    ensures course { Answered (T.writer site.old) (T.writer site.new)
        (store_course (T.layout site.old).names key.now upto) result }
    ensures unstored { IfErr result (HasStoredNone (book_cell (T.layout site.old).names)
        (T.writer site.old) (T.writer site.new)) }
    ensures free { T.free site.new }
    ensures layout { T.layout site.new ≡ T.layout site.old }
    ensures home { T.home site.new ≡ T.home site.old }
{
    let result = store_step_over(alloc, site, key, upto);
    site.leave();
    result
}
