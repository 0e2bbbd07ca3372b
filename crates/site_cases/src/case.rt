// One action, carried out at a site.
ghost use Rattle.std.specs.Prelude.{◌<◌, Decides, IfOk, IsTrue};
ghost use Rattle.query_syntax.specs.Meaning.{IsReadable};
ghost use Rattle.topic_book.specs.Fitness.{shards_of, IsOnCollections};
ghost use Rattle.running_site.specs.Sites.{IsPassAt};

use crate::fixture::Fixture;
use crate::keeping::{items_of, may_store, take_kept};
use crate::opening::{DESTINATION, SOURCE, begin};
use crate::texts::{numbers_text, record_text, sent_text};
use once_core::{is_on_collections, is_readable};
use std::alloc::Global;
use std::sync::Wait;
use stream_site::{SiteFault, are_storable_writes, shards_of};
use topic_book::{Binding, TopicKey};
use tuple_values::{FieldList, Memory, Text, Tuple, Value, Versions, Write, Writes};

fn not_allowed(alloc: Global) -> Result<Text, Memory> {
    Text::of(alloc, "not allowed")
}

fn destination_of(binding: &Binding) -> &str {
    match &binding.dest {
        Some(dest) => dest.as_str(),
        None => "-",
    }
}

// What a refusal says. Want of memory stays.
fn refusal(alloc: Global, fault: &SiteFault) -> Result<Text, Memory> {
    let text = match fault {
        SiteFault::ShardFull {
            collection,
            shard,
            stand,
        } => {
            let (collection, shard, stand) = (collection.as_str(), *shard, *stand);
            format!(in alloc; "ShardFull {collection} {shard} after {stand}")?
        }
        SiteFault::TopicBound { kept } => {
            let (dest, query) = (destination_of(kept), kept.q.as_str());
            format!(in alloc; "TopicBound {dest} {query}")?
        }
        SiteFault::BookFull { topics } => {
            let topics = *topics;
            format!(in alloc; "BookFull {topics}")?
        }
        SiteFault::LogFault { cell, stand } => {
            let (cell, stand) = (*cell, *stand);
            format!(in alloc; "LogFault {cell} after {stand}")?
        }
        SiteFault::CellClosed { cell, stand } => {
            let (cell, stand) = (*cell, *stand);
            format!(in alloc; "CellClosed {cell} after {stand}")?
        }
        SiteFault::OutOfMemory { .. } => return Err(Memory::OutOfMemory),
    };
    Ok(Text::from_string(text))
}

// The words, which stand with a blank between them.
fn words(alloc: Global, rest: &str) -> Result<FieldList, Memory> {
    let mut words = FieldList::new(alloc);
    for word in rest.split_whitespace() {
        words.push(Text::of(alloc, word)?)?;
    }
    Ok(words)
}

// The numbers that the words write; a word that writes none is left out.
fn numbers(alloc: Global, rest: &str) -> Result<Versions, Memory> {
    let mut numbers = Versions::new(alloc);
    for word in rest.split_whitespace() {
        if let Ok(number) = word.parse::<u64>() {
            numbers.push(number)?;
        }
    }
    Ok(numbers)
}

fn put_id(alloc: Global, document: &mut Tuple, id: &str) -> Result<(), Memory> {
    let name = Text::of(alloc, "id")?;
    document.put(name, Value::Text(Text::of(alloc, id)?))
}

// A document of this id alone.
fn document(alloc: Global, id: &str) -> Result<Tuple, Memory> {
    let mut document = Tuple::empty(alloc);
    put_id(alloc, &mut document, id)?;
    Ok(document)
}

// Puts of documents of these ids alone.
fn puts(alloc: Global, ids: &str) -> Result<Writes, Memory> {
    let mut writes = Writes::new(alloc);
    for id in ids.split_whitespace() {
        writes.push(Write::Put(document(alloc, id)?))?;
    }
    Ok(writes)
}

fn dels(alloc: Global, ids: &str) -> Result<Writes, Memory> {
    let mut writes = Writes::new(alloc);
    for id in ids.split_whitespace() {
        writes.push(Write::Del(Text::of(alloc, id)?))?;
    }
    Ok(writes)
}

// Whether there is a collection of this name with a shard.
fn knows(fixture: &Fixture, collection: &Text) -> bool
    ensures { Decides result (0 < shards_of fixture.now.site.names collection.now) }
{
    shards_of(fixture.site.names(), collection.as_str()) > 0
}

// An update of the source with a commit.
fn write_to<R: Wait>(
    rt: &R,
    alloc: Global,
    fixture: &mut Fixture,
    source: &Text,
    writes: Writes,
) -> Result<Text, Memory>
    requires { IsPassAt fixture.old.site fixture.old.pass }
    ensures { IsPassAt fixture.new.site fixture.new.pass }
{
    if !knows(fixture, source) || !are_storable_writes(&writes) {
        return not_allowed(alloc);
    }
    match fixture
        .site
        .index(rt, alloc, &mut fixture.pass, source, writes, true)
    {
        Ok(count) => Ok(Text::from_string(format!(in alloc; "indexed {count}")?)),
        Err(fault) => refusal(alloc, &fault),
    }
}

fn update<R: Wait>(rt: &R, alloc: Global, fixture: &mut Fixture, ids: &str) -> Result<Text, Memory>
    requires { IsPassAt fixture.old.site fixture.old.pass }
    ensures { IsPassAt fixture.new.site fixture.new.pass }
{
    let source = Text::of(alloc, SOURCE)?;
    write_to(rt, alloc, fixture, &source, puts(alloc, ids)?)
}

fn delete<R: Wait>(rt: &R, alloc: Global, fixture: &mut Fixture, ids: &str) -> Result<Text, Memory>
    requires { IsPassAt fixture.old.site fixture.old.pass }
    ensures { IsPassAt fixture.new.site fixture.new.pass }
{
    let source = Text::of(alloc, SOURCE)?;
    write_to(rt, alloc, fixture, &source, dels(alloc, ids)?)
}

fn key_of(alloc: Global, id: &str) -> Result<TopicKey, Memory> {
    let checkpoints = Text::of(alloc, SOURCE)?;
    let id = Text::of(alloc, id)?;
    Ok(TopicKey { checkpoints, id })
}

// The field that each document has.
fn id_alone(alloc: Global) -> Result<FieldList, Memory> {
    let mut fields = FieldList::new(alloc);
    fields.push(Text::of(alloc, "id")?)?;
    Ok(fields)
}

// The first versions of the two shards.
fn first_versions(alloc: Global) -> Result<Versions, Memory> {
    let mut init = Versions::new(alloc);
    init.push(0)?;
    init.push(0)?;
    Ok(init)
}

// The destination that the word says; `-` for none.
fn destination(alloc: Global, word: &str) -> Result<Option<Text>, Memory> {
    if word == "-" {
        return Ok(None);
    }
    Ok(Some(Text::of(alloc, word)?))
}

// A binding of a topic on the source from its first versions on; `-` for no destination.
fn binding_of(alloc: Global, dest: &str, query: &str) -> Result<Binding, Memory> {
    Ok(Binding {
        src: Text::of(alloc, SOURCE)?,
        q: Text::of(alloc, query)?,
        fields: id_alone(alloc)?,
        dest: destination(alloc, dest)?,
        init: first_versions(alloc)?,
    })
}

// Whether the topic may be bound so: it is on known collections, and its query can be read.
fn may_bind(
    alloc: Global,
    fixture: &Fixture,
    key: &TopicKey,
    binding: &Binding,
) -> Result<bool, Memory>
    ensures { IfOk result (λ may. IsTrue may
        → IsOnCollections fixture.now.site.names key.now binding.now × IsReadable binding.now.q) }
{
    if !is_on_collections(fixture.site.names().as_slice(), key, binding) {
        return Ok(false);
    }
    is_readable(alloc, &binding.q)
}

// Binds the topic, where that may be asked.
fn bind_topic<R: Wait>(
    rt: &R,
    alloc: Global,
    fixture: &mut Fixture,
    key: &TopicKey,
    binding: Binding,
) -> Result<Option<Result<Versions, SiteFault>>, Memory>
    requires { IsPassAt fixture.old.site fixture.old.pass }
    ensures { IsPassAt fixture.new.site fixture.new.pass }
{
    if !may_bind(alloc, fixture, key, &binding)? {
        return Ok(None);
    }
    Ok(Some(
        fixture
            .site
            .bind_topic(rt, alloc, &mut fixture.pass, key, binding),
    ))
}

fn bind_to<R: Wait>(
    rt: &R,
    alloc: Global,
    fixture: &mut Fixture,
    key: &TopicKey,
    binding: Binding,
) -> Result<Text, Memory>
    requires { IsPassAt fixture.old.site fixture.old.pass }
    ensures { IsPassAt fixture.new.site fixture.new.pass }
{
    match bind_topic(rt, alloc, fixture, key, binding)? {
        Some(Ok(upto)) => numbers_text(alloc, &upto),
        Some(Err(fault)) => refusal(alloc, &fault),
        None => not_allowed(alloc),
    }
}

fn bind<R: Wait>(rt: &R, alloc: Global, fixture: &mut Fixture, rest: &str) -> Result<Text, Memory>
    requires { IsPassAt fixture.old.site fixture.old.pass }
    ensures { IsPassAt fixture.new.site fixture.new.pass }
{
    let (topic, rest) = rest.split_once(' ').unwrap_or((rest, ""));
    let (dest, query) = rest.split_once(' ').unwrap_or((rest, ""));
    let key = key_of(alloc, topic)?;
    bind_to(rt, alloc, fixture, &key, binding_of(alloc, dest, query)?)
}

// How many topics were bound, and what the next is answered.
fn filled(alloc: Global, count: u64, fault: &SiteFault) -> Result<Text, Memory> {
    let answer = refusal(alloc, fault)?;
    let answer = answer.as_str();
    Ok(Text::from_string(format!(in alloc; "bound {count} {answer}")?))
}

// Binds the topic behind so many others: none where it is bound, else the answer.
fn fill_behind<R: Wait>(
    rt: &R,
    alloc: Global,
    fixture: &mut Fixture,
    key: &TopicKey,
    count: u64,
) -> Result<Option<Text>, Memory>
    requires { IsPassAt fixture.old.site fixture.old.pass }
    ensures { IsPassAt fixture.new.site fixture.new.pass }
{
    match bind_topic(rt, alloc, fixture, key, binding_of(alloc, "-", "*:*")?)? {
        Some(Ok(_)) => Ok(None),
        Some(Err(fault)) => Ok(Some(filled(alloc, count, &fault)?)),
        None => Ok(Some(not_allowed(alloc)?)),
    }
}

fn filling_key(alloc: Global, count: u64) -> Result<TopicKey, Memory> {
    let id = format!(in alloc; "filling{count}")?;
    key_of(alloc, id.as_str())
}

// Binds topics of other names until one isn't bound: how many were, and what the next is answered.
fn fill<R: Wait>(rt: &R, alloc: Global, fixture: &mut Fixture) -> Result<Text, Memory>
    requires { IsPassAt fixture.old.site fixture.old.pass }
    ensures { IsPassAt fixture.new.site fixture.new.pass }
{
    for count in 0..10_000 {
        let key = filling_key(alloc, count)?;
        if let Some(answer) = fill_behind(rt, alloc, fixture, &key, count)? {
            return Ok(answer);
        }
    }
    Text::of(alloc, "none refused")
}

fn state<R: Wait>(rt: &R, alloc: Global, fixture: &mut Fixture, topic: &str) -> Result<Text, Memory>
    requires { IsPassAt fixture.old.site fixture.old.pass }
    ensures { IsPassAt fixture.new.site fixture.new.pass }
{
    let key = key_of(alloc, topic)?;
    match fixture.site.topic_state(rt, alloc, &mut fixture.pass, &key) {
        Ok(Some(upto)) => numbers_text(alloc, &upto),
        Ok(None) => Text::of(alloc, "unbound"),
        Err(fault) => refusal(alloc, &fault),
    }
}

fn store<R: Wait>(rt: &R, alloc: Global, fixture: &mut Fixture, rest: &str) -> Result<Text, Memory>
    requires { IsPassAt fixture.old.site fixture.old.pass }
    ensures { IsPassAt fixture.new.site fixture.new.pass }
{
    let (topic, rest) = rest.split_once(' ').unwrap_or((rest, ""));
    let key = key_of(alloc, topic)?;
    store_to(rt, alloc, fixture, &key, numbers(alloc, rest)?)
}

fn store_to<R: Wait>(
    rt: &R,
    alloc: Global,
    fixture: &mut Fixture,
    key: &TopicKey,
    upto: Versions,
) -> Result<Text, Memory>
    requires { IsPassAt fixture.old.site fixture.old.pass }
    ensures { IsPassAt fixture.new.site fixture.new.pass }
{
    if !may_store(rt, alloc, fixture, key, &upto)? {
        return not_allowed(alloc);
    }
    match fixture
        .site
        .store_topic(rt, alloc, &mut fixture.pass, key, upto)
    {
        Ok(()) => Text::of(alloc, "done"),
        Err(fault) => refusal(alloc, &fault),
    }
}

// Delivers current documents of the source: those of these ids, or all where there is no id.
fn send_to<R: Wait>(
    rt: &R,
    alloc: Global,
    fixture: &mut Fixture,
    dest: &Text,
    src: &Text,
    ids: &FieldList,
) -> Result<Text, Memory>
    requires { IsPassAt fixture.old.site fixture.old.pass }
    ensures { IsPassAt fixture.new.site fixture.new.pass }
{
    if !knows(fixture, dest) || !knows(fixture, src) || src.as_str() == dest.as_str() {
        return not_allowed(alloc);
    }
    let Some(batch) = items_of(rt, alloc, fixture, src, ids)? else {
        return not_allowed(alloc);
    };
    match fixture
        .site
        .send(rt, alloc, &mut fixture.pass, dest, src, batch)
    {
        Ok(sent) => sent_text(alloc, sent),
        Err(fault) => refusal(alloc, &fault),
    }
}

fn send<R: Wait>(rt: &R, alloc: Global, fixture: &mut Fixture, rest: &str) -> Result<Text, Memory>
    requires { IsPassAt fixture.old.site fixture.old.pass }
    ensures { IsPassAt fixture.new.site fixture.new.pass }
{
    let ids = words(alloc, rest)?;
    let src = Text::of(alloc, SOURCE)?;
    let dest = Text::of(alloc, DESTINATION)?;
    send_to(rt, alloc, fixture, &dest, &src, &ids)
}

fn record(alloc: Global, fixture: &mut Fixture) -> Result<Text, Memory>
    requires { IsPassAt fixture.old.site fixture.old.pass }
    ensures { IsPassAt fixture.new.site fixture.new.pass }
{
    let record = take_kept(alloc, fixture)?;
    record_text(alloc, &record)
}

// The site begins anew with this limit.
fn limit(alloc: Global, fixture: &mut Fixture, rest: &str) -> Result<Text, Memory>
    requires { IsPassAt fixture.old.site fixture.old.pass }
    ensures { IsPassAt fixture.new.site fixture.new.pass }
{
    match rest.parse::<u64>() {
        Ok(limit) if limit <= 268_435_456 => {
            *fixture = begin(alloc, limit)?;
            Text::of(alloc, "begun")
        }
        _ => not_allowed(alloc),
    }
}

/// The answer to one action, which is a word and what it is asked of.
pub fn answer<R: Wait>(
    rt: &R,
    alloc: Global,
    fixture: &mut Fixture,
    case: &str,
) -> Result<Text, Memory>
    requires { IsPassAt fixture.old.site fixture.old.pass }
    ensures { IsPassAt fixture.new.site fixture.new.pass }
{
    let (action, rest) = case.split_once(' ').unwrap_or((case, ""));
    match action {
        "update" => update(rt, alloc, fixture, rest),
        "delete" => delete(rt, alloc, fixture, rest),
        "bind" => bind(rt, alloc, fixture, rest),
        "state" => state(rt, alloc, fixture, rest),
        "store" => store(rt, alloc, fixture, rest),
        "send" => send(rt, alloc, fixture, rest),
        "record" => record(alloc, fixture),
        "fill" => fill(rt, alloc, fixture),
        "limit" => limit(alloc, fixture, rest),
        _ => Text::of(alloc, "no such action"),
    }
}
