// Tests of once_core, by events worked by hand from the rules.
use crate::making;
use crate::making::{put_long, put_text, topic_key, versions};
use once_core::{
    Event, Events, Replay, World, delivery_holds, law_holds, next, nothing_yet, replay_events,
};
use shard_versions::{Entry, Kind, Step};
use std::alloc::Global;
use std::test::Fail;
use topic_book::{Binding, BookEntry};
use tuple_values::{Memory, NameShards, Names, Text, Tuple, Value};

// The cells are c 0, ck 1 and d 2, and the book's is 3.
const C: u32 = 0;

const D: u32 = 2;

const A: u64 = 1;

const B: u64 = 2;

// Entries as a row of a table writes them: documents have the id 1.
#[derive(Clone, Copy)]
enum Plain {
    Put(i64),
    Sent(u64, i64),
    Mark,
}

use Plain::{Mark, Put, Sent};

// Events as a row of a table writes them. The document has the id 1, and the topic goes from c to
// d, from version 0 on. A writes, with a Mark or without, binds, stores and forgets.
#[derive(Clone, Copy)]
enum Action {
    Write(i64),
    Leave(i64),
    Look(u64),
    Send(u64, u64, i64),
    Bind,
    Store(u64),
    Forget,
}

use Action::{Bind, Forget, Leave, Look, Send, Store, Write};

const LATE: [Action; 6] = [
    Write(1),
    Look(B),
    Write(2),
    Look(A),
    Send(A, 2, 2),
    Send(B, 1, 1),
];

const STORED: [Action; 4] = [Write(1), Bind, Send(A, 1, 1), Store(1)];

fn put_source(alloc: Global, document: &mut Tuple, version: u64) -> Result<(), Memory> {
    put_text(alloc, document, "_src_s", "c")?;
    let version = i64::try_from(version).unwrap_or(0);
    put_long(alloc, document, "_src_version_l", version)
}

fn delivered(alloc: Global, version: u64, n: i64) -> Result<Tuple, Memory> {
    let mut document = making::document(alloc, "1", n)?;
    put_source(alloc, &mut document, version)?;
    Ok(document)
}

fn sent_entry(alloc: Global, by: u64, version: u64, n: i64) -> Result<Entry, Memory> {
    let document = delivered(alloc, version, n)?;
    Ok(Entry::sent(by, Text::of(alloc, "c")?, version, document))
}

fn entry_of(alloc: Global, by: u64, plain: Plain) -> Result<Entry, Memory> {
    match plain {
        Put(n) => Ok(Entry::put(by, making::document(alloc, "1", n)?)),
        Sent(version, n) => sent_entry(alloc, by, version, n),
        Mark => Ok(Entry::mark(by)),
    }
}

fn push_entries(alloc: Global, step: &mut Step, by: u64, entries: &[Plain]) -> Result<(), Memory> {
    for plain in entries {
        step.push(entry_of(alloc, by, *plain)?)?;
    }
    Ok(())
}

fn step_of(alloc: Global, by: u64, entries: &[Plain]) -> Result<Step, Memory> {
    let mut step = Step::new(alloc);
    push_entries(alloc, &mut step, by, entries)?;
    Ok(step)
}

fn written(alloc: Global, entries: &[Plain]) -> Result<Event, Memory> {
    Ok(Event::Write {
        actor: A,
        cell: C,
        step: step_of(alloc, A, entries)?,
    })
}

fn sent(alloc: Global, actor: u64, version: u64, n: i64) -> Result<Event, Memory> {
    let step = step_of(alloc, actor, &[Sent(version, n)])?;
    Ok(Event::Send {
        actor,
        cell: D,
        src: Text::of(alloc, "c")?,
        step,
    })
}

fn binding(alloc: Global) -> Result<Binding, Memory> {
    let dest = Text::of(alloc, "d")?;
    making::binding(alloc, "c", Some(dest), versions(alloc, &[0])?)
}

fn bound(alloc: Global) -> Result<Event, Memory> {
    let binding = binding(alloc)?;
    Ok(Event::Bind {
        actor: A,
        key: topic_key(alloc, "t")?,
        binding,
    })
}

fn stored(alloc: Global, version: u64) -> Result<Event, Memory> {
    let upto = versions(alloc, &[version])?;
    Ok(Event::Store {
        actor: A,
        key: topic_key(alloc, "t")?,
        upto,
    })
}

fn event(alloc: Global, action: Action) -> Result<Event, Memory> {
    match action {
        Write(n) => written(alloc, &[Put(n), Mark]),
        Leave(n) => written(alloc, &[Put(n)]),
        Look(actor) => Ok(Event::Look { actor, cell: C }),
        Send(actor, version, n) => sent(alloc, actor, version, n),
        Bind => bound(alloc),
        Store(version) => stored(alloc, version),
        Forget => Ok(Event::Forget { actor: A }),
    }
}

fn push_events(alloc: Global, events: &mut Events, actions: &[Action]) -> Result<(), Memory> {
    for action in actions {
        events.push(event(alloc, *action)?)?;
    }
    Ok(())
}

fn push_name(alloc: Global, names: &mut Names, name: &str) -> Result<(), Memory> {
    let name = Text::of(alloc, name)?;
    names.push(NameShards { name, shards: 1 })
}

fn names(alloc: Global) -> Result<Names, Memory> {
    let mut names = Names::new(alloc);
    push_name(alloc, &mut names, "c")?;
    push_name(alloc, &mut names, "ck")?;
    push_name(alloc, &mut names, "d")?;
    Ok(names)
}

fn replayed(alloc: Global, actions: &[Action]) -> Result<Replay, Memory> {
    let mut events = Events::new(alloc);
    push_events(alloc, &mut events, actions)?;
    replay_events(alloc, &names(alloc)?, &events)
}

// Whether the entry is the one that the row writes, of this writer.
fn shows(entry: &Entry, by: u64, plain: Plain) -> bool {
    if entry.by != by {
        return false;
    }
    match (&entry.kind, plain) {
        (Kind::Put(document), Put(n)) => has(document, n),
        (
            Kind::Sent {
                version,
                document,
                ..
            },
            Sent(v, n),
        ) => *version == v && has(document, n),
        (Kind::Mark, Mark) => true,
        _ => false,
    }
}

fn has(document: &Tuple, n: i64) -> bool {
    matches!(document.get("n_i"), Some(Value::Long(m)) if *m == n)
}

// Whether the cell's history is what the row writes.
fn has_entries(world: &World, cell: u32, rows: &[(u64, Plain)]) -> bool {
    let Some(history) = world.histories.shards.get(cell as usize) else {
        return false;
    };
    if history.len() != rows.len() {
        return false;
    }
    for (entry, (by, plain)) in history.as_slice().iter().zip(rows) {
        if !shows(entry, *by, *plain) {
            return false;
        }
    }
    true
}

fn upto(world: &World, actor: u64, cell: u32) -> u64 {
    for known in world.known.as_slice() {
        if known.actor == actor && known.cell == cell {
            return known.upto;
        }
    }
    0
}

// Whether the first event that isn't allowed has this place.
fn stops_at(alloc: Global, actions: &[Action], want: Option<u64>) -> bool {
    match replayed(alloc, actions) {
        Ok(replay) => replay.refused_at == want,
        Err(_) => false,
    }
}

const UNSENT: [Action; 3] = [Write(1), Bind, Store(1)];

const UNCOMMITTED: [Action; 3] = [Leave(1), Bind, Store(1)];

const FORGOTTEN: [Action; 5] = [Write(1), Bind, Send(A, 1, 1), Forget, Store(1)];

fn are_allowed(alloc: Global) -> bool {
    stops_at(alloc, &LATE, None) && stops_at(alloc, &STORED, None) && stops_at(alloc, &[], None)
}

fn are_refused(alloc: Global) -> bool {
    stops_at(alloc, &UNSENT, Some(2))
        && stops_at(alloc, &UNCOMMITTED, Some(2))
        && stops_at(alloc, &FORGOTTEN, Some(4))
}

#[test]
fn core_rows(rt: HostRuntime) {
    assert!(rt; are_allowed(rt.alloc()) && are_refused(rt.alloc()));
}

fn world_of(alloc: Global, actions: &[Action]) -> Result<World, Memory> {
    Ok(replayed(alloc, actions)?.world)
}

const WRITTEN: [(u64, Plain); 4] = [(A, Put(1)), (A, Mark), (A, Put(2)), (A, Mark)];

const DELIVERED: [(u64, Plain); 2] = [(A, Sent(2, 2)), (A, Mark)];

fn came_late(world: &World) -> bool {
    has_entries(world, C, &WRITTEN)
        && has_entries(world, D, &DELIVERED)
        && upto(world, B, C) == 2
        && upto(world, A, C) == 4
        && upto(world, B, D) == 2
}

#[test]
fn a_version_that_came_late_is_not_delivered(rt: HostRuntime) -> Result<(), Fail> {
    let world = world_of(rt.alloc(), &LATE)?;
    assert!(rt; came_late(&world));
    Ok(())
}

fn stored_twice(alloc: Global) -> Result<World, Memory> {
    let world = world_of(alloc, &STORED)?;
    let event = event(alloc, Store(1))?;
    next(alloc, world, &event)
}

fn forgotten(alloc: Global) -> Result<World, Memory> {
    let world = stored_twice(alloc)?;
    next(alloc, world, &Event::Forget { actor: A })
}

fn knows_nothing_once_forgotten(alloc: Global) -> bool {
    match forgotten(alloc) {
        Ok(world) => world.known.len() == 0,
        Err(_) => false,
    }
}

fn has_one_checkpoint(world: &World) -> bool {
    let is_stored = matches!(
        world.histories.book.as_slice(),
        [
            BookEntry::Bind { by: A, .. },
            BookEntry::Store { by: A, .. }
        ]
    );
    is_stored && upto(world, A, 3) == 2
}

#[test]
fn a_checkpoint_is_stored_once(rt: HostRuntime) -> Result<(), Fail> {
    assert!(rt; knows_nothing_once_forgotten(rt.alloc()));
    let world = stored_twice(rt.alloc())?;
    assert!(rt; has_one_checkpoint(&world));
    Ok(())
}

fn nothing(alloc: Global) -> Result<World, Memory> {
    let names = names(alloc)?;
    nothing_yet(alloc, names.as_slice())
}

fn has_no_entry(world: &World) -> bool {
    world.histories.shards.len() == 3
        && has_entries(world, C, &[])
        && world.histories.book.len() == 0
}

#[test]
fn no_entry_at_the_start(rt: HostRuntime) -> Result<(), Fail> {
    law_holds();
    delivery_holds();
    let world = nothing(rt.alloc())?;
    assert!(rt; has_no_entry(&world));
    Ok(())
}
