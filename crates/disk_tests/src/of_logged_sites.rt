// Tests of a site whose cells have logs, where a disk fails at some calls: what the calls of a site tell, what
// stands, and what a look then shows.
ghost use Rattle.std.specs.Prelude.{◌≡◌, [], false, All, IfOk, map};
ghost use Rattle.topic_book.specs.Cells.{cells_in};
ghost use Rattle.commit_log.specs.Logs.{IsSettled};
ghost use Rattle.site_cells.specs.Cells.{abouts_of, no_logs};
ghost use Rattle.site_cells.specs.Values.{about_of, log_in};
ghost use Rattle.logged_cells.specs.Cells as cells;
ghost use Rattle.logged_cells.specs.Cells.{about_in, is_closed, log_of_cell};
ghost use Rattle.running_site.specs.Passes.{number_of};
ghost use Rattle.running_site.specs.Sites.{IsPassAt};

use crate::logs::{NEW, disk};
use commit_log::Log;
use disk_edge::{Disk, MemoryDisk};
use logged_cells::LoggedCell;
use running_site::{Pass, PassOn, Site, SiteFault, SiteOf, SiteOn};
use shard_versions::ShardState;
use site_cells::CellValue;
use std::alloc::Global;
use std::sync::Wait;
use std::test::Fail;
use stream_site::{are_storable_writes, shards_of};
use topic_book::BookState;
use tuple_values::{FieldList, Memory, NameShards, Names, Text, Tuple, Value, Write, Writes};
use turn_table::Cells;

/// How many counted bytes a shard may have.
const LIMIT: u64 = 1_000;

/// The collections c and d, of one shard each.
fn two_names(alloc: Global) -> Result<Names, Memory>
    ensures { IfOk result (λ names. cells_in names ≡ 2) }
{
    let mut names = Names::new(alloc);
    names.push(NameShards {
        name: Text::of(alloc, "c")?,
        shards: 1,
    })?;
    names.push(NameShards {
        name: Text::of(alloc, "d")?,
        shards: 1,
    })?;
    Ok(names)
}

/// A log on a new file, on a disk of which these calls fail. Opening it takes the calls 0 to 4.
fn new_log(alloc: Global, failing: &[u64]) -> Result<Log<MemoryDisk>, Fail>
    ensures { IfOk result (IsSettled ⟦<MemoryDisk as Disk>⟧.seen ⟦<MemoryDisk as Disk>⟧.may_leave []) }
{
    let attached = match Log::attach(alloc, disk(alloc, &NEW, failing)?) {
        Ok(attached) => attached,
        Err(refused) => return Err(refused.fault)?,
    };
    if attached.history.len() > 0 {
        return Err("no new file".into());
    }
    Ok(attached.log)
}

/// Cells of two shards and of the book with these logs.
fn cells_over<D: Disk>(
    alloc: Global,
    names: &Names,
    first: Log<D>,
    second: Log<D>,
    book: Log<D>,
) -> Result<Cells<LoggedCell<D>>, Memory>
    requires two { cells_in names.now ≡ 2 }
    requires first { IsSettled D.seen D.may_leave [] first }
    requires second { IsSettled D.seen D.may_leave [] second }
    requires book { IsSettled D.seen D.may_leave [] book }
    ensures abouts { IfOk result (λ made. map about_in made ≡ abouts_of names.now 1000) }
    ensures empty { IfOk result (λ made. map log_of_cell made ≡ no_logs names.now) }
    ensures sound { IfOk result (λ made. All (λ cell. cells.IsSettled D.seen D.may_leave cell
        × (is_closed cell ≡ false)) made) }
{
    let mut cells = Cells::new(alloc);
    let shard = CellValue::Shard(ShardState::empty(alloc, LIMIT));
    cells.push(LoggedCell::logged(alloc, names, shard, first))?;
    let shard = CellValue::Shard(ShardState::empty(alloc, LIMIT));
    cells.push(LoggedCell::logged(alloc, names, shard, second))?;
    let value = CellValue::Book(BookState::empty(alloc));
    cells.push(LoggedCell::logged(alloc, names, value, book))?;
    Ok(cells)
}

/// A site over these logs, and its one pass.
fn over<D: Disk>(
    alloc: Global,
    first: Log<D>,
    second: Log<D>,
    book: Log<D>,
) -> Result<(SiteOn<D>, PassOn<D>), Fail>
    requires first { IsSettled D.seen D.may_leave [] first }
    requires second { IsSettled D.seen D.may_leave [] second }
    requires book { IsSettled D.seen D.may_leave [] book }
    ensures { IfOk result (λ made. IsPassAt made.0 made.1) }
{
    let names = two_names(alloc)?;
    let cells = cells_over(alloc, &names, first, second, book)?;
    let (site, passes) = SiteOf::start_with(alloc, names, cells, 1, LIMIT)?;
    let mut passes = passes.into_vec();
    let Some(pass) = passes.pop() else {
        return Err("no pass".into());
    };
    Ok((site, pass))
}

/// A site of which these calls of the disk of the cell 0 fail.
fn failing(alloc: Global, calls: &[u64]) -> Result<(Site, Pass), Fail>
    ensures { IfOk result (λ made. IsPassAt made.0 made.1) }
{
    let first = new_log(alloc, calls)?;
    let second = new_log(alloc, &[])?;
    let book = new_log(alloc, &[])?;
    over(alloc, first, second, book)
}

/// What a call told.
#[derive(Clone, Copy, Debug, PartialEq, Eq)]
enum Told {
    Done(u64),
    LogFault { cell: u32, stand: u64 },
    CellClosed { cell: u32, stand: u64 },
    Other,
}

fn fault(fault: SiteFault) -> Told {
    match fault {
        SiteFault::LogFault { cell, stand } => Told::LogFault { cell, stand },
        SiteFault::CellClosed { cell, stand } => Told::CellClosed { cell, stand },
        SiteFault::ShardFull { .. } => Told::Other,
        SiteFault::TopicBound { kept: _ } => Told::Other,
        SiteFault::BookFull { topics: _ } => Told::Other,
        SiteFault::OutOfMemory { stand: _ } => Told::Other,
    }
}

/// A put of the document with this id.
fn put(alloc: Global, id: &str) -> Result<Writes, Memory> {
    let mut document = Tuple::empty(alloc);
    document.put(Text::of(alloc, "id")?, Value::Text(Text::of(alloc, id)?))?;
    let mut writes = Writes::new(alloc);
    writes.push(Write::Put(document))?;
    Ok(writes)
}

/// Puts a document into the collection, with a commit.
fn update<R: Wait>(
    rt: &R,
    alloc: Global,
    site: &Site,
    pass: &mut Pass,
    collection: &str,
    id: &str,
) -> Result<Told, Memory>
    requires { IsPassAt site.now pass.old }
    ensures own { IsPassAt site.now pass.new }
{
    let collection = Text::of(alloc, collection)?;
    let writes = put(alloc, id)?;
    if shards_of(site.names(), collection.as_str()) == 0 || !are_storable_writes(&writes) {
        return Ok(Told::Other);
    }
    match site.index(rt, alloc, pass, &collection, writes, true) {
        Ok(count) => Ok(Told::Done(count)),
        Err(refused) => Ok(fault(refused)),
    }
}

/// How many documents a cut of the collection has.
fn shown<R: Wait>(
    rt: &R,
    alloc: Global,
    site: &Site,
    pass: &mut Pass,
    collection: &str,
) -> Result<Told, Memory>
    requires { IsPassAt site.now pass.old }
    ensures own { IsPassAt site.now pass.new }
{
    let mut collections = FieldList::new(alloc);
    collections.push(Text::of(alloc, collection)?)?;
    let cut = match site.take_cut(rt, alloc, pass, &collections) {
        Ok(cut) => cut,
        Err(refused) => return Ok(fault(refused)),
    };
    let mut count: u64 = 0;
    for part in cut.as_slice() {
        count = count.saturating_add(part.snapshot.count());
    }
    Ok(Told::Done(count))
}

// The calls 5 to 8 are those of an append: write, sync, write and sync. Where one fails the log is opened again:
// a sync, a read, and a cut and a sync, or a sync.
fn is_told_and_shown<R: Wait>(
    rt: &R,
    alloc: Global,
    calls: &[u64],
    stand: u64,
) -> Result<bool, Fail> {
    let (site, mut pass) = failing(alloc, calls)?;
    let first = update(rt, alloc, &site, &mut pass, "c", "1")?;
    let then = shown(rt, alloc, &site, &mut pass, "c")?;
    let more = update(rt, alloc, &site, &mut pass, "c", "2")?;
    let last = shown(rt, alloc, &site, &mut pass, "c")?;
    Ok(
        first == Told::LogFault { cell: 0, stand }
            && then == Told::Done(stand)
            && more == Told::Done(1)
            && last == Told::Done(stand.saturating_add(1)),
    )
}

#[test]
fn a_step_stands_in_the_site_where_it_stands_in_the_file(rt: HostRuntime) -> Result<(), Fail> {
    let alloc = rt.alloc();
    assert!(rt; is_told_and_shown(&rt, alloc, &[5], 0)?);
    assert!(rt; is_told_and_shown(&rt, alloc, &[6], 0)?);
    assert!(rt; is_told_and_shown(&rt, alloc, &[7], 0)?);
    assert!(rt; is_told_and_shown(&rt, alloc, &[8], 1)?);
    Ok(())
}

// The first write of the append fails, and then the read of the reopening.
#[test]
fn shut_cell(rt: HostRuntime) -> Result<(), Fail> {
    let alloc = rt.alloc();
    let (site, mut pass) = failing(alloc, &[5, 7])?;
    let closed = Told::CellClosed { cell: 0, stand: 0 };
    let first = update(&rt, alloc, &site, &mut pass, "c", "1")?;
    assert!(rt; first == Told::LogFault { cell: 0, stand: 0 });
    assert!(rt; shown(&rt, alloc, &site, &mut pass, "c")? == closed);
    assert!(rt; update(&rt, alloc, &site, &mut pass, "c", "2")? == closed);
    assert!(rt; update(&rt, alloc, &site, &mut pass, "d", "1")? == Told::Done(1));
    assert!(rt; shown(&rt, alloc, &site, &mut pass, "d")? == Told::Done(1));
    Ok(())
}
