// The start of a site, and its end.
ghost use Rattle.std.specs.Prelude.{◌≡◌, ◌≢◌, false, ◌<◌, ◌≤◌, All, Contains, IfOk, length, map};
ghost use Rattle.topic_book.specs.Cells.{cells_in};
ghost use Rattle.once_core.specs.Law.{IsLaw};
ghost use Rattle.exchange_rules.specs.Cells.{author_of};
ghost use Rattle.turn_table.specs.Histories.{GrewBy};
ghost use Rattle.stream_site.specs.Logs.{logs_in};
ghost use Rattle.site_cells.specs.Cells.{abouts_of, no_logs};
ghost use Rattle.logged_cells.specs.Cells.{about_in, is_closed, log_of_cell, IsSettled};
ghost use Rattle.running_site.specs.Passes.{new_writer, number_of, numbers_to, writer_of};
ghost use Rattle.running_site.specs.Sites.{IsPassAt};

use crate::empty::empty_cells;
use crate::numbers::numbers_to;
use crate::record::{with_records, without_records};
use crate::{PassOn, PassesOn, SiteOf, SiteOn};
use disk_edge::Disk;
use logged_cells::{LoggedCell, into_parts};
use once_core::Histories;
use site_cells::into_histories;
use std::alloc::Global;
use tuple_values::{Memory, Names};
use turn_table::{Cells, TurnTable};

/// How many cells a table of turns can't have.
const CELLS: usize = 0x4000_0000;

impl<D: Disk> SiteOf<LoggedCell<D>> {
    /// The site of these collections with no entry, and a limit on the counted bytes of each shard;
    /// and so many passes, with the numbers from 1 on, at the time 0.
    pub fn start(
        alloc: Global,
        names: Names,
        passes: u64,
        limit: u64,
    ) -> Result<(SiteOn<D>, PassesOn<D>), Memory>
        requires some { 0 < passes }
        requires limit { limit ≤ 268435456 }
        ensures site { IfOk result (λ made. (made.0.names ≡ names) × (made.0.limit ≡ limit)
            × (made.0.passes ≡ passes)) }
        ensures own { IfOk result (λ made. All (IsPassAt made.0) made.1) }
        ensures new { IfOk result (λ made. map writer_of made.1
            ≡ map (new_writer names) (numbers_to passes)) }
        ensures now { IfOk result (λ made. All (λ pass. pass.now ≡ 0) made.1) }
    {
        let cells = empty_cells(alloc, &names, limit)?;
        SiteOf::start_with(alloc, names, cells, passes, limit)
    }

    /// The site of these collections over these cells, none of which has an entry, and so many passes,
    /// with the numbers from 1 on, at the time 0. A cell's log, where it has one, has no step.
    pub fn start_with(
        alloc: Global,
        names: Names,
        cells: Cells<LoggedCell<D>>,
        passes: u64,
        limit: u64,
    ) -> Result<(SiteOn<D>, PassesOn<D>), Memory>
        requires some { 0 < passes }
        requires abouts { map about_in cells ≡ abouts_of names limit }
        requires empty { map log_of_cell cells ≡ no_logs names }
        requires sound { All (λ cell. IsSettled D.seen D.may_leave cell
            × (is_closed cell ≡ false)) cells }
        ensures site { IfOk result (λ made. (made.0.names ≡ names) × (made.0.limit ≡ limit)
            × (made.0.passes ≡ passes)) }
        ensures own { IfOk result (λ made. All (IsPassAt made.0) made.1) }
        ensures new { IfOk result (λ made. map writer_of made.1
            ≡ map (new_writer names) (numbers_to passes)) }
        ensures now { IfOk result (λ made. All (λ pass. pass.now ≡ 0) made.1) }
    {
        if cells.len() >= CELLS {
            return Err(Memory::OutOfMemory);
        }
        let numbers = numbers_to(alloc, passes)?;
        let (table, inside) = TurnTable::start(alloc, cells, numbers)?;
        let made = with_records(alloc, inside)?;
        let site = SiteOf {
            table,
            names,
            limit,
            passes,
        };
        Ok((site, made))
    }

    /// The site of these collections with no entry, and its only pass, which is new.
    pub fn start_alone(
        alloc: Global,
        names: Names,
        limit: u64,
    ) -> Result<(SiteOn<D>, PassOn<D>), Memory>
        requires { limit ≤ 268435456 }
        ensures site { IfOk result (λ made. (made.0.names ≡ names) × (made.0.limit ≡ limit)
            × (made.0.passes ≡ 1)) }
        ensures own { IfOk result (λ made. IsPassAt made.0 made.1) }
        ensures new { IfOk result (λ made. writer_of made.1 ≡ new_writer names 1) }
        ensures now { IfOk result (λ made. made.1.now ≡ 0) }
    {
        let (site, passes) = SiteOf::start(alloc, names, 1, limit)?;
        let mut passes = passes.into_vec();
        let pass = passes.pop().unwrap();
        Ok((site, pass))
    }

    /// Ends the site, and gives its histories. It takes all passes that were made for it.
    pub fn close(self, alloc: Global, passes: PassesOn<D>) -> Result<Histories, Memory>
        requires own { All (IsPassAt self) passes }
        requires all { All (λ number. Contains (map number_of passes) number)
            (numbers_to self.passes) }
        ensures law { IfOk result (λ histories. IsLaw self.names histories) }
        ensures counted { IfOk result (λ histories. length histories.shards ≡ cells_in self.names) }
        ensures seen { IfOk result (λ histories. All (λ pass.
            GrewBy (λ entry. author_of entry ≢ number_of pass) (writer_of pass).seen
            (logs_in histories.shards histories.book)) passes) }
        ensures signed { IfOk result (λ histories. All (All (λ entry.
            Contains (numbers_to self.passes) (author_of entry)))
            (logs_in histories.shards histories.book)) }
    {
        let SiteOf {
            table,
            names,
            limit: _,
            passes: _,
        } = self;
        drop(names);
        let inside = without_records(alloc, passes)?;
        let parts = into_parts(alloc, table.close(inside))?;
        into_histories(alloc, parts.values)
    }
}
