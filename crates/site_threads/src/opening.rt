// A site with workers, and its end.
ghost use Rattle.std.specs.Prelude.{◌≡◌, ◌<◌, All, IfOk, length, map};
ghost use Rattle.once_core.specs.Law.{IsLaw};
ghost use Rattle.running_site.specs.Passes.{numbers_to};
ghost use Rattle.site_threads.specs.Workers.{number_in, pass_in, IsWorkerAt};

use crate::workers::{Task, Worker};
use running_site::{Histories, Passes, Record, Site, SiteOf};
use std::alloc::Global;
use tuple_values::{Memory, Names};

/// The limit on the counted bytes of a shard.
const LIMIT: u64 = 268_435_456;

// Each pass with the task of its place.
fn with_tasks(alloc: Global, passes: Passes, tasks: &[Task]) -> Result<Vec<Worker>, Memory>
    ensures { IfOk result (λ made. map pass_in made.items ≡ passes) }
{
    let mut made = Vec::new(alloc);
    for pass in passes.into_vec() {
        let task = match tasks.get(made.len()) {
            Some(task) => *task,
            None => Task::Deliver { wanted: 0 },
        };
        made.push(Worker {
            pass,
            task,
            done: None,
            record: None,
        })?;
    }
    Ok(made)
}

/// A site of these collections with no entry, and a worker for each task.
pub fn open(alloc: Global, names: Names, tasks: &[Task]) -> Result<(Site, Vec<Worker>), Memory>
    requires { 0 < length tasks.now }
    ensures own { IfOk result (λ made. All (IsWorkerAt made.0) made.1.items) }
    ensures numbers { IfOk result (λ made. map number_in made.1.items
        ≡ numbers_to made.0.passes) }
{
    let (site, passes) = SiteOf::start(alloc, names, tasks.len() as u64, LIMIT)?;
    let workers = with_tasks(alloc, passes, tasks)?;
    Ok((site, workers))
}

/// The passes of the workers, and their records.
pub fn parted(alloc: Global, workers: Vec<Worker>) -> Result<(Passes, Vec<Option<Record>>), Memory>
    ensures { IfOk result (λ made. made.0 ≡ map pass_in workers.items) }
{
    let mut passes = Passes::new(alloc);
    let mut records = Vec::new(alloc);
    for worker in workers {
        let Worker {
            pass,
            task: _,
            done: _,
            record,
        } = worker;
        passes.push(pass)?;
        records.push(record)?;
    }
    Ok((passes, records))
}

/// Ends the site: its histories, and the record of each worker.
pub fn close(
    alloc: Global,
    site: Site,
    workers: Vec<Worker>,
) -> Result<(Histories, Vec<Option<Record>>), Memory>
    requires own { All (IsWorkerAt site) workers.items }
    requires numbers { map number_in workers.items ≡ numbers_to site.passes }
    ensures { IfOk result (λ closed. IsLaw site.names closed.0) }
{
    let (passes, records) = parted(alloc, workers)?;
    let histories = site.close(alloc, passes)?;
    Ok((histories, records))
}
