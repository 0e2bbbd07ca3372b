// The writers of a load, each with what it is to do.
ghost use Rattle.std.specs.Prelude.{◌≡◌, IfOk, length, map};
ghost use Rattle.running_site.specs.Passes.{writer_of};
ghost use Rattle.load_rules.specs.Finished.{load_roles};
ghost use Rattle.load_mix.specs.Workers.{inside_in, inside_of, role_at, role_in, writer_at};

use load_rules::Role;
use running_site::{Pass, Passes};
use std::alloc::Global;
use tuple_values::Memory;

/// A writer of a load: its pass, what its role is, and whether it has done its work.
#[derive(Drop)]
pub struct WorkerOf<P> {
    pub pass: P,
    pub role: Role,
    pub is_done: bool,
}

/// A worker at a site.
pub type Worker = WorkerOf<Pass>;

// The role of the writer at this place, counted from 0.
fn role_at(place: usize) -> Role
    ensures { result ≡ role_at place }
{
    if place < 4 {
        Role::Indexer {
            indexer: place as u16,
        }
    } else if place < 6 {
        Role::Reader
    } else {
        Role::Runner
    }
}

/// A worker of each of eight passes, with the roles of a load in order, which has done nothing. All
/// passes work at this time, in milliseconds.
pub(crate) fn with_roles(alloc: Global, passes: Passes, now: u64) -> Result<Vec<Worker>, Memory>
    requires { length passes ≡ 8 }
    ensures roles { IfOk result (λ made. map role_in made.items ≡ load_roles) }
    ensures inside { IfOk result (λ made. map inside_in made.items ≡ map inside_of passes) }
    ensures writers { IfOk result (λ made. map writer_at made.items ≡ map writer_of passes) }
{
    let mut made = Vec::new(alloc);
    for pass in passes.into_vec() {
        let mut pass = pass;
        pass.set_now(now);
        made.push(WorkerOf {
            pass,
            role: role_at(made.len()),
            is_done: false,
        })?;
    }
    Ok(made)
}
