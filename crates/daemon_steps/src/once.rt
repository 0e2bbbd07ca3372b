// One run of a daemon's expression.
ghost use Rattle.std.specs.Prelude.{◌≡◌, IfOk, IfErr};
ghost use Rattle.exchange_rules.specs.Following.{Begins, cleared};
ghost use Rattle.expr_check.specs.Parts.{input_of};
ghost use Rattle.expr_check.specs.Views.{tree_of};
ghost use Rattle.daemon_steps.specs.Runs.{IsFollowed};
ghost use Rattle.daemon_steps.specs.Steps.{once_course};
ghost use Rattle.root_runs.specs.Stays.{Stays};

use expr_check::Checked;
use io_edge::Gate;
use root_runs::{run_root, take_record_over};
use std::alloc::Global;
use std::thread::Threads;
use stream_site::Turns;
use tuple_values::{Memory, Text};

/// A run of a daemon: how many tuples it read, and the text of its fault, where it has one.
#[derive(Drop)]
pub struct Once {
    pub read: u64,
    pub fault: Option<Text>,
}

/// Runs the input of an expression once. The site's record begins anew. The writer has no turn
/// afterwards.
pub fn run_once<T: Turns, R: Threads + Sync, G: Gate>(
    rt: &R,
    alloc: Global,
    site: &mut T,
    checked: &Checked,
    gate: &G,
) -> Result<Once, Memory>
    ensures ok { IfOk result (IsFollowed (T.writer site.old) (T.writer site.new)
        (once_course (T.layout site.old) (input_of (tree_of checked.now)))) }
    ensures err { IfErr result (λ _. Begins (cleared (T.writer site.old)) (T.writer site.new)
        (once_course (T.layout site.old) (input_of (tree_of checked.now)))) }
    ensures stays { Stays T.layout T.home T.free site.old site.new }
    ensures free { T.free site.new }
{
    let Some(input) = checked.input() else {
        let _ = take_record_over(site);
        return Ok(Once {
            read: 1,
            fault: None,
        });
    };
    let run = run_root(rt, alloc, site, input, gate)?;
    Ok(Once {
        read: run.read,
        fault: run.exception,
    })
}
