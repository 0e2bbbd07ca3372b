// Daemons that are put on the board.
ghost use Rattle.std.specs.Prelude.{◌≡◌, IfOk};
ghost use Rattle.expr_check.specs.Views.{tree_of};
ghost use Rattle.expr_types.specs.ExprTree.{operator_in};
ghost use Rattle.stream_handler.specs.Asks.{daemon_of};

use expr_check::{Checked, Root};
use std::alloc::Global;
use tuple_values::{Memory, Text, TryCopy};

/// A daemon that is to be put on the board: its id, how long it rests after a run in milliseconds,
/// and whether it ends after a run that reads nothing.
#[derive(Drop)]
pub struct NewDaemon {
    pub id: Text,
    pub interval: u64,
    pub terminate: bool,
}

/// The daemon that a checked expression is, if it is one.
pub(crate) fn daemon_of(alloc: Global, checked: &Checked) -> Result<Option<NewDaemon>, Memory>
    ensures { IfOk result (λ daemon. daemon ≡ daemon_of (operator_in (tree_of checked.now))) }
{
    match checked.root() {
        Root::Reads | Root::Topic(_) | Root::Update(_) | Root::Commit(_) => Ok(None),
        Root::Daemon(daemon) => Ok(Some(NewDaemon {
            id: daemon.id.copy(alloc)?,
            interval: daemon.interval,
            terminate: daemon.terminate,
        })),
    }
}
