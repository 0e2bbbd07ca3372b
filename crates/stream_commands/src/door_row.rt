// The doors that a server may serve.
ghost use Rattle.std.specs.Prelude.{◌≡◌, ◌≢◌, IfNone, IfSome, None, length, option_map};

use running_site::Histories;
use std::marker::Model;
use tuple_values::Sequence;

/// How many doors a row has.
pub const DOORS: usize = 16;

/// The doors that a server may serve, sixteen of them, and the histories with which the site of the
/// last server over them was closed, if it was.
#[derive(Drop)]
pub struct DoorRow<L> {
    pub(crate) doors: Sequence<L>,
    pub(crate) ended: Option<Histories>,
}

impl<L> Model for DoorRow<L> {
    ghost use Rattle.std.specs.Prelude.{◌≡◌, length};
    ghost use Rattle.once_core.specs.contracts.world.Histories as h;
    ghost use Rattle.std.specs.Coded.{codes};
    ghost use Rattle.stream_commands.specs.DoorRows.{Row};

    ghost Value = { Row L };

    ghost coded = { Prim.hlevel (codes, h.the_row.coded) };

    ghost view = { λ r. record { doors = r.doors; ended = r.ended } };

    ghost invariant = { λ r. length r.doors ≡ 16 };
}

impl<L: Drop> DoorRow<L> {
    /// The row of these doors, where there are sixteen. No site was closed yet.
    pub fn of(doors: Sequence<L>) -> Option<DoorRow<L>>
        ensures some { IfSome result (λ row. row ≡ record { doors = doors; ended = None }) }
        ensures none { IfNone result (length doors ≢ 16) }
    {
        if doors.len() == DOORS {
            Some(DoorRow { doors, ended: None })
        } else {
            None
        }
    }

    /// The doors, in their order.
    pub fn doors(&self) -> &[L]
        ensures { result.now ≡ self.now.doors }
    {
        self.doors.as_slice()
    }

    /// The histories with which the site of the last server was closed, if it was.
    pub fn ended(&self) -> Option<&Histories>
        ensures { option_map (λ h. h.now) result ≡ self.now.ended }
    {
        self.ended.as_ref()
    }

    /// No site was closed yet.
    pub(crate) fn begin(&mut self)
        ensures doors { self.new.doors ≡ self.old.doors }
        ensures ended { self.new.ended ≡ None }
    {
        self.ended = None;
    }
}
