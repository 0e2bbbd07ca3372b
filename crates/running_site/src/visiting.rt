// How a pass comes to its site for a call, and goes.
ghost use Rattle.std.specs.Prelude.{◌≡◌, None};
ghost use Rattle.turn_table.specs.Calls.{known};
ghost use Rattle.running_site.specs.Passes.{sight_in, sight_of, writer_in, writer_of};
ghost use Rattle.running_site.specs.Sites.{IsPassAt};

use crate::visit::Visit;
use crate::{PassOn, SiteOf};
use disk_edge::Disk;
use logged_cells::LoggedCell;
use std::mem::replace;

impl<D: Disk> SiteOf<LoggedCell<D>> {
    /// The pass with its record comes to the site, for calls over a writer's turns. It is away from
    /// its holder until the visit ends, and no call of the site takes it before.
    pub fn visit<'a, R>(&'a self, rt: &'a R, pass: &mut PassOn<D>) -> Visit<'a, R, D>
        requires { IsPassAt self.now pass.old }
        ensures site { result.site.now ≡ self.now }
        ensures free { result.turn ≡ None }
        ensures writer { writer_in (known result.pass) result.marks.items result.own.items
            ≡ writer_of pass.old }
        ensures sight { sight_in (known result.pass) ≡ sight_of pass.old }
        ensures now { pass.new.now ≡ pass.old.now }
    {
        let alloc = pass.alloc;
        let Some(inside) = pass.pass.take() else {
            unreachable!()
        };
        let marks = replace(&mut pass.marks, Vec::new(alloc));
        let own = replace(&mut pass.own, Vec::new(alloc));
        Visit {
            rt,
            alloc,
            site: self,
            pass: inside,
            turn: None,
            marks,
            own,
        }
    }
}

impl<R, D: Disk> Visit<'_, R, D> {
    /// The pass goes with its record. A visit that has a turn can't end: each call over a writer's
    /// turns gives its last one back, and so does `leave`.
    pub fn end(self, pass: &mut PassOn<D>)
        requires { self.turn ≡ None }
        ensures own { IsPassAt self.entry.site.now pass.new }
        ensures writer { writer_of pass.new ≡ writer_in (known self.entry.pass)
            self.entry.marks.items self.entry.own.items }
        ensures sight { sight_of pass.new ≡ sight_in (known self.entry.pass) }
        ensures now { pass.new.now ≡ pass.old.now }
    {
        let Visit {
            rt: _,
            alloc: _,
            site: _,
            pass: inside,
            turn,
            marks,
            own,
        } = self;
        match turn {
            Some(_) => unreachable!(),
            None => {}
        }
        pass.pass = Some(inside);
        pass.marks = marks;
        pass.own = own;
    }
}
