// How many clauses of each role a list has.
ghost use Rattle.std.specs.Prelude.{◌≡◌, ◌+◌, ◌<◌, ◌^◌};
ghost use Rattle.query_syntax.specs.Counts.{count_for, one_of};
ghost use Rattle.query_syntax.specs.declared.query.Role.{Role};

use crate::Role;

/// How many clauses of each role there are.
#[derive(Clone, Copy)]
pub(crate) struct Counts {
    required: usize,
    prohibited: usize,
    optional: usize,
}

impl Counts {
    /// The counts of no clause.
    pub(crate) fn none() -> Counts
        ensures { (role : Role) → count_for role result ≡ 0 }
    {
        Counts {
            required: 0,
            prohibited: 0,
            optional: 0,
        }
    }

    /// How many have this role.
    pub(crate) fn of(self, role: Role) -> usize
        ensures { result ≡ count_for role self }
    {
        match role {
            Role::Required => self.required,
            Role::Prohibited => self.prohibited,
            Role::Optional => self.optional,
        }
    }

    /// Counts one more of this role.
    pub(crate) fn add(&mut self, role: Role)
        requires { count_for role self.old < 2 ^ 63 }
        ensures { (other : Role) → count_for other self.new
            ≡ count_for other self.old + one_of role other }
    {
        match role {
            Role::Required => self.required += 1,
            Role::Prohibited => self.prohibited += 1,
            Role::Optional => self.optional += 1,
        }
    }

    /// Counts one less of this role.
    pub(crate) fn take(&mut self, role: Role)
        requires { 0 < count_for role self.old }
        ensures { (other : Role) → count_for other self.old
            ≡ count_for other self.new + one_of role other }
    {
        match role {
            Role::Required => self.required -= 1,
            Role::Prohibited => self.prohibited -= 1,
            Role::Optional => self.optional -= 1,
        }
    }
}
