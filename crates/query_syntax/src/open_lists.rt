// The lists round the innermost open one.
ghost use Rattle.std.specs.Prelude.{◌≡◌, ◌∷◌, [], OnOk, length};

use crate::{Clauses, Role};
use std::alloc::Global;
use std::marker::Model;
use tuple_values::{Memory, Text};

/// The field of the group that a list stands in, if any.
#[derive(Drop)]
pub enum Outside {
    /// The same as inside the list.
    Same,
    /// Another one: the list is itself a field's group.
    Other(Option<Text>),
}

/// An open list as far as it was read when another one opened in it, and of that one the role and
/// what field is outside of it.
#[derive(Drop)]
pub struct OpenList {
    pub role: Role,
    pub clauses: Clauses,
    pub outside: Outside,
}

/// Open lists. A contract sees their list, the last opened first.
#[derive(Drop)]
pub struct OpenLists {
    lists: Vec<OpenList>,
}

impl Model for OpenLists {
    ghost use Rattle.std.specs.Prelude.{List, reverse};
    ghost use Rattle.query_syntax.specs.declared.open_lists.OpenList.{OpenList};

    ghost Value = { List OpenList };

    ghost use Rattle.query_syntax.specs.OpenLists.{open_lists_code};

    ghost coded = { open_lists_code };

    ghost view = { λ o. reverse o.lists.items };
}

impl OpenLists {
    ghost use Rattle.query_syntax.specs.OpenLists.{Pops};

    /// No list is open.
    pub fn new(alloc: Global) -> OpenLists
        ensures { result ≡ [] }
    {
        OpenLists {
            lists: Vec::new(alloc),
        }
    }

    /// One more list is open.
    pub fn push(&mut self, list: OpenList) -> Result<(), Memory>
        ensures { OnOk result (self.new ≡ list ∷ self.old) }
    {
        self.lists.push(list)?;
        Ok(())
    }

    /// Takes off the list that was opened last.
    pub fn pop(&mut self) -> Option<OpenList>
        ensures { Pops self.old result self.new }
    {
        self.lists.pop()
    }

    /// How many lists are open.
    pub fn count(&self) -> u64
        ensures { result ≡ length self.now }
    {
        self.lists.len() as u64
    }
}
