// Reading the lists of a query: items, what stands between them, and parentheses.
ghost use Rattle.std.specs.Prelude.{◌≡◌, OnOk, IfOk, encode_utf8};
ghost use Rattle.query_syntax.specs.ItemSteps.{is_and_text};
ghost use Rattle.query_syntax.specs.declared.place.Place.TheVariants.{Star, Colon};

use crate::letters::{is_blank, is_operator};
use crate::open_lists::{OpenList, Outside};
use crate::place::{Kind, Place, Side, Stage};
use crate::query::{copy_option, require_last};
use crate::reading::Reading;
use crate::{Clauses, Role, Term, Test, What};
use std::mem;
use tuple_values::Memory;

impl Reading {
    ghost use Rattle.query_syntax.specs.Machine.{machine};
    ghost use Rattle.query_syntax.specs.Items.{open_list, open_group, outer_field};
    ghost use Rattle.query_syntax.specs.Items.{close_in, join};
    ghost use Rattle.query_syntax.specs.Steps.{Moves};
    ghost use Rattle.query_syntax.specs.ItemSteps.{begin_test, modify, close_step, begin_item_step};
    ghost use Rattle.query_syntax.specs.ItemSteps.{item_step, word_step, bare_step};
    ghost use Rattle.query_syntax.specs.ItemSteps.{negate, not_step, join_step, operator_step};
    ghost use Rattle.query_syntax.specs.Steps.{step_at};
    ghost use Rattle.query_syntax.specs.ItemSteps.{name_step};

    // A list opens, in the group of the field that is set.
    fn open_list(&mut self, outside: Outside) -> Result<bool, Memory>
        ensures { IfOk result (λ live. Moves
            (open_list outside (machine self.old).field (machine self.old)) live
            (machine self.new)) }
    {
        if self.outer.count() >= 100 {
            return Ok(false);
        }
        let role = self.role;
        let clauses = mem::replace(&mut self.clauses, Clauses::new(self.alloc));
        self.outer.push(OpenList {
            role,
            clauses,
            outside,
        })?;
        self.clear(Stage::First, Role::Optional);
        Ok(true)
    }

    // The list of a field opens.
    pub fn open_group(&mut self) -> Result<bool, Memory>
        ensures { IfOk result (λ live. Moves
            (open_group (machine self.old)) live (machine self.new)) }
    {
        let name = self.take_name();
        let outside = mem::replace(&mut self.field, Some(name));
        self.open_list(Outside::Other(outside))
    }

    // The field of the group round a list that is closed.
    fn leave(&mut self, outside: Outside)
        ensures { machine self.new ≡ record (machine self.old)
            { field = outer_field outside (machine self.old).field } }
    {
        match outside {
            Outside::Same => {}
            Outside::Other(field) => self.field = field,
        }
    }

    fn close(&mut self) -> Result<bool, Memory>
        ensures { IfOk result (λ live. Moves
            (close_in (machine self.old).outer (machine self.old)) live (machine self.new)) }
    {
        let Some(list) = self.outer.pop() else {
            return Ok(false);
        };
        let inner = mem::replace(&mut self.clauses, list.clauses);
        self.role = list.role;
        self.leave(list.outside);
        self.end_item(What::Nested(inner))?;
        Ok(true)
    }

    fn close_at(&mut self, stage: Stage) -> Result<bool, Memory>
        ensures { IfOk result (λ live. Moves
            (close_step stage (machine self.old)) live (machine self.new)) }
    {
        match stage {
            Stage::Behind => self.close(),
            Stage::First | Stage::Joined | Stage::Modified => Ok(false),
        }
    }

    fn modify(&mut self, stage: Stage, role: Role) -> bool
        ensures { Moves (modify stage role (machine self.old)) result (machine self.new) }
    {
        match stage {
            Stage::First | Stage::Behind | Stage::Joined => {
                self.place = Place::Item(Stage::Modified);
                self.role = role;
                true
            }
            Stage::Modified => false,
        }
    }

    // A test without a field begins.
    fn begin_test(&mut self, c: char) -> Result<bool, Memory>
        ensures { IfOk result (λ live. Moves
            (begin_test (machine self.old).field (machine self.old) c (encode_utf8 c)) live
            (machine self.new)) }
    {
        match copy_option(&self.field, self.alloc)? {
            None => Ok(false),
            Some(field) => {
                self.name = field;
                self.at_test(c)
            }
        }
    }

    // Before an item, or behind it, no blank and no parenthesis.
    #[tactic(auto, unfolding(crate::specs::ItemSteps::begin_item_step))]
    fn begin_item(&mut self, stage: Stage, c: char) -> Result<bool, Memory>
        ensures { IfOk result (λ live. Moves
            (begin_item_step stage (machine self.old) c (encode_utf8 c)) live
            (machine self.new)) }
    {
        match c {
            '!' | '-' => Ok(self.modify(stage, Role::Prohibited)),
            '+' => Ok(self.modify(stage, Role::Required)),
            '*' => {
                self.place = Place::Star;
                Ok(true)
            }
            '"' | '[' | '{' => self.begin_test(c),
            _ => self.begin(Kind::Name(stage), c),
        }
    }

    // Before an item, or behind it.
    #[tactic(auto, unfolding(crate::specs::ItemSteps::item_step))]
    pub fn item(&mut self, stage: Stage, c: char) -> Result<bool, Memory>
        ensures { IfOk result (λ live. Moves
            (item_step stage (machine self.old) c (encode_utf8 c)) live (machine self.new)) }
    {
        if is_blank(c) {
            self.place = Place::Item(stage);
            return Ok(true);
        }
        match c {
            '(' => self.open_list(Outside::Same),
            ')' => self.close_at(stage),
            _ => self.begin_item(stage, c),
        }
    }

    // Behind a star.
    pub fn after_star(&mut self, c: char) -> Result<bool, Memory>
        ensures { IfOk result (λ live. Moves
            (step_at Star (machine self.old) c (encode_utf8 c)) live (machine self.new)) }
    {
        if c == ':' {
            self.place = Place::Colon;
            return Ok(true);
        }
        match copy_option(&self.field, self.alloc)? {
            None => Ok(false),
            Some(name) => {
                let test = Test::Present;
                self.end_item(What::Field { name, test })?;
                self.item(Stage::Behind, c)
            }
        }
    }

    // Behind the colon of `*:*`.
    pub fn after_colon(&mut self, c: char) -> Result<bool, Memory>
        ensures { IfOk result (λ live. Moves
            (step_at Colon (machine self.old) c (encode_utf8 c)) live (machine self.new)) }
    {
        if c != '*' {
            return Ok(false);
        }
        self.end_item(What::Everything)?;
        Ok(true)
    }

    // Behind the letters of a word that is a test.
    pub fn end_word(&mut self, c: char) -> Result<bool, Memory>
        ensures { IfOk result (λ live. Moves
            (word_step (machine self.old) c (encode_utf8 c)) live (machine self.new)) }
    {
        let text = self.take_text();
        if c == '*' {
            self.end_test(Test::Prefix(text))?;
            return Ok(true);
        }
        self.end_test(Test::Word(Term::of(text)))?;
        self.item(Stage::Behind, c)
    }

    // Behind the letters of a test without a field.
    fn end_bare(&mut self, c: char) -> Result<bool, Memory>
        ensures { IfOk result (λ live. Moves
            (bare_step (machine self.old).field (machine self.old) c (encode_utf8 c)) live
            (machine self.new)) }
    {
        match copy_option(&self.field, self.alloc)? {
            None => Ok(false),
            Some(field) => {
                self.name = field;
                self.end_word(c)
            }
        }
    }

    // Behind `NOT`.
    fn after_not(&mut self, stage: Stage, c: char) -> Result<bool, Memory>
        ensures { IfOk result (λ live. Moves
            (not_step stage (negate (machine self.old)) c (encode_utf8 c)) live
            (machine self.new)) }
    {
        match stage {
            Stage::First | Stage::Behind | Stage::Joined => {
                self.place = Place::Item(Stage::Modified);
                self.role = Role::Prohibited;
                self.text.clear();
                self.escapes = false;
                self.item(Stage::Modified, c)
            }
            Stage::Modified => Ok(false),
        }
    }

    fn join(&mut self, and: bool) -> Result<(), Memory>
        ensures { OnOk result (machine self.new ≡ join and (machine self.old)) }
    {
        self.place = Place::Item(Stage::Joined);
        self.text.clear();
        self.escapes = false;
        if and {
            require_last(&mut self.clauses)?;
            self.role = Role::Required;
        } else {
            self.role = Role::Optional;
        }
        Ok(())
    }

    // Behind a conjunction.
    fn after_join(&mut self, stage: Stage, and: bool, c: char) -> Result<bool, Memory>
        ensures { IfOk result (λ live. Moves
            (join_step stage and (machine self.old) c (encode_utf8 c)) live
            (machine self.new)) }
    {
        match stage {
            Stage::Behind => {
                self.join(and)?;
                self.item(Stage::Joined, c)
            }
            Stage::First | Stage::Joined | Stage::Modified => Ok(false),
        }
    }

    // Behind an operator.
    fn after_operator(&mut self, stage: Stage, c: char) -> Result<bool, Memory>
        ensures { IfOk result (λ live. Moves
            (operator_step stage (machine self.old) c (encode_utf8 c)) live
            (machine self.new)) }
    {
        if self.text.as_str() == "NOT" {
            return self.after_not(stage, c);
        }
        let and = is_and(self.text.as_str());
        self.after_join(stage, and, c)
    }

    // Behind the letters before an item.
    pub fn after_name(&mut self, stage: Stage, c: char) -> Result<bool, Memory>
        ensures { IfOk result (λ live. Moves
            (name_step stage (machine self.old) c (encode_utf8 c)) live (machine self.new)) }
    {
        if is_operator(self.escapes, self.text.as_str()) {
            return self.after_operator(stage, c);
        }
        if c == ':' {
            self.end_name();
            return Ok(true);
        }
        self.end_bare(c)
    }
}

// AND &&
fn is_and(text: &str) -> bool
    ensures { result ≡ is_and_text text.now }
{
    text == "AND" || text == "&&"
}
