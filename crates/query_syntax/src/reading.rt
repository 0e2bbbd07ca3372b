// What was read of a query, and how the letters, bounds and items of it begin and end.
ghost use Rattle.std.specs.Prelude.{◌≡◌, [], false, IfOk, OnOk, encode_utf8, string_bytes};
ghost use Rattle.query_syntax.specs.declared.place.Place.TheVariants.{Letters};
ghost use Rattle.query_syntax.specs.declared.place.Side.TheVariants.{High};

use crate::letters::{is_blank, is_just};
use crate::open_lists::OpenLists;
use crate::place::{Kind, Place, Side, Stage};
use crate::term::term_of;
use crate::{Clause, Clauses, Role, Test, What};
use std::alloc::Global;
use std::mem;
use tuple_values::{Memory, Text};

/// A query as far as it is read. Of the item that is being read: its role so far, the name of its
/// field, its letters and whether some of them was escaped, and its bounds. Of the innermost list:
/// the field of the group that it is in, if any, and its clauses; and the lists round it.
#[derive(Drop)]
pub struct Reading {
    pub alloc: Global,
    pub place: Place,
    pub role: Role,
    pub name: Text,
    pub text: String,
    pub escapes: bool,
    pub low_in: bool,
    pub low: Option<Text>,
    pub high: Option<Text>,
    pub field: Option<Text>,
    pub clauses: Clauses,
    pub outer: OpenLists,
}

impl Reading {
    ghost use Rattle.query_syntax.specs.Ranges.{bare_says};
    ghost use Rattle.query_syntax.specs.Views.{what_tree};
    ghost use Rattle.query_syntax.specs.Machine.{machine, start, ready, letter_step, begin};
    ghost use Rattle.query_syntax.specs.Items.{end_name, end_item, end_test, end_bound};
    ghost use Rattle.query_syntax.specs.Items.{end_range, closed_step};
    ghost use Rattle.query_syntax.specs.Steps.{Moves};

    /// Nothing is read yet.
    pub fn new(alloc: Global) -> Reading
        ensures { machine result ≡ start }
    {
        Reading {
            alloc,
            place: Place::Item(Stage::First),
            role: Role::Optional,
            name: Text::from_string(String::new(alloc)),
            text: String::new(alloc),
            escapes: false,
            low_in: false,
            low: None,
            high: None,
            field: None,
            clauses: Clauses::new(alloc),
            outer: OpenLists::new(alloc),
        }
    }

    /// Nothing of an item is read.
    pub fn clear(&mut self, stage: Stage, role: Role)
        ensures { machine self.new ≡ ready stage role (machine self.old).field
            (machine self.old).clauses (machine self.old).outer }
    {
        self.place = Place::Item(stage);
        self.role = role;
        self.name = Text::from_string(String::new(self.alloc));
        self.text.clear();
        self.escapes = false;
        self.low_in = false;
        self.low = None;
        self.high = None;
    }

    // The letters, which are moved out.
    pub fn take_text(&mut self) -> Text
        ensures text { result ≡ string_bytes self.old.text }
        ensures rest { machine self.new ≡ record (machine self.old) { text = [] } }
    {
        Text::from_string(mem::replace(&mut self.text, String::new(self.alloc)))
    }

    // The name, which is moved out.
    pub fn take_name(&mut self) -> Text
        ensures name { result ≡ self.old.name }
        ensures rest { machine self.new ≡ record (machine self.old) { name = [] } }
    {
        mem::replace(&mut self.name, Text::from_string(String::new(self.alloc)))
    }

    pub fn letter(&mut self, kind: Kind, c: char) -> Result<(), Memory>
        ensures { IfOk result
            (λ _. machine self.new ≡ letter_step kind (machine self.old) c (encode_utf8 c)) }
    {
        if c == '\\' {
            self.place = Place::Escape(kind);
            return Ok(());
        }
        self.text.push(c)?;
        self.place = Place::Letters(kind);
        Ok(())
    }

    // The first of some letters.
    pub fn begin(&mut self, kind: Kind, c: char) -> Result<bool, Memory>
        ensures { IfOk result (λ live. Moves
            (begin kind (machine self.old) c (encode_utf8 c)) live (machine self.new)) }
    {
        if !kind.takes(c) {
            return Ok(false);
        }
        self.text.clear();
        self.escapes = false;
        self.letter(kind, c)?;
        Ok(true)
    }

    // Letters behind a quote.
    pub fn begin_quoted(&mut self, kind: Kind)
        ensures { machine self.new ≡ record (machine self.old)
            { place = Letters kind; text = []; escapes = false } }
    {
        self.text.clear();
        self.escapes = false;
        self.place = Place::Letters(kind);
    }

    pub fn end_name(&mut self)
        ensures { machine self.new ≡ end_name (machine self.old) }
    {
        self.name = self.take_text();
        self.escapes = false;
        self.place = Place::Tested;
    }

    pub fn end_item(&mut self, what: What) -> Result<(), Memory>
        ensures { OnOk result (machine self.new ≡ end_item (what_tree what) (machine self.old)) }
    {
        let role = self.role;
        self.clauses.push(Clause { role, what })?;
        self.clear(Stage::Behind, Role::Optional);
        Ok(())
    }

    pub fn end_test(&mut self, test: Test) -> Result<(), Memory>
        ensures { OnOk result (machine self.new ≡ end_test test (machine self.old)) }
    {
        let name = self.take_name();
        self.end_item(What::Field { name, test })
    }

    pub fn end_bound(&mut self, side: Side, bound: Option<Text>)
        ensures { machine self.new ≡ end_bound side bound (machine self.old) }
    {
        self.text.clear();
        self.escapes = false;
        match side {
            Side::Low => self.low = bound,
            Side::High => self.high = bound,
        }
        self.place = Place::Closed(side);
    }

    pub fn end_range(&mut self, high_in: bool) -> Result<(), Memory>
        ensures { OnOk result (machine self.new ≡ end_range high_in (machine self.old)) }
    {
        let low = term_of(self.low.take());
        let high = term_of(self.high.take());
        let low_in = self.low_in;
        self.end_test(Test::Range {
            low,
            low_in,
            high,
            high_in,
        })
    }

    // Behind an upper bound.
    fn closed_high(&mut self, c: char) -> Result<bool, Memory>
        ensures { IfOk result (λ live. Moves
            (closed_step High (machine self.old) c) live (machine self.new)) }
    {
        if is_blank(c) {
            return Ok(true);
        }
        if c == ']' {
            self.end_range(true)?;
            return Ok(true);
        }
        if c == '}' {
            self.end_range(false)?;
            return Ok(true);
        }
        Ok(false)
    }

    // Behind a bound.
    pub fn closed(&mut self, side: Side, c: char) -> Result<bool, Memory>
        ensures { IfOk result (λ live. Moves
            (closed_step side (machine self.old) c) live (machine self.new)) }
    {
        match side {
            Side::Low => {
                if is_blank(c) {
                    self.place = Place::Gap;
                    return Ok(true);
                }
                Ok(false)
            }
            Side::High => self.closed_high(c),
        }
    }

    // What a bound without quotes says.
    pub fn bare_bound(&mut self) -> Option<Text>
        ensures value { result ≡ bare_says self.old.escapes (string_bytes self.old.text) }
        ensures rest { machine self.new ≡ record (machine self.old) { text = [] } }
    {
        if is_just("*", self.escapes, self.text.as_str()) {
            self.text.clear();
            return None;
        }
        Some(self.take_text())
    }
}
