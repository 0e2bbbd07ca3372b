// Reading a query, a character at a time.
ghost use Rattle.std.specs.Prelude.{◌≡◌, [], ◌∷◌, false, ◌==◌, if◌then◌else◌, IfOk, OnOk};
ghost use Rattle.std.specs.Prelude.{Some, None, encode_utf8};
ghost use Rattle.query_syntax.specs.declared.place.Side.TheVariants.{Low};
ghost use Rattle.query_syntax.specs.declared.place.Kind.TheVariants.{Number, Bare};
ghost use Rattle.query_syntax.specs.declared.place.Place.TheVariants.{Letters, Escape};
ghost use Rattle.query_syntax.specs.declared.place.Place.TheVariants.{Minus, MinusEscape, Before};
ghost use Rattle.query_syntax.specs.declared.place.Place.TheVariants.{Gap, To};

use crate::letters::{is_blank, is_digit, is_just, is_operator};
use crate::place::{Kind, Place, Side, Stage};
use crate::reading::Reading;
use crate::{Clauses, Term, Test};
use tuple_values::Memory;

impl Reading {
    ghost use Rattle.query_syntax.specs.Machine.{machine};
    ghost use Rattle.query_syntax.specs.Steps.{end_step, step_at, step};
    ghost use Rattle.query_syntax.specs.ItemSteps.{test_step, before_step};
    ghost use Rattle.query_syntax.specs.Steps.{Moves};
    ghost use Rattle.query_syntax.specs.Reading.{whole_at, asks};

    fn in_letters(&mut self, kind: Kind, c: char) -> Result<bool, Memory>
        ensures { IfOk result (λ live. Moves
            (step_at (Letters kind) (machine self.old) c (encode_utf8 c)) live
            (machine self.new)) }
    {
        if kind.takes(c) {
            self.letter(kind, c)?;
            return Ok(true);
        }
        self.end(kind, c)
    }

    fn in_escape(&mut self, kind: Kind, c: char) -> Result<bool, Memory>
        ensures { IfOk result (λ live. Moves
            (step_at (Escape kind) (machine self.old) c (encode_utf8 c)) live
            (machine self.new)) }
    {
        if c == 'u' {
            return Ok(false);
        }
        self.text.push(c)?;
        self.escapes = true;
        self.place = Place::Letters(kind);
        Ok(true)
    }

    fn begin_range(&mut self, low_in: bool)
        ensures { machine self.new ≡ record (machine self.old)
            { place = Before Low; low_in = low_in } }
    {
        self.low_in = low_in;
        self.place = Place::Before(Side::Low);
    }

    fn begin_number(&mut self) -> Result<(), Memory>
        ensures { OnOk result (machine self.new ≡ record (machine self.old)
            { place = Minus; text = 45 ∷ []; escapes = false }) }
    {
        self.text.clear();
        self.text.push('-')?;
        self.escapes = false;
        self.place = Place::Minus;
        Ok(())
    }

    // Behind the colon.
    #[tactic(auto, unfolding(crate::specs::ItemSteps::test_step))]
    pub fn at_test(&mut self, c: char) -> Result<bool, Memory>
        ensures { IfOk result (λ live. Moves
            (test_step (machine self.old) c (encode_utf8 c)) live (machine self.new)) }
    {
        if is_blank(c) {
            self.place = Place::Tested;
            return Ok(true);
        }
        match c {
            '*' => {
                self.end_test(Test::Present)?;
                Ok(true)
            }
            '"' => {
                self.begin_quoted(Kind::Quote);
                Ok(true)
            }
            '[' => {
                self.begin_range(true);
                Ok(true)
            }
            '{' => {
                self.begin_range(false);
                Ok(true)
            }
            '-' => {
                self.begin_number()?;
                Ok(true)
            }
            '(' => self.open_group(),
            '+' => Ok(false),
            _ => self.begin(Kind::Word, c),
        }
    }

    // A digit behind a minus.
    fn digit(&mut self, c: char) -> Result<bool, Memory>
        ensures { IfOk result (λ live. Moves
            (step_at MinusEscape (machine self.old) c (encode_utf8 c)) live (machine self.new)) }
    {
        if !is_digit(c) {
            return Ok(false);
        }
        self.text.push(c)?;
        self.place = Place::Letters(Kind::Number);
        Ok(true)
    }

    fn after_minus(&mut self, c: char) -> Result<bool, Memory>
        ensures { IfOk result (λ live. Moves
            (step_at Minus (machine self.old) c (encode_utf8 c)) live (machine self.new)) }
    {
        if c == '\\' {
            self.escapes = true;
            self.place = Place::MinusEscape;
            return Ok(true);
        }
        self.digit(c)
    }

    fn before_bound(&mut self, side: Side, c: char) -> Result<bool, Memory>
        ensures { IfOk result (λ live. Moves
            (before_step side (machine self.old) c (encode_utf8 c)) live (machine self.new)) }
    {
        if is_blank(c) {
            return Ok(true);
        }
        if c == '"' {
            self.begin_quoted(Kind::Quoted(side));
            return Ok(true);
        }
        self.begin(Kind::Bare(side), c)
    }

    // The one character that may come next.
    fn accept(&mut self, wanted: char, c: char, next: Place) -> bool
        ensures { Moves (if c == wanted then Some (record (machine self.old) { place = next })
            else None) result (machine self.new) }
    {
        if c == wanted {
            self.place = next;
            return true;
        }
        false
    }

    fn in_gap(&mut self, c: char) -> bool
        ensures { Moves (step_at Gap (machine self.old) c (encode_utf8 c)) result
            (machine self.new) }
    {
        is_blank(c) || self.accept('T', c, Place::T)
    }

    fn after_to(&mut self, c: char) -> bool
        ensures { Moves (step_at To (machine self.old) c (encode_utf8 c)) result
            (machine self.new) }
    {
        if is_blank(c) {
            self.place = Place::Before(Side::High);
            return true;
        }
        false
    }

    // Behind the letters of a bound without quotes.
    fn end_bound_letters(&mut self, side: Side, c: char) -> Result<bool, Memory>
        ensures { IfOk result (λ live. Moves
            (end_step (Bare side) (machine self.old) c (encode_utf8 c)) live
            (machine self.new)) }
    {
        if is_just("TO", self.escapes, self.text.as_str()) {
            return Ok(false);
        }
        let bound = self.bare_bound();
        self.end_bound(side, bound);
        self.closed(side, c)
    }

    // Behind the letters of a number.
    fn end_number(&mut self, c: char) -> Result<bool, Memory>
        ensures { IfOk result (λ live. Moves
            (end_step Number (machine self.old) c (encode_utf8 c)) live (machine self.new)) }
    {
        let text = self.take_text();
        self.end_test(Test::Word(Term::of(text)))?;
        self.item(Stage::Behind, c)
    }

    // Behind letters.
    fn end(&mut self, kind: Kind, c: char) -> Result<bool, Memory>
        ensures { IfOk result (λ live. Moves
            (end_step kind (machine self.old) c (encode_utf8 c)) live (machine self.new)) }
    {
        match kind {
            Kind::Name(stage) => self.after_name(stage, c),
            Kind::Word => {
                if is_operator(self.escapes, self.text.as_str()) {
                    return Ok(false);
                }
                self.end_word(c)
            }
            Kind::Number => self.end_number(c),
            Kind::Quote => {
                if c == '"' {
                    let text = self.take_text();
                    self.end_test(Test::Word(Term::of(text)))?;
                    return Ok(true);
                }
                Ok(false)
            }
            Kind::Bare(side) => self.end_bound_letters(side, c),
            Kind::Quoted(side) => {
                if c == '"' {
                    let text = self.take_text();
                    self.end_bound(side, Some(text));
                    return Ok(true);
                }
                Ok(false)
            }
        }
    }

    /// Takes one more character. False: no query goes on so.
    pub fn step(&mut self, c: char) -> Result<bool, Memory>
        ensures { IfOk result (λ live. Moves
            (step (machine self.old) c (encode_utf8 c)) live (machine self.new)) }
    {
        match self.place {
            Place::Item(stage) => self.item(stage, c),
            Place::Star => self.after_star(c),
            Place::Colon => self.after_colon(c),
            Place::Letters(kind) => self.in_letters(kind, c),
            Place::Escape(kind) => self.in_escape(kind, c),
            Place::Tested => self.at_test(c),
            Place::Minus => self.after_minus(c),
            Place::MinusEscape => self.digit(c),
            Place::Before(side) => self.before_bound(side, c),
            Place::Closed(side) => self.closed(side, c),
            Place::Gap => Ok(self.in_gap(c)),
            Place::T => Ok(self.accept('O', c, Place::To)),
            Place::To => Ok(self.after_to(c)),
        }
    }

    // The clauses that are read, if the last item is whole and each list is closed.
    fn whole(self) -> Option<Clauses>
        ensures { result ≡ whole_at (machine self).place (machine self) }
    {
        match self.place {
            Place::Item(Stage::Behind) => {
                if self.outer.count() > 0 {
                    return None;
                }
                Some(self.clauses)
            }
            _ => None,
        }
    }

    /// The clauses of the text, if it may end here.
    pub fn finish(mut self) -> Result<Option<Clauses>, Memory>
        ensures { IfOk result (λ clauses. clauses ≡ asks (Some (machine self))) }
    {
        if !self.step(' ')? {
            return Ok(None);
        }
        Ok(self.whole())
    }
}
