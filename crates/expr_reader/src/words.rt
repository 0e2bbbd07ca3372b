// Words, keys and quoted texts, as they are read.
ghost use Rattle.std.specs.Prelude.{◌≡◌, IfOk, false, true};
ghost use Rattle.expr_reader.specs.Machine.{machine, end_word};
ghost use Rattle.expr_reader.specs.Steps.{step_at, bare_step, begin_word};
ghost use Rattle.expr_reader.specs.Machine.{is_over, Moves};
ghost use Rattle.expr_reader.specs.Steps.{end_key, begin_call, stop};
ghost use Rattle.expr_reader.specs.declared.machine.Place.TheVariants.{Before, Quote, Escape};
ghost use Rattle.expr_reader.specs.declared.machine.Place.TheVariants.{AfterQuote};

use crate::letters::{is_blank, is_key, is_name, is_special};
use crate::machine::{Place, Reading};
use crate::{Arg, ArgValue, Word};
use tuple_values::Memory;

impl Reading {
    // The word is an argument, by itself or under its key.
    fn end_word(&mut self, quoted: bool) -> Result<(), Memory>
        ensures { IfOk result (λ _. machine self.new ≡ end_word quoted (machine self.old)) }
    {
        let text = self.text.take(self.alloc);
        let word = Word { text, quoted };
        let arg = match self.key.take() {
            None => Arg::Plain(word),
            Some(key) => Arg::Named {
                key,
                value: ArgValue::Plain(word),
            },
        };
        self.args.push(arg)?;
        Ok(())
    }

    // A comma or a closing parenthesis ends the word.
    fn stop_word(&mut self, quoted: bool, c: char) -> Result<bool, Memory>
        ensures { IfOk result (λ live. Moves (machine self.old)
            (stop (end_word quoted (machine self.old)) c) live (machine self.new)) }
    {
        if c == ',' {
            self.end_word(quoted)?;
            self.place = Place::Before;
            return Ok(true);
        }
        if c == ')' {
            self.end_word(quoted)?;
            self.close();
            return Ok(true);
        }
        Ok(false)
    }

    /// A word or a call begins.
    pub fn begin_word(&mut self, c: char) -> Result<bool, Memory>
        ensures { IfOk result (λ live. Moves (machine self.old)
            (begin_word (machine self.old) c) live (machine self.new)) }
    {
        if c == '"' {
            self.text.clear();
            self.place = Place::Quote;
            return Ok(true);
        }
        if is_special(c) {
            return Ok(false);
        }
        self.text.clear();
        self.text.push(c)?;
        self.place = Place::Bare;
        Ok(true)
    }

    /// A character behind a comma or an equals sign.
    pub fn before_word(&mut self, c: char) -> Result<bool, Memory>
        ensures { IfOk result (λ live. Moves (machine self.old)
            (step_at Before (machine self.old) c) live (machine self.new)) }
    {
        if is_blank(c) {
            return Ok(true);
        }
        self.begin_word(c)
    }

    /// A character in or behind bare text.
    pub fn in_bare(&mut self, c: char) -> Result<bool, Memory>
        requires { is_over (machine self.old) ≡ false }
        ensures { IfOk result (λ live. Moves (machine self.old)
            (bare_step (machine self.old) c) live (machine self.new)) }
    {
        if is_blank(c) {
            self.text.push_blank(c)?;
            return Ok(true);
        }
        if c == '=' {
            return Ok(self.end_key());
        }
        if c == '(' {
            return self.begin_call();
        }
        if is_special(c) {
            return self.stop_word(false, c);
        }
        self.text.push(c)?;
        Ok(true)
    }

    // The bare text is a key, if it can be one and there is none yet.
    fn end_key(&mut self) -> bool
        ensures { Moves (machine self.old) (end_key (machine self.old)) result (machine self.new) }
    {
        if self.key.is_some() || !is_key(self.text.kept()) {
            return false;
        }
        self.key = Some(self.text.take(self.alloc));
        self.place = Place::Before;
        true
    }

    // The bare text is the name of a call, if it can be one.
    fn begin_call(&mut self) -> Result<bool, Memory>
        requires { is_over (machine self.old) ≡ false }
        ensures { IfOk result (λ live. Moves (machine self.old)
            (begin_call (machine self.old)) live (machine self.new)) }
    {
        if !is_name(self.text.kept()) {
            return Ok(false);
        }
        self.open()?;
        Ok(true)
    }

    /// A character in quoted text.
    pub fn in_quote(&mut self, c: char) -> Result<bool, Memory>
        ensures { IfOk result (λ live. Moves (machine self.old)
            (step_at Quote (machine self.old) c) live (machine self.new)) }
    {
        if c == '"' {
            self.place = Place::AfterQuote;
        } else if c == '\\' {
            self.place = Place::Escape;
        } else {
            self.text.push(c)?;
        }
        Ok(true)
    }

    /// A character behind a backslash in quoted text.
    pub fn in_escape(&mut self, c: char) -> Result<bool, Memory>
        ensures { IfOk result (λ live. Moves (machine self.old)
            (step_at Escape (machine self.old) c) live (machine self.new)) }
    {
        if c == '"' {
            self.text.push('"')?;
        } else {
            self.text.push('\\')?;
            self.text.push(c)?;
        }
        self.place = Place::Quote;
        Ok(true)
    }

    /// A character behind a closing quote.
    pub fn after_quote(&mut self, c: char) -> Result<bool, Memory>
        ensures { IfOk result (λ live. Moves (machine self.old)
            (step_at AfterQuote (machine self.old) c) live (machine self.new)) }
    {
        if is_blank(c) {
            return Ok(true);
        }
        self.stop_word(true, c)
    }
}
