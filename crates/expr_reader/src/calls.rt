// Calls, as they are read: their names, how they open and close, and their new names.
ghost use Rattle.std.specs.Prelude.{◌≡◌, IfOk, false};
ghost use Rattle.expr_reader.specs.Machine.{machine, open_call, close, end_call};
ghost use Rattle.expr_reader.specs.Steps.{step_at};
ghost use Rattle.expr_reader.specs.Machine.{end_renamed, is_over, Moves};
ghost use Rattle.expr_reader.specs.Steps.{stop};
ghost use Rattle.expr_reader.specs.declared.machine.Place.TheVariants.{Start, Name, AfterName};
ghost use Rattle.expr_reader.specs.declared.machine.Place.TheVariants.{Open, AfterCall, CallGap};
ghost use Rattle.expr_reader.specs.declared.machine.Place.TheVariants.{As, AfterAs, BeforeTo, To};
ghost use Rattle.expr_reader.specs.declared.machine.Place.TheVariants.{AfterTo};

use crate::letters::{begins_name, is_blank, is_name_letter};
use crate::machine::{Place, Reading};
use crate::open_calls::OpenCall;
use crate::{Arg, ArgValue, Args, Call};
use std::mem;
use tuple_values::Memory;

impl Reading {
    /// A character before the outermost call.
    pub fn at_start(&mut self, c: char) -> Result<bool, Memory>
        ensures { IfOk result (λ live. Moves (machine self.old)
            (step_at Start (machine self.old) c) live (machine self.new)) }
    {
        if is_blank(c) {
            return Ok(true);
        }
        if begins_name(c) {
            self.text.clear();
            self.text.push(c)?;
            self.place = Place::Name;
            return Ok(true);
        }
        Ok(false)
    }

    /// A character in the outermost call's name.
    pub fn in_name(&mut self, c: char) -> Result<bool, Memory>
        requires { is_over (machine self.old) ≡ false }
        ensures { IfOk result (λ live. Moves (machine self.old)
            (step_at Name (machine self.old) c) live (machine self.new)) }
    {
        if is_name_letter(c) {
            self.text.push(c)?;
            return Ok(true);
        }
        if is_blank(c) {
            self.place = Place::AfterName;
            return Ok(true);
        }
        if c == '(' {
            self.open()?;
            return Ok(true);
        }
        Ok(false)
    }

    /// A character behind that name and a blank.
    pub fn after_name(&mut self, c: char) -> Result<bool, Memory>
        requires { is_over (machine self.old) ≡ false }
        ensures { IfOk result (λ live. Moves (machine self.old)
            (step_at AfterName (machine self.old) c) live (machine self.new)) }
    {
        if is_blank(c) {
            return Ok(true);
        }
        if c == '(' {
            self.open()?;
            return Ok(true);
        }
        Ok(false)
    }

    /// A call opens, whose name is the text.
    pub fn open(&mut self) -> Result<(), Memory>
        requires { is_over (machine self.old) ≡ false }
        ensures { IfOk result (λ _. machine self.new ≡ open_call (machine self.old)) }
    {
        let name = self.text.take(self.alloc);
        let outer = OpenCall {
            name: mem::replace(&mut self.name, name),
            args: mem::replace(&mut self.args, Args::new(self.alloc)),
            key: self.key.take(),
        };
        self.outer.push(outer)?;
        self.begun += 1;
        self.deepest = self.deepest.max(self.outer.count());
        self.place = Place::Open;
        Ok(())
    }

    /// The innermost call is closed.
    pub fn close(&mut self)
        ensures { machine self.new ≡ close (machine self.old) }
    {
        let Some(outer) = self.outer.pop() else {
            return;
        };
        let name = mem::replace(&mut self.name, outer.name);
        let args = mem::replace(&mut self.args, outer.args);
        self.key = outer.key;
        self.inner = Some(Call { name, args });
        self.place = if self.outer.count() == 0 {
            Place::Close
        } else {
            Place::AfterCall
        };
    }

    /// A character behind an opening parenthesis.
    pub fn after_open(&mut self, c: char) -> Result<bool, Memory>
        ensures { IfOk result (λ live. Moves (machine self.old)
            (step_at Open (machine self.old) c) live (machine self.new)) }
    {
        if is_blank(c) {
            return Ok(true);
        }
        if c == ')' {
            self.close();
            return Ok(true);
        }
        self.begin_word(c)
    }

    // The call is an argument, by itself or under its key.
    fn end_call(&mut self) -> Result<(), Memory>
        ensures { IfOk result (λ _. machine self.new ≡ end_call (machine self.old)) }
    {
        let Some(call) = self.inner.take() else {
            return Ok(());
        };
        self.text.clear();
        let arg = match self.key.take() {
            None => Arg::Sub(call),
            Some(key) => Arg::Named {
                key,
                value: ArgValue::Sub(call),
            },
        };
        self.args.push(arg)?;
        Ok(())
    }

    // A comma or a closing parenthesis ends the call.
    fn stop_call(&mut self, c: char) -> Result<bool, Memory>
        ensures { IfOk result (λ live. Moves (machine self.old)
            (stop (end_call (machine self.old)) c) live (machine self.new)) }
    {
        if c == ',' {
            self.end_call()?;
            self.place = Place::Before;
            return Ok(true);
        }
        if c == ')' {
            self.end_call()?;
            self.close();
            return Ok(true);
        }
        Ok(false)
    }

    /// A character behind a call in a call.
    pub fn after_call(&mut self, c: char) -> Result<bool, Memory>
        ensures { IfOk result (λ live. Moves (machine self.old)
            (step_at AfterCall (machine self.old) c) live (machine self.new)) }
    {
        if is_blank(c) {
            self.place = Place::CallGap;
            return Ok(true);
        }
        self.stop_call(c)
    }

    /// A character behind that and a blank. A call under a key gets no new name.
    pub fn in_call_gap(&mut self, c: char) -> Result<bool, Memory>
        ensures { IfOk result (λ live. Moves (machine self.old)
            (step_at CallGap (machine self.old) c) live (machine self.new)) }
    {
        if is_blank(c) {
            return Ok(true);
        }
        if c == 'a' && self.key.is_none() {
            self.place = Place::As;
            return Ok(true);
        }
        self.stop_call(c)
    }

    /// A character behind the first letter of `as`.
    pub fn in_as(&mut self, c: char) -> bool
        ensures { Moves (machine self.old)
            (step_at As (machine self.old) c) result (machine self.new) }
    {
        if c == 's' {
            self.place = Place::AfterAs;
            return true;
        }
        false
    }

    /// A character behind `as`.
    pub fn after_as(&mut self, c: char) -> bool
        ensures { Moves (machine self.old)
            (step_at AfterAs (machine self.old) c) result (machine self.new) }
    {
        if is_blank(c) {
            self.place = Place::BeforeTo;
            return true;
        }
        false
    }

    /// A character behind `as` and a blank.
    pub fn before_to(&mut self, c: char) -> Result<bool, Memory>
        ensures { IfOk result (λ live. Moves (machine self.old)
            (step_at BeforeTo (machine self.old) c) live (machine self.new)) }
    {
        if is_blank(c) {
            return Ok(true);
        }
        if begins_name(c) {
            self.text.clear();
            self.text.push(c)?;
            self.place = Place::To;
            return Ok(true);
        }
        Ok(false)
    }

    // The call is an argument under its new name.
    fn end_renamed(&mut self) -> Result<(), Memory>
        ensures { IfOk result (λ _. machine self.new ≡ end_renamed (machine self.old)) }
    {
        let Some(call) = self.inner.take() else {
            return Ok(());
        };
        let to = self.text.take(self.alloc);
        self.key = None;
        self.args.push(Arg::Renamed { call, to })?;
        Ok(())
    }

    // A comma or a closing parenthesis ends the new name.
    fn stop_renamed(&mut self, c: char) -> Result<bool, Memory>
        ensures { IfOk result (λ live. Moves (machine self.old)
            (stop (end_renamed (machine self.old)) c) live (machine self.new)) }
    {
        if c == ',' {
            self.end_renamed()?;
            self.place = Place::Before;
            return Ok(true);
        }
        if c == ')' {
            self.end_renamed()?;
            self.close();
            return Ok(true);
        }
        Ok(false)
    }

    /// A character in the new name.
    pub fn in_to(&mut self, c: char) -> Result<bool, Memory>
        ensures { IfOk result (λ live. Moves (machine self.old)
            (step_at To (machine self.old) c) live (machine self.new)) }
    {
        if is_name_letter(c) {
            self.text.push(c)?;
            return Ok(true);
        }
        if is_blank(c) {
            self.place = Place::AfterTo;
            return Ok(true);
        }
        self.stop_renamed(c)
    }

    /// A character behind that name and a blank.
    pub fn after_to(&mut self, c: char) -> Result<bool, Memory>
        ensures { IfOk result (λ live. Moves (machine self.old)
            (step_at AfterTo (machine self.old) c) live (machine self.new)) }
    {
        if is_blank(c) {
            return Ok(true);
        }
        self.stop_renamed(c)
    }
}
