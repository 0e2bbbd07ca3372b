// Reading an expression, a character at a time.
ghost use Rattle.std.specs.Prelude.{◌≡◌, ◌+◌, ◌<◌, ◌^◌, IfOk, false};
ghost use Rattle.expr_reader.specs.Machine.{machine, is_over};
ghost use Rattle.expr_reader.specs.Reading.{read_call};
ghost use Rattle.expr_reader.specs.Views.{inner_tree};
ghost use Rattle.expr_reader.specs.Fault.{Answers};

use crate::letters::{begun_bytes, is_blank};
use crate::open_calls::OpenCalls;
use crate::open_text::OpenText;
use crate::{Args, Call, ExprFault};
use std::alloc::Global;
use tuple_values::{Memory, Text};

/// What was read last.
#[derive(Clone, Copy, PartialEq, Eq)]
pub enum Place {
    /// Blanks, or nothing.
    Start,
    /// A part of the outermost call's name.
    Name,
    /// A blank behind that name.
    AfterName,
    /// An opening parenthesis, or a blank behind it.
    Open,
    /// A comma or an equals sign, or a blank behind it.
    Before,
    /// Bare text, or a blank behind it.
    Bare,
    /// A part of quoted text.
    Quote,
    /// A backslash in quoted text.
    Escape,
    /// A closing quote, or a blank behind it.
    AfterQuote,
    /// The closing parenthesis of a call in a call.
    AfterCall,
    /// A blank behind it.
    CallGap,
    /// The first letter of `as`.
    As,
    /// The second.
    AfterAs,
    /// A blank behind it.
    BeforeTo,
    /// A part of the new name.
    To,
    /// A blank behind it.
    AfterTo,
    /// The closing parenthesis of the outermost call, or a blank behind it.
    Close,
}

impl Place {
    ghost use Rattle.expr_reader.specs.Machine.{takes_wide};

    // Whether a character past ASCII may come next.
    fn takes_wide(self) -> bool
        ensures { result ≡ takes_wide self }
    {
        match self {
            Place::Open | Place::Before | Place::Bare | Place::Quote | Place::Escape => true,
            Place::Start
            | Place::Name
            | Place::AfterName
            | Place::AfterQuote
            | Place::AfterCall
            | Place::CallGap
            | Place::As
            | Place::AfterAs
            | Place::BeforeTo
            | Place::To
            | Place::AfterTo
            | Place::Close => false,
        }
    }
}

/// An expression as far as it is read: of the innermost open call the name and the whole
/// arguments, and of the next argument the key, the text and the call; the calls round it; how
/// many calls were begun, and how many were open at once.
#[derive(Drop)]
pub struct Reading {
    pub alloc: Global,
    pub place: Place,
    pub name: Text,
    pub args: Args,
    pub key: Option<Text>,
    pub text: OpenText,
    pub inner: Option<Call>,
    pub outer: OpenCalls,
    pub begun: u64,
    pub deepest: u64,
}

impl Reading {
    ghost use Rattle.expr_reader.specs.Machine.{start, Moves};
    ghost use Rattle.expr_reader.specs.Steps.{step};
    ghost use Rattle.expr_reader.specs.Reading.{read_end};

    /// Nothing is read yet.
    pub fn new(alloc: Global) -> Reading
        ensures { machine result ≡ start }
    {
        Reading {
            alloc,
            place: Place::Start,
            name: Text::from_string(String::new(alloc)),
            args: Args::new(alloc),
            key: None,
            text: OpenText::new(alloc),
            inner: None,
            outer: OpenCalls::new(alloc),
            begun: 0,
            deepest: 0,
        }
    }

    /// Whether more calls were begun, or open at once, than may be.
    pub fn is_over(&self) -> bool
        ensures { result ≡ is_over (machine self.now) }
    {
        self.deepest > 24 || self.begun > 200
    }

    /// Takes one more character. False: no expression goes on so.
    pub fn step(&mut self, c: char) -> Result<bool, Memory>
        requires { is_over (machine self.old) ≡ false }
        ensures { IfOk result (λ live. Moves (machine self.old)
            (step (machine self.old) c) live (machine self.new)) }
    {
        match self.place {
            Place::Start => self.at_start(c),
            Place::Name => self.in_name(c),
            Place::AfterName => self.after_name(c),
            Place::Open => self.after_open(c),
            Place::Before => self.before_word(c),
            Place::Bare => self.in_bare(c),
            Place::Quote => self.in_quote(c),
            Place::Escape => self.in_escape(c),
            Place::AfterQuote => self.after_quote(c),
            Place::AfterCall => self.after_call(c),
            Place::CallGap => self.in_call_gap(c),
            Place::As => Ok(self.in_as(c)),
            Place::AfterAs => Ok(self.after_as(c)),
            Place::BeforeTo => self.before_to(c),
            Place::To => self.in_to(c),
            Place::AfterTo => self.after_to(c),
            Place::Close => Ok(is_blank(c)),
        }
    }

    /// The call that is read, where nothing of it is missing and nothing follows.
    pub fn finish(self, at: u64, tail: &[u8]) -> Result<Call, ExprFault>
        requires { at + 3 < 2 ^ 64 }
        ensures { Answers (read_end (machine self) at tail.now) result }
    {
        if tail.is_empty() && self.place == Place::Close {
            return read_call(self.inner, at);
        }
        let begun = if self.place.takes_wide() {
            begun_bytes(tail)
        } else {
            0
        };
        Err(ExprFault::Syntax { at: at + begun })
    }
}

// The call that was read, or the place where it is missing.
fn read_call(inner: Option<Call>, at: u64) -> Result<Call, ExprFault>
    ensures { Answers (read_call (inner_tree inner) at) result }
{
    match inner {
        Some(call) => Ok(call),
        None => Err(ExprFault::Syntax { at }),
    }
}
