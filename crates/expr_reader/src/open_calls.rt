// The calls round the innermost open one.
ghost use Rattle.std.specs.Prelude.{◌≡◌, ◌∷◌, [], OnOk, length};

use crate::Args;
use std::alloc::Global;
use std::marker::Model;
use tuple_values::{Memory, Text};

/// An open call as far as it was read when another one opened in it, and the key under which that
/// one stands. Round the outermost call stands an empty one.
#[derive(Drop)]
pub struct OpenCall {
    pub name: Text,
    pub args: Args,
    pub key: Option<Text>,
}

/// Open calls. A contract sees their list, the last opened first.
#[derive(Drop)]
pub struct OpenCalls {
    calls: Vec<OpenCall>,
}

impl Model for OpenCalls {
    ghost use Rattle.std.specs.Prelude.{List, reverse};
    ghost use Rattle.expr_reader.specs.declared.open_calls.OpenCall.{OpenCall};

    ghost Value = { List OpenCall };

    ghost use Rattle.expr_reader.specs.OpenCalls.{open_calls_code};

    ghost coded = { open_calls_code };

    ghost view = { λ o. reverse o.calls.items };
}

impl OpenCalls {
    ghost use Rattle.expr_reader.specs.OpenCalls.{Pops};

    /// No call is open.
    pub fn new(alloc: Global) -> OpenCalls
        ensures { result ≡ [] }
    {
        OpenCalls {
            calls: Vec::new(alloc),
        }
    }

    /// One more call is open.
    pub fn push(&mut self, call: OpenCall) -> Result<(), Memory>
        ensures { OnOk result (self.new ≡ call ∷ self.old) }
    {
        self.calls.push(call)?;
        Ok(())
    }

    /// Takes off the call that was opened last.
    pub fn pop(&mut self) -> Option<OpenCall>
        ensures { Pops self.old result self.new }
    {
        self.calls.pop()
    }

    /// How many calls are open.
    pub fn count(&self) -> u64
        ensures { result ≡ length self.now }
    {
        self.calls.len() as u64
    }
}
