// What an expression says.
ghost use Rattle.std.specs.Prelude.{◌≡◌, ◌<◌, ◌++◌, ◌∷◌, [], OnErr, OnOk, length, slice_index_or};
ghost use Rattle.expr_reader.specs.Tree.{arg_depth, args_depth};
ghost use Rattle.expr_reader.specs.Views.{arg_tree};

use std::alloc::Global;
use std::marker::Model;
use tuple_values::{Memory, Text};

/// Bare or quoted text.
#[derive(Drop)]
pub struct Word {
    pub text: Text,
    pub quoted: bool,
}

/// What stands behind a key and its equals sign.
#[cycle(calls)]
#[derive(Drop)]
pub enum ArgValue {
    Plain(Word),
    Sub(Call),
}

/// An argument of a call: a word, a value under a key, a call, or a call under a new name.
#[cycle(calls)]
#[derive(Drop)]
pub enum Arg {
    Plain(Word),
    Named { key: Text, value: ArgValue },
    Sub(Call),
    Renamed { call: Call, to: Text },
}

/// A function's name with its arguments.
#[cycle(calls)]
#[derive(Drop)]
pub struct Call {
    pub name: Text,
    pub args: Args,
}

/// Arguments in their order. A contract sees the list of their trees.
#[cycle(calls)]
pub struct Args {
    items: Vec<Arg>,
}

impl Drop for Args {
    #[cycle(calls)]
    fn drop(self) {
        let Args { items } = self;
        drop(items);
    }
}

impl Model for Args {
    ghost use Rattle.std.specs.Prelude.{List};
    ghost use Rattle.expr_reader.specs.Tree.{ArgTree, args_depth};

    ghost Value = { List ArgTree };

    ghost use Rattle.expr_reader.specs.Codes.{args_code};

    ghost coded = { args_code };

    ghost use Rattle.expr_reader.specs.Views.{arg_trees};

    ghost view = { λ a. arg_trees a.items.items };

    ghost size = { args_depth };

    ghost use Rattle.expr_reader.specs.Falls.{args_fall};

    ghost size_decreases = { λ a h. args_fall a.items.items };
}

impl Args {
    /// The list of no argument.
    pub fn new(alloc: Global) -> Args
        ensures { result ≡ [] }
    {
        Args {
            items: Vec::new(alloc),
        }
    }

    /// Adds an argument at the end. After an `Err` the argument is dropped.
    pub fn push(&mut self, arg: Arg) -> Result<(), Memory>
        ensures ok { OnOk result (self.new ≡ self.old ++ arg_tree arg ∷ []) }
        ensures err { OnErr result (self.new ≡ self.old) }
    {
        self.items.push(arg)?;
        Ok(())
    }

    /// How many arguments there are.
    pub fn count(&self) -> u64
        ensures { result ≡ length self.now }
    {
        self.items.len() as u64
    }

    /// The k-th argument, counted from 0.
    pub fn get(&self, k: u64) -> &Arg
        requires { k < length self.now }
        ensures value { (d : _) → arg_tree result.now ≡ slice_index_or self.now k d }
        ensures smaller { arg_depth (arg_tree result.now) < args_depth self.now }
    {
        &self.items[k as usize]
    }
}
