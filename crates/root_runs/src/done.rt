// What an expression did.
ghost use Rattle.std.specs.Prelude.{◌≡◌, IfOk};
ghost use Rattle.expr_types.specs.ExprTree.{expr_tree};
ghost use Rattle.root_runs.specs.Dones.{given, misplaced, passed, stopped, unknown};

use crate::Docs;
use expr_types::Expr;
use std::alloc::Global;
use tuple_values::{Memory, Text, Tuples};

/// What an expression did at a site: the tuples that it gives, what is told of its fault, where it
/// has one, how many tuples it read to write or to pass them on, and how many of its writes stand.
#[derive(Drop)]
pub struct Done {
    pub docs: Docs,
    pub exception: Option<Text>,
    pub read: u64,
    pub stand: u64,
}

impl Done {
    // Tuples that are given.
    pub(crate) fn given(docs: Docs) -> Done
        ensures { result ≡ given docs }
    {
        Done {
            docs,
            exception: None,
            read: 0,
            stand: 0,
        }
    }

    // Tuples that a commit passes on.
    pub(crate) fn passed(docs: Tuples) -> Done
        ensures { result ≡ passed docs }
    {
        let read = docs.count() as u64;
        Done {
            docs: Docs::listed(docs),
            exception: None,
            read,
            stand: 0,
        }
    }

    // A fault before anything was done.
    pub(crate) fn stopped(alloc: Global, text: &str) -> Result<Done, Memory>
        ensures { IfOk result (λ done. done ≡ stopped text.now) }
    {
        let text = Text::of(alloc, text)?;
        Ok(Done {
            docs: Docs::listed(Tuples::empty(alloc)),
            exception: Some(text),
            read: 0,
            stand: 0,
        })
    }

    // The fault of a collection that isn't there.
    pub(crate) fn unknown(alloc: Global, name: &Text) -> Result<Done, Memory>
        ensures { IfOk result (λ done. done ≡ unknown name.now) }
    {
        let mut text = String::from_str(alloc, "UnknownCollection ")?;
        text.push_str(name.as_str())?;
        Ok(Done {
            docs: Docs::listed(Tuples::empty(alloc)),
            exception: Some(Text::from_string(text)),
            read: 0,
            stand: 0,
        })
    }

    // The fault of an expression that stands where it isn't carried out.
    pub(crate) fn misplaced(alloc: Global, expr: &Expr) -> Result<Done, Memory>
        ensures { IfOk result (λ done. done ≡ misplaced (expr_tree expr.now)) }
    {
        let mut text = String::from_str(alloc, "BadPlace ")?;
        text.push_str(expr.function())?;
        Ok(Done {
            docs: Docs::listed(Tuples::empty(alloc)),
            exception: Some(Text::from_string(text)),
            read: 0,
            stand: 0,
        })
    }
}
