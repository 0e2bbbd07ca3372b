// Copies of the expressions that have no input.
ghost use Rattle.std.specs.Prelude.{◌≡◌, [], IfOk, IsSome};
ghost use Rattle.expr_types.specs.ExprTree.{node, tuple, inputs_of, expr_tree};
ghost use Rattle.expr_types.specs.Parts.{search_parts, topic_parts};

use crate::Expr;
use std::alloc::Global;
use tuple_values::{FieldList, Memory, TryCopy, Tuple};

/// The same search.
pub(crate) fn search(alloc: Global, search: &Expr) -> Result<Expr, Memory>
    requires { IsSome (search_parts search.now) }
    ensures { IfOk result (λ copy. expr_tree copy ≡ expr_tree search.now) }
{
    let Expr::Search {
        collection,
        q,
        fl,
        sort,
        rows,
        partition_keys,
    } = search
    else {
        unreachable!();
    };
    let collection = collection.copy(alloc)?;
    let q = q.copy(alloc)?;
    let fl = fl.copy(alloc)?;
    let sort = sort.copy(alloc)?;
    let partition_keys = names_maybe(alloc, partition_keys)?;
    Ok(Expr::Search {
        collection,
        q,
        fl,
        sort,
        rows: *rows,
        partition_keys,
    })
}

fn names_maybe(alloc: Global, names: &Option<FieldList>) -> Result<Option<FieldList>, Memory>
    ensures { IfOk result (λ copy. copy ≡ names.now) }
{
    match names {
        None => Ok(None),
        Some(names) => Ok(Some(names.copy(alloc)?)),
    }
}

/// The tuple of the same fields.
pub(crate) fn tuple(alloc: Global, fields: &Tuple) -> Result<Expr, Memory>
    ensures { IfOk result (λ copy. expr_tree copy ≡ node (tuple fields.now) (inputs_of [])) }
{
    let fields = fields.copy(alloc)?;
    Ok(Expr::Tuple { fields })
}

/// The same topic.
pub(crate) fn topic(alloc: Global, topic: &Expr) -> Result<Expr, Memory>
    requires { IsSome (topic_parts topic.now) }
    ensures { IfOk result (λ copy. expr_tree copy ≡ expr_tree topic.now) }
{
    let Expr::Topic {
        checkpoints,
        collection,
        id,
        q,
        q_text,
        fl,
        init,
    } = topic
    else {
        unreachable!();
    };
    let checkpoints = checkpoints.copy(alloc)?;
    let collection = collection.copy(alloc)?;
    let id = id.copy(alloc)?;
    let q = q.copy(alloc)?;
    let q_text = q_text.copy(alloc)?;
    let fl = fl.copy(alloc)?;
    Ok(Expr::Topic {
        checkpoints,
        collection,
        id,
        q,
        q_text,
        fl,
        init: *init,
    })
}
