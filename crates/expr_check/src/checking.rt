// The check of an expression.
ghost use Rattle.std.specs.Prelude.{◌≡◌, ◌≢◌, None, Some, IfOk, IfErr, OnOk, IsTrue};
ghost use Rattle.expr_types.specs.ExprTree.{expr_tree};
ghost use Rattle.expr_types.specs.Plain.{IsPlain};
ghost use Rattle.expr_types.specs.Planned.{IsPlanned};
ghost use Rattle.expr_check.specs.Law.{InputsAreSorted, ListsAreInOrder, ListsHaveOnlyFields};
ghost use Rattle.expr_check.specs.Law.{PlainRootsArePlain};
ghost use Rattle.expr_check.specs.Reads.{are_known};
ghost use Rattle.expr_check.specs.Views.{expr_of};
ghost use Rattle.expr_check.specs.Held.{IsHeld};
ghost use Rattle.expr_check.specs.Walk.{fault_of, named_in, order_of, fields_of, collections_of};
ghost use Rattle.expr_check.specs.declared.fault.CheckFault.TheVariants.{OutOfMemory};
ghost use Rattle.expr_check.specs.declared.roots.Roots.TheVariants.{Plain};

use crate::checked::Within;
use crate::standing::at_root;
use crate::walk::walk;
use crate::walked::Walked;
use crate::{CheckFault, Checked, Order, Roots};
use expr_types::Expr;
use std::alloc::Global;
use tuple_values::{FieldList, Names};

/// Checks that an expression may be evaluated over collections of these names. The expression is
/// moved in, and dropped after an `Err`.
pub fn check(alloc: Global, expr: Expr, names: &Names, roots: Roots) -> Result<Checked, CheckFault>
    // A plan gives it.
    requires planned { IsPlanned (expr_tree expr) }

    // It may be evaluated only where there is no fault, and the fault is the first one.
    ensures ok { OnOk result (fault_of roots names.now (expr_tree expr) ≡ None) }
    ensures err { IfErr result (λ fault. fault ≢ OutOfMemory
        → fault_of roots names.now (expr_tree expr) ≡ Some fault) }

    // Each collection that the expression names is there.
    ensures stands { OnOk result (IsTrue (are_known (named_in (expr_tree expr)) names.now)) }

    // With plain roots alone it only reads documents.
    ensures plain { OnOk result (roots ≡ Plain → IsPlain (expr_tree expr)) }

    // What is checked is this expression.
    ensures whole { IfOk result (λ checked. expr_of checked ≡ expr) }
{
    let Judged {
        order,
        fields,
        reads,
        within,
    } = judge(alloc, &expr, names, roots)?;
    Ok(Checked::new(expr, order, fields, reads, within))
}

// What is known of an expression without a fault.
#[derive(Drop)]
struct Judged {
    order: Order,
    fields: FieldList,
    reads: FieldList,
    within: Within,
}

// What is known of an expression, or its first fault.
fn judge(alloc: Global, expr: &Expr, names: &Names, roots: Roots) -> Result<Judged, CheckFault>
    requires planned { IsPlanned (expr_tree expr.now) }
    ensures ok { OnOk result (fault_of roots names.now (expr_tree expr.now) ≡ None) }
    ensures err { IfErr result (λ fault. fault ≢ OutOfMemory
        → fault_of roots names.now (expr_tree expr.now) ≡ Some fault) }
    ensures order { IfOk result (λ judged. judged.order ≡ order_of (expr_tree expr.now)) }
    ensures fields { IfOk result (λ judged. judged.fields ≡ fields_of (expr_tree expr.now)) }
    ensures reads { IfOk result (λ judged. judged.reads ≡ collections_of (expr_tree expr.now)) }
    ensures held { IfOk result (λ judged. IsHeld judged.within (expr_tree expr.now)) }
{
    let Walked {
        order,
        fields,
        reads,
        fault,
        within,
        ..
    } = walk(alloc, expr, at_root(), names, roots)?;
    match fault {
        Some(fault) => Err(fault),
        None => Ok(Judged {
            order,
            fields,
            reads,
            within,
        }),
    }
}

/// The law of expressions: where a plain one has no fault, each input is in the order that its
/// function needs, and what the expression gives is in its order, whatever the documents are.
pub fn orders_hold()
    ensures sorted { InputsAreSorted }
    ensures ordered { ListsAreInOrder }
{}

/// The law of fields: no tuple that an expression gives has a field outside those of the
/// expression, whatever the documents are.
pub fn fields_hold()
    ensures { ListsHaveOnlyFields }
{}

/// The law of plain roots: where an expression has no fault with them, it only reads documents.
pub fn plain_roots_hold()
    ensures { PlainRootsArePlain }
{}
