// Expressions that may be evaluated.
ghost use Rattle.std.specs.Prelude.{◌≡◌, None, map, option_map};
ghost use Rattle.expr_types.specs.ExprTree.{expr_tree};
ghost use Rattle.expr_types.specs.Lists.{list_of, AreSorted};
ghost use Rattle.expr_types.specs.Plain.{IsPlain};
ghost use Rattle.expr_types.specs.Planned.{IsPlanned};
ghost use Rattle.expr_types.specs.Rules.{Collections};
ghost use Rattle.expr_check.specs.Fields.{HaveOnly};
ghost use Rattle.expr_check.specs.Held.{IsFaultless, IsHeld};
ghost use Rattle.expr_check.specs.Orders.{IsInOrder};
ghost use Rattle.expr_check.specs.Parts.{input_of, parallels_of};
ghost use Rattle.expr_check.specs.Reads.{are_known};
ghost use Rattle.expr_check.specs.Views.{expr_of, tree_of, part_tree};
ghost use Rattle.expr_check.specs.Walk.{order_of, fields_of, own_fault, collections_of, named_in};

use crate::{Order, reads};
use expr_types::Expr;
use sort_spec::SortSpec;
use std::marker::Model;
use tuple_values::{FieldList, Names};

/// An expression that may be evaluated: each input has the order that its function needs. A contract
/// sees the expression alone.
#[cycle(checked)]
pub struct Checked {
    expr: Expr,
    order: Order,
    fields: FieldList,
    collections: FieldList,
    within: Within,
}

impl Drop for Checked {
    #[cycle(checked)]
    fn drop(self) {
        let Checked {
            expr,
            order,
            fields,
            collections,
            within,
        } = self;
        drop(expr);
        drop(order);
        drop(fields);
        drop(collections);
        drop(within);
    }
}

/// The checked input of a parallel: among how many workers its work is split, and by which sort what
/// they give is merged.
#[cycle(checked)]
#[derive(Drop)]
pub struct ParallelPart {
    pub checked: Checked,
    pub workers: u16,
    pub sort: SortSpec,
}

/// What a checked expression holds besides itself.
#[cycle(checked)]
#[derive(Drop)]
pub(crate) enum Within {
    /// The input of a function that runs it.
    Input(Box<Checked>),
    /// The inputs of the outermost parallel calls, from the left to the right.
    Parallels(Vec<ParallelPart>),
}

impl Model for Checked {
    ghost use Rattle.expr_types.specs.declared.expr.Expr.{Expr};

    ghost Value = { Expr };

    ghost use Rattle.expr_types.specs.contracts.expr.Expr as e;
    ghost use Rattle.std.specs.Coded.{codes};

    ghost coded = { Prim.hlevel (codes, e.the_row.coded) };

    ghost use Rattle.expr_types.specs.ExprTree.{expr_tree};
    ghost use Rattle.expr_types.specs.Heights.{height};
    ghost use Rattle.expr_check.specs.Held.{IsChecked};

    ghost view = { λ c. c.expr };

    ghost invariant = { IsChecked };

    ghost size = { λ e. height (expr_tree e) };

    ghost use Rattle.expr_check.specs.Lower.{within_lower};

    ghost size_decreases = { λ c h. within_lower c.within (expr_tree c.expr) h.held };
}

impl Checked {
    // The expression with what was found of it.
    pub(crate) fn new(
        expr: Expr,
        order: Order,
        fields: FieldList,
        collections: FieldList,
        within: Within,
    ) -> Checked
        requires planned { IsPlanned (expr_tree expr) }
        requires faultless { IsFaultless (expr_tree expr) }
        requires ordered { order ≡ order_of (expr_tree expr) }
        requires named { fields ≡ fields_of (expr_tree expr) }
        requires reads { collections ≡ collections_of (expr_tree expr) }
        requires held { IsHeld within (expr_tree expr) }
        ensures { expr_of result ≡ expr }
    {
        Checked {
            expr,
            order,
            fields,
            collections,
            within,
        }
    }

    /// The expression, which is as a plan gives it.
    pub fn expr(&self) -> &Expr
        ensures value { result.now ≡ expr_of self.now }
        ensures planned { IsPlanned (tree_of self.now) }

        // Its functions have no fault over their inputs.
        ensures faultless { own_fault (tree_of self.now) ≡ None }

        // The check found no fault of it where it stands.
        ensures placed { IsFaultless (tree_of self.now) }

        // Where it only reads, each input has the order that its function needs, whatever the
        // documents are.
        ensures sorted { IsPlain (tree_of self.now)
            → (docs : Collections) → AreSorted docs (tree_of self.now) }
    {
        &self.expr
    }

    /// The order in which the expression gives its tuples.
    pub fn order(&self) -> &Order
        ensures value { result.now ≡ order_of (tree_of self.now) }

        // Where the expression only reads, what it gives is in this order, whatever the documents are.
        ensures ordered { IsPlain (tree_of self.now)
            → (docs : Collections) → IsInOrder result.now (list_of docs (tree_of self.now)) }
    {
        &self.order
    }

    /// The names of the fields that the expression's tuples may have.
    pub fn fields(&self) -> &FieldList
        ensures value { result.now ≡ fields_of (tree_of self.now) }

        // Whatever the documents are, no tuple has a field outside.
        ensures within { (docs : Collections)
            → HaveOnly result.now (list_of docs (tree_of self.now)) }
    {
        &self.fields
    }

    /// The collections that the expression reads, each once, in the walk's order.
    pub fn collections(&self) -> &FieldList
        ensures { result.now ≡ collections_of (tree_of self.now) }
    {
        &self.collections
    }

    /// Whether each collection that the expression names is there. Takes no memory.
    pub fn stands_on(&self, names: &Names) -> bool
        ensures { result ≡ are_known (named_in (tree_of self.now)) names.now }
    {
        reads::stands_on(&self.expr, names)
    }

    /// The input of update, commit or daemon, checked; none exactly where the root is another
    /// function.
    pub fn input(&self) -> Option<&Checked>
        ensures { option_map (λ c. tree_of c.now) result ≡ input_of (tree_of self.now) }
    {
        match &self.within {
            Within::Input(checked) => Some(checked),
            Within::Parallels(_) => None,
        }
    }

    /// The inputs of the outermost parallel calls, checked, from the left to the right.
    pub fn parallels(&self) -> &[ParallelPart]
        ensures { map part_tree result.now ≡ parallels_of (tree_of self.now) }
    {
        match &self.within {
            Within::Input(checked) => checked.parallels(),
            Within::Parallels(parts) => parts,
        }
    }
}
