// What a tuple is asked for.
ghost use Rattle.std.specs.Prelude.{◌≡◌, IfOk};
ghost use Rattle.expr_types.specs.ConditionViews.{condition_tree, condition_trees};

use std::alloc::Global;
use tuple_values::{Memory, Text, TryCopy, Value};

/// How a field's value is compared with a literal.
#[derive(Clone, Copy, PartialEq, Eq)]
pub enum Comparison {
    Eq,
    Gt,
    Lt,
    Gteq,
    Lteq,
}

/// A condition on a tuple: a comparison of a field with a literal, all of several, some of
/// several, just one of two, or not (Solr Reference Guide, "Stream Decorator Reference", having).
#[derive(Drop)]
pub enum Condition {
    Compare {
        test: Comparison,
        field: Text,
        literal: Value,
    },
    All(Conditions),
    Any(Conditions),
    OneOf(Box<Condition>, Box<Condition>),
    Not(Box<Condition>),
}

/// Conditions in their order.
pub type Conditions = Vec<Condition>;

impl Condition {
    /// A condition that says the same.
    #[cycle(copying)]
    pub fn copy(&self, alloc: Global) -> Result<Condition, Memory>
        ensures { IfOk result (λ copy. condition_tree copy ≡ condition_tree self.now) }
    {
        match self {
            Condition::Compare {
                test,
                field,
                literal,
            } => {
                let field = field.copy(alloc)?;
                let literal = literal.copy(alloc)?;
                Ok(Condition::Compare {
                    test: *test,
                    field,
                    literal,
                })
            }
            Condition::All(conditions) => {
                let conditions = copy_all(alloc, conditions)?;
                Ok(Condition::All(conditions))
            }
            Condition::Any(conditions) => {
                let conditions = copy_all(alloc, conditions)?;
                Ok(Condition::Any(conditions))
            }
            Condition::OneOf(left, right) => {
                let left = Box::new(alloc, left.copy(alloc)?)?;
                let right = Box::new(alloc, right.copy(alloc)?)?;
                Ok(Condition::OneOf(left, right))
            }
            Condition::Not(condition) => {
                let condition = Box::new(alloc, condition.copy(alloc)?)?;
                Ok(Condition::Not(condition))
            }
        }
    }
}

#[cycle(copying)]
fn copy_all(alloc: Global, conditions: &[Condition]) -> Result<Conditions, Memory>
    ensures { IfOk result (λ copies.
        condition_trees copies.items ≡ condition_trees conditions.now) }
{
    let mut copies = Vec::new(alloc);
    for condition in conditions {
        copies.push(condition.copy(alloc)?)?;
    }
    Ok(copies)
}
