// The names of functions and of metrics.
ghost use Rattle.std.specs.Prelude.{◌≡◌, ◌++◌, IfOk, codes};
ghost use Rattle.expr_types.specs.ExprTree.{expr_tree, operator_in};
ghost use Rattle.expr_types.specs.Groups.{metric_name};
ghost use Rattle.expr_types.specs.Names.{function_name};

use crate::{Expr, Metric};
use std::alloc::Global;
use tuple_values::{Memory, Text};

impl Expr {
    /// The name of the function, as it is written in expressions.
    pub fn function(&self) -> &'static str
        ensures { result.now ≡ function_name (operator_in (expr_tree self.now)) }
    {
        match self {
            Expr::Search { .. } => "search",
            Expr::Tuple { .. } => "tuple",
            Expr::Select { .. } => "select",
            Expr::Having { .. } => "having",
            Expr::Sort { .. } => "sort",
            Expr::Top { .. } => "top",
            Expr::Unique { .. } => "unique",
            Expr::Merge { .. } => "merge",
            Expr::Reduce { .. } => "reduce",
            Expr::Rollup { .. } => "rollup",
            Expr::InnerJoin { .. } => "innerJoin",
            Expr::LeftOuterJoin { .. } => "leftOuterJoin",
            Expr::Intersect { .. } => "intersect",
            Expr::Complement { .. } => "complement",
            Expr::HashJoin { .. } => "hashJoin",
            Expr::OuterHashJoin { .. } => "outerHashJoin",
            Expr::Parallel { .. } => "parallel",
            Expr::Topic { .. } => "topic",
            Expr::Update { .. } => "update",
            Expr::Commit { .. } => "commit",
            Expr::Daemon { .. } => "daemon",
        }
    }
}

impl Metric {
    /// Its name, as it is written, without blanks: that of the field under which a group has it.
    pub fn name(&self, alloc: Global) -> Result<Text, Memory>
        ensures { IfOk result (λ name. name ≡ metric_name self.now) }
    {
        match self {
            Metric::Sum(field) => over_field(alloc, "sum(", field),
            Metric::Min(field) => over_field(alloc, "min(", field),
            Metric::Max(field) => over_field(alloc, "max(", field),
            Metric::Count => Text::of(alloc, "count(*)"),
        }
    }
}

fn over_field(alloc: Global, head: &str, field: &Text) -> Result<Text, Memory>
    ensures { IfOk result (λ name. name ≡ head.now ++ field.now ++ codes ")") }
{
    let mut name = String::from_str(alloc, head)?;
    name.push_str(field.as_str())?;
    name.push_str(")")?;
    Ok(Text::from_string(name))
}
