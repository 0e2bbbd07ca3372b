//! Plans: what a call asks for, as an expression.
#![tactic(auto)]

mod building;
mod conditions;
mod fault;
mod function;
mod given_items;
mod groups;
mod helpers;
mod items;
mod literals;
mod metrics;
mod param;
mod planning;
mod reading;
mod row;
mod table;
mod walk;
mod words;

pub use expr_types::{
    Comparison, Condition, Conditions, Expr, Exprs, GroupOp, Item, Items, Metric, Metrics,
};
pub use fault::PlanFault;
pub use planning::{first_fault_is_told, plan};
