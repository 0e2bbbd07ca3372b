//! Tests of expressions, of how they are read and checked, and of daemons: what no clause says.
#![tactic(auto)]

#[cfg(test)]
mod of_daemon_board;
#[cfg(test)]
mod of_expr_check;
#[cfg(test)]
mod of_expr_text;
#[cfg(test)]
mod of_expr_types;
